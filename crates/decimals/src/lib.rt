// Decimals: a double from digits, a point and an exponent.
#![tactic(auto)]

ghost use Rattle.std.specs.Prelude.{◌≡◌, true, false, not, ◌&&◌, ◌||◌, ◌+◌, ◌*◌, ◌^◌, ◌≤◌, ◌<◌, leb, ltb, length, Some};
ghost use Rattle.std.specs.Option.{is_some};
ghost use Rattle.std.specs.Float.{binary64};
ghost use Rattle.std.specs.Float.Ieee.{round};
ghost use Rattle.std.specs.Float.Ieee.Exact.{HasValue};
ghost use Rattle.std.specs.List.{list_all};
ghost use Rattle.refusals.specs.Refused.{outcome_of};
ghost use Rattle.numerals.specs.Text.{before, behind};
ghost use Rattle.numerals.specs.Whole.{is_digit, is_digits, spelt};
ghost use Rattle.decimals.specs.Decimal.{is_negative, unsigned, is_e, written_of, counted, ups, downs, digits, read_of, decimal_of};
ghost use Rattle.decimals.specs.Parts.{written, is_raised, lowers_of, power_of};

use refusals::{Refusal, unless};

// A decimal as it is written: whether it begins with -, the digits before the point and those after it, and its exponent.
#[derive(Clone, Copy)]
struct Decimal<'a> {
    negative: bool,
    whole: &'a [u8],
    fraction: &'a [u8],
    exponent: Option<Exponent<'a>>,
}

// An exponent: whether it begins with -, and its digits.
#[derive(Clone, Copy)]
struct Exponent<'a> {
    lowers: bool,
    power: &'a [u8],
}

// The nearest double to a decimal, ties to even.
pub fn read_decimal(s: &[u8]) -> Result<f64, Refusal>
    ensures { outcome_of result ≡ decimal_of s.now }
{
    value(&split(s))
}

// The decimal that a text writes, where it is one.
fn split(s: &[u8]) -> Decimal<'_>
    ensures { written result ≡ written_of s.now }
{
    let (negative, u) = signed(s);
    match u.iter().position(|b| is_e(*b)) {
        Some(c) => {
            let (lowers, power) = signed(numerals::after(u, c + 1));
            pointed(
                negative,
                numerals::upto(u, c),
                Some(Exponent { lowers, power }),
            )
        }
        None => pointed(negative, u, None),
    }
}

// The same of its sign, what stands before the letter, and the exponent.
fn pointed<'a>(negative: bool, m: &'a [u8], exponent: Option<Exponent<'a>>) -> Decimal<'a>
    ensures { written result ≡ record {
      negative = negative;
      whole = before 46 m.now;
      fraction = behind 46 m.now;
      raised = is_raised exponent.entry;
      lowers = lowers_of exponent.entry;
      power = power_of exponent.entry;
    } }
{
    let p = numerals::find(m, b'.');
    Decimal {
        negative,
        whole: numerals::upto(m, p),
        fraction: numerals::past(m, p),
        exponent,
    }
}

// Whether s has a - at its start, and s without a sign there.
fn signed(s: &[u8]) -> (bool, &[u8])
    ensures { (result.0 ≡ is_negative s.now) × (result.1.now ≡ unsigned s.now) }
{
    match s {
        [b'-', rest @ ..] => (true, rest),
        [b'+', rest @ ..] => (false, rest),
        _ => (false, s),
    }
}

fn is_e(b: u8) -> bool
    ensures { result ≡ is_e b }
{
    b == b'e' || b == b'E'
}

// The double of a decimal as it is written.
fn value(d: &Decimal) -> Result<f64, Refusal>
    ensures { outcome_of result ≡ read_of (written d.now) }
{
    let Some(m) = all_digits(d) else {
        return Err(Refusal::Numeral);
    };
    unless(has_digits(d), Refusal::Numeral)?;
    unless(d.whole.len() + d.fraction.len() <= 15, Refusal::Digits)?;
    unless(is_short(d), Refusal::Digits)?;
    let (ups, downs) = scale(d);
    unless(is_scale(ups, downs), Refusal::Digits)?;
    Ok(scaled(d.negative, m, ups, downs))
}

// All the digits before the exponent as one number, if they are digits; it has room for 15 of them.
fn all_digits(d: &Decimal) -> Option<u64>
    ensures { let w = written d.now in
        (is_some result ≡ (list_all is_digit w.whole && list_all is_digit w.fraction))
        × (is_some result ≡ true → counted w ≤ 15 → result ≡ Some (digits w)) }
{
    read_digits(d.fraction, read_digits(d.whole, 0)?)
}

// Whether there is a digit before the exponent, and an exponent is one or more digits.
fn has_digits(d: &Decimal) -> bool
    ensures { let w = written d.now in
        result ≡ (ltb 0 (counted w) && (not w.raised || is_digits w.power)) }
{
    if d.whole.len() + d.fraction.len() == 0 {
        return false;
    }
    match d.exponent {
        Some(e) => numerals::is_digits(e.power),
        None => true,
    }
}

// Whether the exponent has at most 4 digits.
fn is_short(d: &Decimal) -> bool
    ensures { result ≡ leb (length (written d.now).power) 4 }
{
    match d.exponent {
        Some(e) => e.power.len() <= 4,
        None => true,
    }
}

// The power of ten of its exponent with the point moved behind the last digit: 10 ^ ups / 10 ^ downs. A part: its digits have been tested
// and counted.
fn scale(d: &Decimal) -> (usize, usize)
    requires { let w = written d.now in
        (list_all is_digit w.power ≡ true) × (length w.power ≤ 4) × (length w.fraction ≤ 15) }
    ensures { let w = written d.now in
        (result.0 ≡ ups w) × (result.1 ≡ downs w) × (result.0 ≤ 10 ^ 5) × (result.1 ≤ 10 ^ 5) }
{
    let moved = d.fraction.len();
    let Some(e) = d.exponent else {
        return (0, moved);
    };
    let k = power(e.power);
    if e.lowers { (0, k + moved) } else { (k, moved) }
}

// Whether the power of ten that is left of 10 ^ ups / 10 ^ downs is from -22 to 22. A part: both are small.
fn is_scale(ups: usize, downs: usize) -> bool
    requires { (ups ≤ 10 ^ 5) × (downs ≤ 10 ^ 5) }
    ensures { result ≡ (leb ups (downs + 22) && leb downs (ups + 22)) }
{
    ups <= downs + 22 && downs <= ups + 22
}

// If every byte of s is a digit, the number that they then spell after digits that are worth v, where there is room for it. One pass
// without a branch: a digit is its byte modulo 16, and what is no digit counts for something else.
fn read_digits(s: &[u8], v: u64) -> Option<u64>
    ensures { (is_some result ≡ list_all is_digit s.now)
        × (list_all is_digit s.now ≡ true → (v + 1) * 10 ^ length s.now ≤ 10 ^ 15 → result ≡ Some (spelt v s.now)) }
{
    let mut ok = true;
    let mut w = v;
    for b in s {
        ok = ok & numerals::is_digit(*b);
        w = (w % 0x100_0000_0000_0000) * 10 + u64::from(*b) % 16;
    }
    if ok { Some(w) } else { None }
}

// The number of the exponent. A part: its digits have been tested and counted.
fn power(q: &[u8]) -> usize
    requires { (list_all is_digit q.now ≡ true) × (length q.now ≤ 4) }
    ensures { (result ≡ spelt 0 q.now) × (result < 10 ^ 4) }
{
    read_digits(q, 0).unwrap_or(0) as usize
}

// m * 10 ^ ups / 10 ^ downs with its sign, rounded once. A part: the powers have been tested.
fn scaled(negative: bool, m: u64, ups: usize, downs: usize) -> f64
    requires { (m < 10 ^ 15) × (ups ≤ downs + 22) × (downs ≤ ups + 22) }
    ensures { result ≡ round binary64 negative (m * 10 ^ ups) (10 ^ downs) }
{
    let x = magnitude(m, ups, downs);
    if negative { -x } else { x }
}

// The same of no sign: a product or a quotient of two whole numbers that a double holds.
fn magnitude(m: u64, ups: usize, downs: usize) -> f64
    requires { (m < 10 ^ 15) × (ups ≤ downs + 22) × (downs ≤ ups + 22) }
    ensures { result ≡ round binary64 false (m * 10 ^ ups) (10 ^ downs) }
{
    let x = m as f64;
    if downs <= ups {
        return x * ten(ups - downs);
    }
    x / ten(downs - ups)
}

// A power of ten that a double holds.
fn ten(k: usize) -> f64
    requires { k ≤ 22 }
    ensures { HasValue result false (10 ^ k) 1 }
{
    TENS[k]
}

// From 10 ^ 0 to 10 ^ 22.
const TENS: [f64; 23] = [
    1e0, 1e1, 1e2, 1e3, 1e4, 1e5, 1e6, 1e7, 1e8, 1e9, 1e10, 1e11, 1e12, 1e13, 1e14, 1e15, 1e16,
    1e17, 1e18, 1e19, 1e20, 1e21, 1e22,
];
