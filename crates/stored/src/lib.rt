// A line of the stored answers, its values taken one after another; what it lacks is 0 or empty. Format: differential/src/bin/stored.rs.
#![tactic(auto)]

ghost use Rattle.std.specs.Prelude.{◌≡◌, ◌+◌, ◌%◌, ◌^◌, get_or, take, drop, from_bits};
ghost use Rattle.std.specs.Float.{binary64};
ghost use Rattle.std.specs.Float.Ieee.{nan_bits};
ghost use Rattle.stored.specs.Stored.{digit, with_digit, hexadecimal};

use c_types::{Answer, Choice, Layout, Plan, Profile, Reply};
use rows::Row;

// The bits of every NaN.
const NAN: u64 = 0x7ff8_0000_0000_0000;

// The first word of a lent table as it is before a call; each word after it is one more.
const LENT: u64 = 0xab_ad1d_ea00;

// The number that hexadecimal digits write, modulo 2^64.
pub fn number(digits: &[u8]) -> u64
    ensures { result ≡ hexadecimal digits.now }
{
    digits.iter().fold(0, |v, b| with_digit(v, *b))
}

fn with_digit(v: u64, b: u8) -> u64
    ensures { result ≡ with_digit v b }
{
    v.wrapping_mul(16).wrapping_add(digit(b))
}

fn digit(b: u8) -> u64
    ensures { result ≡ digit b }
{
    let low = u64::from(b) % 16;
    if b < b'a' { low } else { (low + 9) % 16 }
}

// The double of some bits.
pub fn float(bits: u64) -> f64
    ensures { result ≡ from_bits binary64 bits }
{
    if is_nan(bits) {
        return 0.0 / 0.0;
    }
    f64::from_bits(bits)
}

fn is_nan(bits: u64) -> bool
    ensures { result ≡ nan_bits binary64 bits }
{
    bits % 0x8000_0000_0000_0000 / 0x10_0000_0000_0000 == 0x7ff && bits % 0x10_0000_0000_0000 != 0
}

// The word i of a lent table as it is before a call.
pub fn lent(i: usize) -> u64
    ensures { result ≡ (0xab_ad1d_ea00 + i) % 2 ^ 64 }
{
    LENT.wrapping_add(i as u64)
}

// The bits of a double.
pub fn bits(x: f64) -> u64 {
    if x.is_nan() {
        return NAN;
    }
    x.to_bits()
}

// The numbers of a line that are left.
#[derive(Clone, Copy)]
pub struct Line<'a>(pub &'a [u64]);

impl<'a> Line<'a> {
    // ---- the next value

    pub fn number(&mut self) -> u64
        ensures number { result ≡ get_or self.old.0.now 0 0 }
        ensures left { self.new.0.now ≡ drop 1 self.old.0.now }
    {
        let Some((first, others)) = self.0.split_first() else {
            return 0;
        };
        self.0 = others;
        *first
    }

    pub fn size(&mut self) -> usize
        ensures number { result ≡ get_or self.old.0.now 0 0 }
        ensures left { self.new.0.now ≡ drop 1 self.old.0.now }
    {
        self.number() as usize
    }

    pub fn float(&mut self) -> f64 {
        float(self.number())
    }

    pub fn row(&mut self) -> Row {
        let w0 = self.number();
        let w1 = self.number();
        let w2 = self.number();
        let w3 = self.number();
        Row { w0, w1, w2, w3 }
    }

    // At most k numbers.
    pub fn first(&mut self, k: usize) -> &'a [u64]
        ensures first { result.now ≡ take k self.old.0.now }
        ensures left { self.new.0.now ≡ drop k self.old.0.now }
    {
        let (first, others) = self.0.split_at(k.min(self.0.len()));
        self.0 = others;
        first
    }

    pub fn slice(&mut self) -> &'a [u64]
        ensures slice { result.now ≡ take (get_or self.old.0.now 0 0) (drop 1 self.old.0.now) }
        ensures left { self.new.0.now ≡ drop (get_or self.old.0.now 0 0) (drop 1 self.old.0.now) }
    {
        let k = self.size();
        self.first(k)
    }

    // A profile: counts, flag, threshold, at most 16 probabilities, at most 64 domains.
    pub fn profile(&mut self) -> Profile {
        let domain_count = self.size();
        let prob_count = self.size();
        let runtime = self.number();
        let threshold = self.float();
        let probs = self.first(prob_count.min(16));
        let domains = self.first(domain_count.min(64));
        Profile {
            domain_count,
            prob_count,
            runtime,
            threshold,
            probs: std::array::from_fn(|i| float(bitmap::word_at(probs, i))),
            domains: std::array::from_fn(|i| bitmap::word_at(domains, i)),
        }
    }

    // ---- whether an answer is the next value

    // Kept as it is: this and is_reply in one trait are no plainer, since Answer and Reply have fields of their own, and so a body each.
    pub fn is_answer(&mut self, r: Answer) -> bool {
        self.number() == r.refusal && self.number() == r.value
    }

    // Kept as it is: this and is_choice in one trait are no plainer, since Layout and Choice have fields of their own, and so a body each.
    pub fn is_trial(&mut self, r: Layout) -> bool {
        self.number() == r.refusal && self.size() == r.width && self.number() == r.commits
    }

    pub fn is_planned(&mut self, r: Plan) -> bool {
        self.number() == r.refusal
            && self.number() == r.found
            && self.size() == r.width
            && self.number() == bits(r.time)
    }

    pub fn is_choice(&mut self, r: Choice) -> bool {
        self.number() == r.refusal && self.number() == r.from_table && self.size() == r.count
    }

    pub fn is_reply(&mut self, r: Reply) -> bool {
        self.number() == r.refusal && self.number() == r.status
    }

    pub fn is_profile(&mut self, p: Profile) -> bool {
        with_bits(p) == with_bits(self.profile())
    }

    pub fn is_slice(&mut self, words: &[u64]) -> bool {
        self.slice() == words
    }

    // Whether the first words of the rows are the next slice, and the other words are 0.
    pub fn is_first_words(&mut self, rows: &[u64]) -> bool {
        let owed = self.slice();
        rows.len() == owed.len() * 4
            && rows
                .chunks(4)
                .zip(owed)
                .all(|(row, word)| row == [*word, 0, 0, 0].as_slice())
    }
}

// The fields of a profile, with the bits of each float: by these a NaN is the same as itself.
fn with_bits(p: Profile) -> (usize, usize, u64, u64, [u64; 16], [u64; 64]) {
    let probs = p.probs.map(bits);
    let domains = p.domains;
    (
        p.domain_count,
        p.prob_count,
        p.runtime,
        bits(p.threshold),
        probs,
        domains,
    )
}
