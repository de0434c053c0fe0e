// Texts: the scanning that all of them share, and whole numbers.
#![tactic(auto)]

ghost use Rattle.std.specs.Prelude.{◌≡◌, ◌+◌, ◌≤◌, List, ℕ, length, take, drop};
ghost use Rattle.std.specs.Iterator.{YieldsFirstBy, item_count};
ghost use Rattle.std.specs.List.{list_all};
ghost use Rattle.rows.specs.Row.{row_of};
ghost use Rattle.refusals.specs.Refused.{outcome_of, outcome_by};
ghost use Rattle.numerals.specs.Text.{is_text, is_ascii, is_same, is_blank, trim_start, trim_end, trim, cut, has_byte, split};
ghost use Rattle.numerals.specs.TextLaws.{PartOf};
ghost use Rattle.numerals.specs.Parts.{parts_left};
ghost use Rattle.numerals.specs.Whole.{is_digit, is_digits, unplussed, whole_of, below_of, member_of, members_of};

use refusals::Refusal;
use rows::{Row, ShardId, ShardSet};
use std::marker::Model;

// Whether s has at most so many bytes, all below 128.
pub fn is_text(s: &[u8], most: usize) -> bool
    ensures { result ≡ is_text most s.now }
{
    s.len() <= most && all_ascii(s)
}

// A whole number: an optional + and one or more digits, of a value of at most 255.
pub fn read_whole(s: &[u8]) -> Result<usize, Refusal>
    ensures { outcome_of result ≡ whole_of s.now }
{
    let u = unplussed(s);
    if u.is_empty() {
        return Err(Refusal::Numeral);
    }
    let mut v = 0;
    for b in u {
        if !is_digit(*b) {
            return Err(Refusal::Numeral);
        }
        v = v * 10 + usize::from(*b - b'0');
        if 255 < v {
            return Err(Refusal::Numeral);
        }
    }
    Ok(v)
}

// A whole number below the limit.
#[tactic(auto, unfolding(crate::specs::Whole::below_of))]
pub fn read_below(s: &[u8], limit: usize) -> Result<usize, Refusal>
    ensures { outcome_of result ≡ below_of limit s.now }
{
    let v = read_whole(s)?;
    refusals::unless(v < limit, Refusal::Member)?;
    Ok(v)
}

// The numbers between commas, each below the limit, as a mask. A part: a word has room for numbers below 64.
// Kept as it is: a closure in the place of `trims` is no plainer, since the definition has the flag.
pub fn read_members(s: &[u8], trims: bool, limit: usize) -> Result<u64, Refusal>
    requires { limit ≤ 64 }
    ensures { outcome_of result ≡ members_of trims limit s.now }
{
    Ok(read_shards(s, trims, limit)?.w0)
}

// The same as a row. A part: a row has room for numbers below 256. Inlined, so that no caller reads the row back from memory.
#[inline]
pub fn read_shards(s: &[u8], trims: bool, limit: usize) -> Result<Row, Refusal>
    requires { limit ≤ 256 }
    ensures { outcome_by row_of result ≡ members_of trims limit s.now }
{
    let mut row = Row::none();
    for q in split(s, b',') {
        let v = read_member(q, trims, limit)?;
        row = row.with(ShardId(v));
    }
    Ok(row)
}

#[tactic(auto, unfolding(crate::specs::Whole::member_of))]
fn read_member(s: &[u8], trims: bool, limit: usize) -> Result<usize, Refusal>
    ensures { outcome_of result ≡ member_of trims limit s.now }
{
    read_below(if trims { trimmed(s) } else { s }, limit)
}

// s without the blanks at its ends.
pub fn trimmed(s: &[u8]) -> &[u8]
    ensures { result.now ≡ trim s.now }
{
    let t = after(s, lead(s));
    upto(t, stop(t))
}

// Where the blanks at the start of s end.
fn lead(s: &[u8]) -> usize
    ensures { (result ≤ length s.now) × (drop result s.now ≡ trim_start s.now) }
{
    s.iter().position(|b| !is_blank(*b)).unwrap_or(s.len())
}

// Where the blanks at the end of s begin.
fn stop(s: &[u8]) -> usize
    ensures { (result ≤ length s.now) × (take result s.now ≡ trim_end s.now) }
{
    s.len()
        - s.iter()
            .rev()
            .position(|b| !is_blank(*b))
            .unwrap_or(s.len())
}

pub fn is_blank(b: u8) -> bool
    ensures { result ≡ is_blank b }
{
    (9 <= b && b <= 13) || b == 32
}

// Whether s and t are the same bytes.
// Kept as it is: its contract says what == of two texts is, so that no caller proves it.
pub fn same(s: &[u8], t: &[u8]) -> bool
    ensures { result ≡ is_same s.now t.now }
{
    s == t
}

// The parts of s between the bytes x, from the left: one more than there are x.
pub fn split(s: &[u8], x: u8) -> Parts<'_>
    ensures { result ≡ split x s.now }
{
    Parts {
        separator: x,
        rest: Some(s),
    }
}

// The parts that are left of a text: those of its rest, and none once the last of them was given.
#[derive(Drop)]
pub struct Parts<'a> {
    separator: u8,
    rest: Option<&'a [u8]>,
}

impl<'a> Model for Parts<'a> {
    ghost Value = { List (List ℕ) };

    ghost view = { λ parts. parts_left parts.separator parts.rest };
}

impl<'a> Iterator for Parts<'a> {
    type Item = &'a [u8];

    ghost next_gives = { YieldsFirstBy (λ q. q.now) (λ parts. parts) };

    ghost remaining = { item_count (λ parts. parts) };

    fn next(&mut self) -> Option<&'a [u8]> {
        let s = self.rest?;
        let q = part(s, 0, self.separator);
        if q.len() == s.len() {
            self.rest = None;
            return Some(q);
        }
        self.rest = Some(after(s, q.len() + 1));
        Some(q)
    }
}

// The part of s from p up to the next x, or the end.
pub fn part(s: &[u8], p: usize, x: u8) -> &[u8]
    requires { p ≤ length s.now }
    ensures { PartOf s.now p x result.now }
{
    let rest = after(s, p);
    upto(rest, find(rest, x))
}

// The place of the first x of s, or the length of s: past the blocks of 16 bytes that have none.
pub fn find(s: &[u8], x: u8) -> usize
    ensures { result ≡ cut x s.now }
{
    let mut rest = s;
    while let Some((block, tail)) = rest.split_first_chunk::<16>() {
        if has(block, x) {
            break;
        }
        rest = tail;
    }
    s.len() - rest.len() + place(rest, x)
}

// The same, byte by byte.
fn place(s: &[u8], x: u8) -> usize
    ensures { result ≡ cut x s.now }
{
    s.iter().position(|b| *b == x).unwrap_or(s.len())
}

// Whether x is one of the bytes. It ends at none of them early, so that all are compared at once.
// Kept as it is: any was tried: in a Rust copy of find it takes 7 times as long over 4,096 bytes, since it compares one byte at a time.
fn has(block: &[u8; 16], x: u8) -> bool
    ensures { result ≡ has_byte x block.now }
{
    let mut hit = false;
    for b in block {
        hit = hit | (*b == x);
    }
    hit
}

// s from a on. What a part is as a list is stated here, in `upto` and in `past`.
pub fn after(s: &[u8], a: usize) -> &[u8]
    requires { a ≤ length s.now }
    ensures { result.now ≡ drop a s.now }
{
    &s[a..]
}

// The first e of s.
pub fn upto(s: &[u8], e: usize) -> &[u8]
    requires { e ≤ length s.now }
    ensures { result.now ≡ take e s.now }
{
    &s[..e]
}

// s past the place c, which may be the end.
pub fn past(s: &[u8], c: usize) -> &[u8]
    requires { c ≤ length s.now }
    ensures { result.now ≡ drop (c + 1) s.now }
{
    if c == s.len() {
        after(s, c)
    } else {
        after(s, c + 1)
    }
}

// Whether s is one or more digits.
pub fn is_digits(s: &[u8]) -> bool
    ensures { result ≡ is_digits s.now }
{
    !s.is_empty() && s.iter().all(|b| is_digit(*b))
}

pub fn is_digit(b: u8) -> bool
    ensures { result ≡ is_digit b }
{
    b'0' <= b && b <= b'9'
}

// s without a + at its start.
fn unplussed(s: &[u8]) -> &[u8]
    ensures { result.now ≡ unplussed s.now }
{
    match s {
        [b'+', rest @ ..] => rest,
        _ => s,
    }
}

// Whether every byte of s is below 128. It ends at none of them early, so that many are compared at once.
// Kept as it is: all was tried: in a Rust copy it takes 18 times as long over 4,096 bytes, since it compares one byte at a time.
fn all_ascii(s: &[u8]) -> bool
    ensures { result ≡ list_all is_ascii s.now }
{
    let mut ok = true;
    for b in s {
        ok = ok & is_ascii(*b);
    }
    ok
}

fn is_ascii(b: u8) -> bool
    ensures { result ≡ is_ascii b }
{
    b < 128
}
