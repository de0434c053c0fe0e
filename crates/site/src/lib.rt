// The description of a site: a line for each key, in any order, with its value. `#` begins a comment; blank lines are ignored.
//
//     population N    own N    tolerance N    quorum N    data-shards N    size N
//     width exactly N, or width at most N
//     penalty X
//     profile TEXT
//     peer N slope X delay X jitter X in-flight N downtime X, or peer N silent, or peer N silent in-flight N
//
// N is a whole number, X a decimal; a peer's names may be in any order. What is read is in no contract: the entries check it.
#![tactic(auto)]

ghost use Rattle.std.specs.Prelude.{◌≤◌, length};
ghost use Rattle.std.specs.Iterator.{at_most};
ghost use Rattle.std.specs.Iterator.Adapters.{zip_first};

use layout::TotalShards;
use std::iter::Zip;
use std::ops::RangeInclusive;

mod key;
mod peer;

pub use key::Key;
pub use peer::{Name, PeerText};

// A number above this one has no room for another digit.
const MOST: u64 = 1_000_000_000_000_000_000;

// A word that is not among those of an enum.
#[derive(Clone, Copy, Debug, PartialEq, Eq)]
pub struct Unknown;

// The text of a description.
#[derive(Clone, Copy)]
pub struct Description<'a>(pub &'a [u8]);

impl<'a> Description<'a> {
    pub fn lines(self) -> Lines<'a> {
        Lines(numerals::split(self.0, b'\n').zip(1..=u64::MAX))
    }

    // The first line of a key.
    pub fn first(self, key: Key) -> Option<Line<'a>> {
        self.lines().find(|line| line.key() == Ok(key))
    }

    // The first line of a peer whose number is in a range.
    pub fn first_peer(self, peers: RangeInclusive<u64>) -> Option<Line<'a>> {
        self.lines().find(|line| line.is_of_peer(&peers))
    }

    // The value of the first line of a key; empty if there is none.
    pub fn value_of(self, key: Key) -> &'a [u8] {
        match self.first(key) {
            None => &self.0[..0],
            Some(line) => line.value(),
        }
    }

    // The whole number of a key, or 0.
    pub fn number_of(self, key: Key) -> u64 {
        number(self.value_of(key))
    }

    // The decimal of a key, or 0.
    pub fn float_of(self, key: Key) -> f64 {
        float(self.value_of(key))
    }

    // The width, or none at all where it is malformed.
    pub fn total(self) -> TotalShards {
        read_width(self.value_of(Key::Width)).unwrap_or(TotalShards::Exactly(0))
    }

    // The description of a peer.
    pub fn peer(self, p: u64) -> Option<PeerText<'a>> {
        let line = self.first_peer(p..=p)?;
        Some(line.peer())
    }
}

// A line of a description: its number, from 1, and what it says without its comment, trimmed.
#[derive(Clone, Copy)]
pub struct Line<'a> {
    pub number: u64,
    pub said: &'a [u8],
}

impl<'a> Line<'a> {
    // What its first word means.
    pub fn key(self) -> Result<Key, Unknown> {
        if self.said.is_empty() {
            return Err(Unknown);
        }
        Key::try_from(self.first_word())
    }

    pub fn first_word(self) -> &'a [u8] {
        word(self.said, 0)
    }

    // The text after its first word.
    pub fn value(self) -> &'a [u8] {
        from_word(self.said, 1)
    }

    // Its value as the text of a peer, where its key is `peer`.
    pub fn peer(self) -> PeerText<'a> {
        PeerText(self.value())
    }

    fn is_of_peer(self, peers: &RangeInclusive<u64>) -> bool {
        self.key() == Ok(Key::Peer) && peers.contains(&number(self.peer().number()))
    }
}

// The lines of a description that are left, each as its text and its number.
#[derive(Drop)]
pub struct Lines<'a>(Zip<numerals::Parts<'a>, RangeInclusive<u64>>);

impl<'a> Iterator for Lines<'a> {
    type Item = Line<'a>;

    ghost remaining = { λ lines. at_most (length (zip_first lines.0)) };

    fn next(&mut self) -> Option<Line<'a>> {
        let (text, number) = self.0.next()?;
        Some(Line {
            number,
            said: without_comment(text),
        })
    }
}

fn without_comment(s: &[u8]) -> &[u8] {
    numerals::trimmed(numerals::part(s, 0, b'#'))
}

// ---- words

// Word k of s, from 0; empty if there are no more than k.
pub fn word(s: &[u8], k: usize) -> &[u8] {
    let rest = from_word(s, k);
    &rest[..word_end(rest)]
}

// s from word k on.
fn from_word(s: &[u8], k: usize) -> &[u8] {
    let mut rest = &s[gap_end(s)..];
    for _ in 0..k {
        rest = &rest[word_end(rest)..];
        rest = &rest[gap_end(rest)..];
    }
    rest
}

// Where the word at the start of s ends.
fn word_end(s: &[u8]) -> usize
    ensures { result ≤ length s.now }
{
    s.iter()
        .position(|b| numerals::is_blank(*b))
        .unwrap_or(s.len())
}

// Where the blanks at the start of s end.
fn gap_end(s: &[u8]) -> usize
    ensures { result ≤ length s.now }
{
    s.iter()
        .position(|b| !numerals::is_blank(*b))
        .unwrap_or(s.len())
}

// ---- values

// A whole number: one or more digits. One above 10^18 counts as 2^64 - 1, which every entry refuses.
pub fn read_whole(s: &[u8]) -> Option<u64> {
    if !numerals::is_digits(s) {
        return None;
    }
    let mut v: u64 = 0;
    for b in s {
        if MOST < v {
            return Some(u64::MAX);
        }
        v = v * 10 + digit(*b);
    }
    Some(v)
}

fn digit(b: u8) -> u64
    ensures { result ≤ 9 }
{
    u64::from(b) % 16 % 10
}

// A whole number, or 0 where it is none.
pub fn number(s: &[u8]) -> u64 {
    read_whole(s).unwrap_or(0)
}

// A decimal, or 0 where it is none.
pub fn float(s: &[u8]) -> f64 {
    decimals::read_decimal(s).unwrap_or(0.0)
}

// A width: exactly N, or at most N.
pub fn read_width(s: &[u8]) -> Option<TotalShards> {
    match word(s, 0) {
        b"exactly" => Some(TotalShards::Exactly(read_whole(from_word(s, 1))? as usize)),
        b"at" if matches!(word(s, 1), b"most") => {
            let most = read_whole(from_word(s, 2))?;
            Some(TotalShards::AtMost(most as usize))
        }
        _ => None,
    }
}
