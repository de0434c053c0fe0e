// The text of a peer's line.
ghost use Rattle.std.specs.Prelude.{◌≤◌, IfSome};

use crate::{Unknown, number, word};
use std::fmt;

// The names that a heard peer has, each with its value after it.
#[derive(Clone, Copy, Debug, PartialEq, Eq)]
pub enum Name {
    Slope,
    Delay,
    Jitter,
    InFlight,
    Downtime,
}

impl<'a> TryFrom<&'a [u8]> for Name {
    type Error = Unknown;

    fn try_from(word: &'a [u8]) -> Result<Self, Unknown> {
        match word {
            b"slope" => Ok(Name::Slope),
            b"delay" => Ok(Name::Delay),
            b"jitter" => Ok(Name::Jitter),
            b"in-flight" => Ok(Name::InFlight),
            b"downtime" => Ok(Name::Downtime),
            _ => Err(Unknown),
        }
    }
}

impl fmt::Display for Name {
    fn fmt<W: fmt::Write>(&self, f: &mut fmt::Formatter<W>) -> fmt::Result {
        f.write_str(match self {
            Name::Slope => "slope",
            Name::Delay => "delay",
            Name::Jitter => "jitter",
            Name::InFlight => "in-flight",
            Name::Downtime => "downtime",
        })
    }
}

// The text after the key: the peer's number, then `silent` if it is, then names with a value after each (of a silent one in-flight alone).
#[derive(Clone, Copy)]
pub struct PeerText<'a>(pub &'a [u8]);

impl<'a> PeerText<'a> {
    pub fn number(self) -> &'a [u8] {
        word(self.0, 0)
    }

    pub fn is_silent(self) -> bool {
        matches!(word(self.0, 1), b"silent")
    }

    fn first_place(self) -> usize {
        if self.is_silent() { 2 } else { 1 }
    }

    // The place of a name among the words.
    fn place(self, name: Name) -> Option<usize>
        ensures { IfSome result (λ k. k ≤ 10) }
    {
        (self.first_place()..11)
            .step_by(2)
            .find(|k| Name::try_from(word(self.0, *k)) == Ok(name))
    }

    // The first word in the place of a name that is none, that this peer may not have, or that is there a second time.
    pub fn stranger(self) -> Option<&'a [u8]> {
        let k = (self.first_place()..13)
            .step_by(2)
            .find(|k| self.is_stranger(*k))?;
        Some(word(self.0, k))
    }

    fn is_stranger(self, k: usize) -> bool {
        let word = word(self.0, k);
        match Name::try_from(word) {
            Err(_) => !word.is_empty(),
            Ok(name) => !self.may_have(name) || self.place(name) != Some(k),
        }
    }

    fn may_have(self, name: Name) -> bool {
        name == Name::InFlight || !self.is_silent()
    }

    // The value of a name.
    pub fn value(self, name: Name) -> Option<&'a [u8]> {
        let k = self.place(name)?;
        Some(word(self.0, k + 1))
    }

    // The decimal of a name, or 0 where it is none.
    pub fn float(self, name: Name) -> f64 {
        self.value(name).map_or(0.0, crate::float)
    }

    // The bytes in flight to the peer; 0 if it does not say.
    pub fn in_flight(self) -> u64 {
        self.value(Name::InFlight).map_or(0, number)
    }
}
