// The keys of a description.
use crate::Unknown;
use std::fmt;

#[derive(Clone, Copy, Debug, PartialEq, Eq)]
pub enum Key {
    Population,
    Own,
    Tolerance,
    Quorum,
    DataShards,
    Width,
    Size,
    Penalty,
    Profile,
    Peer,
}

impl Key {
    // Those that every description has once: all but `peer`.
    pub const ONCE: [Key; 9] = [
        Key::Population,
        Key::Own,
        Key::Tolerance,
        Key::Quorum,
        Key::DataShards,
        Key::Width,
        Key::Size,
        Key::Penalty,
        Key::Profile,
    ];
}

impl<'a> TryFrom<&'a [u8]> for Key {
    type Error = Unknown;

    fn try_from(word: &'a [u8]) -> Result<Self, Unknown> {
        match word {
            b"population" => Ok(Key::Population),
            b"own" => Ok(Key::Own),
            b"tolerance" => Ok(Key::Tolerance),
            b"quorum" => Ok(Key::Quorum),
            b"data-shards" => Ok(Key::DataShards),
            b"width" => Ok(Key::Width),
            b"size" => Ok(Key::Size),
            b"penalty" => Ok(Key::Penalty),
            b"profile" => Ok(Key::Profile),
            b"peer" => Ok(Key::Peer),
            _ => Err(Unknown),
        }
    }
}

impl fmt::Display for Key {
    fn fmt<W: fmt::Write>(&self, f: &mut fmt::Formatter<W>) -> fmt::Result {
        f.write_str(match self {
            Key::Population => "population",
            Key::Own => "own",
            Key::Tolerance => "tolerance",
            Key::Quorum => "quorum",
            Key::DataShards => "data-shards",
            Key::Width => "width",
            Key::Size => "size",
            Key::Penalty => "penalty",
            Key::Profile => "profile",
            Key::Peer => "peer",
        })
    }
}
