// What is wrong with a description of a site: a malformed line, missing keys, or a refusal and the line that it concerns.
#![tactic(auto)]

use refusals::Refusal;
use site::{Description, Key, Line, Name, PeerText};
use std::ops::Range;
use std::{fmt, io};

// What is wrong, which ends a plan.
#[derive(Clone, Copy)]
pub enum Problem<'a> {
    // A line by its number, and the words of it that are wrong.
    Wrong {
        number: u64,
        fault: Fault,
        words: &'a [u8],
    },
    // A refusal, and the line that it concerns.
    Refused {
        refusal: Refusal,
        line: Option<Line<'a>>,
    },
}

// What is wrong with words of a line.
#[derive(Clone, Copy)]
pub enum Fault {
    UnknownKey,
    SecondTime,
    NoWidth,
    Unexpected,
    Missing(Name),
}

impl fmt::Display for Fault {
    fn fmt<W: fmt::Write>(&self, f: &mut fmt::Formatter<W>) -> fmt::Result {
        match *self {
            Fault::UnknownKey => write!(f, "unknown key: "),
            Fault::SecondTime => write!(f, "said a second time: "),
            Fault::NoWidth => write!(f, "neither `exactly N` nor `at most N`: width "),
            Fault::Unexpected => write!(f, "unexpected word: "),
            Fault::Missing(name) => write!(f, "missing: {name}"),
        }
    }
}

impl<'a> Problem<'a> {
    // A refusal of an entry that was asked for a description's site.
    pub fn refused(description: Description<'a>, refusal: Refusal) -> Self {
        Problem::Refused {
            refusal,
            line: concerned(description, refusal),
        }
    }

    fn wrong(line: Line<'a>, fault: Fault, words: &'a [u8]) -> Self {
        Problem::Wrong {
            number: line.number,
            fault,
            words,
        }
    }

    fn refused_at(line: Line<'a>, refusal: Refusal) -> Self {
        Problem::Refused {
            refusal,
            line: Some(line),
        }
    }

    // Kept as it is: Display is no plainer, since a description is bytes that need not be text, which no Formatter takes.
    pub fn print(self, rt: &impl Print) -> io::Result<()> {
        match self {
            Problem::Wrong {
                number,
                fault,
                words,
            } => {
                print!(rt; "line {number}: {fault}")?;
                rt.write_all(words)?;
                println!(rt; "")
            }
            Problem::Refused { refusal, line } => {
                println!(rt; "refused {}: {}", refusal.number(), Meaning(refusal))?;
                match line {
                    None => Ok(()),
                    Some(line) => {
                        print!(rt; "line {}: ", line.number)?;
                        rt.write_all(line.said)?;
                        println!(rt; "")
                    }
                }
            }
        }
    }
}

// ---- the lines, from the first on

// Checks that each line has a known key, which no line before it has, and a value that can be read.
pub fn check_lines(description: Description<'_>) -> Result<(), Problem<'_>> {
    for line in description.lines() {
        check_line(description, line)?;
    }
    Ok(())
}

fn check_line<'a>(description: Description<'a>, line: Line<'a>) -> Result<(), Problem<'a>> {
    if line.said.is_empty() {
        return Ok(());
    }
    let Ok(key) = line.key() else {
        return Err(Problem::wrong(line, Fault::UnknownKey, line.first_word()));
    };
    check_value(key, line)?;
    if first_number(description, key, line) != Some(line.number) {
        return Err(Problem::wrong(line, Fault::SecondTime, line.said));
    }
    Ok(())
}

// The number of the first line of the same key, and where it is `peer` of the same peer.
fn first_number<'a>(description: Description<'a>, key: Key, line: Line<'a>) -> Option<u64> {
    let first = match key {
        Key::Peer => {
            let p = site::number(line.peer().number());
            description.first_peer(p..=p)
        }
        _ => description.first(key),
    };
    first.map(|l| l.number)
}

fn check_value<'a>(key: Key, line: Line<'a>) -> Result<(), Problem<'a>> {
    let value = line.value();
    match key {
        Key::Width => check_width(value, line),
        Key::Penalty => check_float(value, line),
        Key::Profile => Ok(()),
        Key::Peer => check_peer(line.peer(), line),
        _ => check_number(value, line),
    }
}

fn check_number<'a>(value: &'a [u8], line: Line<'a>) -> Result<(), Problem<'a>> {
    match site::read_whole(value) {
        Some(_) => Ok(()),
        None => Err(Problem::refused_at(line, Refusal::Numeral)),
    }
}

fn check_float<'a>(value: &'a [u8], line: Line<'a>) -> Result<(), Problem<'a>> {
    match decimals::read_decimal(value) {
        Ok(_) => Ok(()),
        Err(refusal) => Err(Problem::refused_at(line, refusal)),
    }
}

fn check_width<'a>(value: &'a [u8], line: Line<'a>) -> Result<(), Problem<'a>> {
    match site::read_width(value) {
        Some(_) => Ok(()),
        None => Err(Problem::wrong(line, Fault::NoWidth, value)),
    }
}

fn check_peer<'a>(peer: PeerText<'a>, line: Line<'a>) -> Result<(), Problem<'a>> {
    check_number(peer.number(), line)?;
    if let Some(word) = peer.stranger() {
        return Err(Problem::wrong(line, Fault::Unexpected, word));
    }
    if !peer.is_silent() {
        return check_values(peer, line);
    }
    match peer.value(Name::InFlight) {
        None => Ok(()),
        Some(value) => check_number(value, line),
    }
}

// The values of a heard peer.
fn check_values<'a>(peer: PeerText<'a>, line: Line<'a>) -> Result<(), Problem<'a>> {
    for name in [Name::Slope, Name::Delay, Name::Jitter] {
        check_float(value(peer, name, line)?, line)?;
    }
    check_number(value(peer, Name::InFlight, line)?, line)?;
    check_float(value(peer, Name::Downtime, line)?, line)
}

fn value<'a>(peer: PeerText<'a>, name: Name, line: Line<'a>) -> Result<&'a [u8], Problem<'a>> {
    match peer.value(name) {
        Some(value) => Ok(value),
        None => Err(Problem::wrong(line, Fault::Missing(name), b"")),
    }
}

// Checks that no peer's number is at or above n.
pub fn check_peers(description: Description<'_>, n: usize) -> Result<(), Problem<'_>> {
    match description.first_peer(n as u64..=u64::MAX) {
        None => Ok(()),
        Some(line) => Err(Problem::refused_at(line, Refusal::Replica)),
    }
}

// ---- what is missing

// Whether every key is there, and a line for every peer but our own, which needs none.
pub fn is_complete(description: Description<'_>) -> bool {
    let own = description.number_of(Key::Own);
    Key::ONCE.iter().all(|key| has(description, *key))
        && peers(description).all(|p| p == own || description.peer(p).is_some())
}

// Prints each key and each peer that is missing.
pub fn print_missing(rt: &impl Print, description: Description<'_>) -> io::Result<()> {
    print_incomplete(rt, description)?;
    Ok(())
}

// The same, and whether nothing is missing: each is looked up once.
pub fn print_incomplete(rt: &impl Print, description: Description<'_>) -> io::Result<bool> {
    let mut complete = true;
    for key in Key::ONCE {
        if !has(description, key) {
            println!(rt; "missing: {key}")?;
            complete = false;
        }
    }
    let own = description.number_of(Key::Own);
    for p in peers(description) {
        if p != own && description.peer(p).is_none() {
            println!(rt; "missing: peer {p}")?;
            complete = false;
        }
    }
    Ok(complete)
}

fn has(description: Description<'_>, key: Key) -> bool {
    description.first(key).is_some()
}

// The replicas to look for; none where the population or our own number is missing, or the population is too large.
fn peers(description: Description<'_>) -> Range<u64> {
    let n = description.number_of(Key::Population);
    if !has(description, Key::Own) || 16 < n {
        return 0..0;
    }
    0..n
}

// ---- refusals

// The line that a refusal concerns.
fn concerned(description: Description<'_>, refusal: Refusal) -> Option<Line<'_>> {
    match refusal {
        Refusal::Population => description.first(Key::Population),
        Refusal::Tolerance => description.first(Key::Tolerance),
        Refusal::Replica => description.first(Key::Own),
        Refusal::Shards => of_shards(description),
        Refusal::Quorum => description.first(Key::Quorum),
        Refusal::Bytes => of_bytes(description),
        Refusal::Text
        | Refusal::Numeral
        | Refusal::Digits
        | Refusal::Member
        | Refusal::Mechanism
        | Refusal::Probabilities
        | Refusal::Domains
        | Refusal::EveryReplica => description.first(Key::Profile),
        _ => None,
    }
}

// The data shards, unless they are within bounds by themselves.
fn of_shards(description: Description<'_>) -> Option<Line<'_>> {
    let d = description.number_of(Key::DataShards) as usize;
    if refusals::is_shards(d, d) {
        description.first(Key::Width)
    } else {
        description.first(Key::DataShards)
    }
}

// The size, unless it is within bounds; then the first peer to which too much is in flight.
fn of_bytes(description: Description<'_>) -> Option<Line<'_>> {
    if !refusals::is_size(description.number_of(Key::Size)) {
        return description.first(Key::Size);
    }
    let own = description.number_of(Key::Own);
    let p = (0..15)
        .find(|p| *p != own && is_overfull(description, *p))
        .unwrap_or(15);
    description.first_peer(p..=p)
}

fn is_overfull(description: Description<'_>, p: u64) -> bool {
    let bytes = description.peer(p).map_or(0, PeerText::in_flight);
    !refusals::is_in_flight(bytes)
}

// What a refusal means for a description.
#[derive(Clone, Copy)]
struct Meaning(Refusal);

impl fmt::Display for Meaning {
    fn fmt<W: fmt::Write>(&self, f: &mut fmt::Formatter<W>) -> fmt::Result {
        f.write_str(match self.0 {
            Refusal::Population => "the population is not 1 to 16",
            Refusal::Tolerance => "the tolerance is not 0 to the population less 1",
            Refusal::Replica => "a replica's number is not below the population",
            Refusal::Shards =>
                "the data shards are not 1 to 255, or the width is not between them and 255",
            Refusal::Quorum => "the quorum is not 1 to the population",
            Refusal::Text => "the profile is longer than 4096 bytes, or has a byte above 127",
            Refusal::Numeral => "a malformed number, or one above 255 in the profile",
            Refusal::Digits => {
                "a decimal of more than 15 digits, more than 4 in its exponent, or a power of ten outside -22 to 22"
            }
            Refusal::Member => "a replica's number in the profile is not below the population",
            Refusal::Mechanism => "the profile has an unknown mechanism",
            Refusal::Probabilities => {
                "the probabilities are not one for each replica, each 0 to 1, with a threshold above 0 and at most 1"
            }
            Refusal::Domains => "the profile has more than 64 domains",
            Refusal::Bytes =>
                "the size is above 2^30 bytes, or more than 2^40 are in flight to a peer",
            Refusal::EveryReplica => "the profile has all replicas fail together",
            _ => "no plan can be made",
        })
    }
}
