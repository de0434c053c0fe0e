// Replays the stored answers, a file for each entry: prints how many lines are answered as they say, or the first that is not.
#![tactic(auto)]

mod replay; // replay.rt: whether an entry answers a line as it says

use printed::BestEffort;
use std::alloc::{AllocError, Global};
use std::fs::File;
use std::io::Read;
use std::rt::Files;
use std::{fmt, io};
use stored::Line;

// The most bytes of a block, and the most blocks of a file.
const BLOCK: usize = 65536;

const BLOCKS: usize = 100;

// The most numbers of a line that are read; the others are cut.
const MOST_NUMBERS: usize = 512;

// A read that fails ends it with that error; a write that fails is passed over.
fn main(rt: HostRuntime) -> io::Result<()> {
    let alloc = rt.alloc();
    let out = BestEffort(&rt);
    file(&rt, &out, alloc, "profile", replay::is_profile)?;
    file(&rt, &out, alloc, "unreliability", replay::is_unreliability)?;
    file(&rt, &out, alloc, "faults", replay::is_faults)?;
    file(&rt, &out, alloc, "covers", replay::is_covers)?;
    file(&rt, &out, alloc, "united", replay::is_united)?;
    file(&rt, &out, alloc, "survived", replay::is_survived)?;
    file(&rt, &out, alloc, "layout", replay::is_layout)?;
    file(&rt, &out, alloc, "commits", replay::is_commits)?;
    file(&rt, &out, alloc, "plan", replay::is_plan)?;
    file(&rt, &out, alloc, "full", replay::is_full)?;
    file(&rt, &out, alloc, "floor", replay::is_floor)?;
    file(&rt, &out, alloc, "policy", replay::is_policy)?;
    file(&rt, &out, alloc, "init", replay::is_init)?;
    file(&rt, &out, alloc, "base_init", replay::is_base_init)?;
    file(&rt, &out, alloc, "gossip", replay::is_gossip)?;
    file(&rt, &out, alloc, "tally", replay::is_tally)
}

// What became of the lines of a file, which are counted from 1, without the empty ones that pad a block.
#[derive(Clone, Copy)]
enum Outcome {
    Equal(u64),
    Differs(u64),
    TooLong,
}

impl fmt::Display for Outcome {
    fn fmt<W: fmt::Write>(&self, f: &mut fmt::Formatter<W>) -> fmt::Result {
        match *self {
            Outcome::Equal(count) => write!(f, "{count} lines equal"),
            Outcome::Differs(line) => write!(f, "line {line} differs"),
            Outcome::TooLong => write!(f, "too long"),
        }
    }
}

// Replays a file by the function that says whether an entry answers a line as it says.
fn file<F: Fn(Global, Line) -> Result<bool, AllocError>>(
    rt: &impl Files,
    out: &impl Print,
    alloc: Global,
    name: &str,
    is_answered: F,
) -> io::Result<()>
    requires { F.IsAlwaysCallable is_answered }
{
    print!(out; "{name}")?;
    match File::open(rt, name) {
        Err(_) => println!(out; ": no such file"),
        Ok(mut file) => {
            let outcome = blocks(alloc, &mut file, is_answered)?;
            println!(out; ": {outcome}")
        }
    }
}

// A file, block by block. No line crosses the end of a block.
fn blocks<F: Fn(Global, Line) -> Result<bool, AllocError>>(
    alloc: Global,
    file: &mut impl Read,
    is_answered: F,
) -> io::Result<Outcome>
    requires { F.IsAlwaysCallable is_answered }
{
    let mut count: u64 = 0;
    for _ in 0..BLOCKS {
        let mut block = Vec::new(alloc);
        let read = file.take(BLOCK as u64).read_to_end(&mut block)?;
        for line in block.split(|b| *b == b'\n') {
            if line.is_empty() {
                continue;
            }
            count = count.wrapping_add(1);
            let numbers: Vec<u64> = line
                .split(|b| *b == b' ')
                .take(MOST_NUMBERS)
                .map(stored::number)
                .collect(alloc)?;
            if !is_answered(alloc, Line(&numbers))? {
                return Ok(Outcome::Differs(count));
            }
        }
        if read < BLOCK {
            return Ok(Outcome::Equal(count));
        }
    }
    Ok(Outcome::TooLong)
}
