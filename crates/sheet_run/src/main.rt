// Runs the site sheet's lines on texts and on the bounds: a line for each, with the number that refuses or what was read.
#![tactic(auto)]

use layout::TotalShards;
use printed::{BestEffort, Bits, Shards};
use refusals::Refusal;
use rows::{Row, ShardSet};
use std::{fmt, io};

// A write that fails is passed over.
fn main(rt: HostRuntime) -> io::Result<()> {
    let out = BestEffort(&rt);
    for text in ["3", "1", "5", "256", " 3", "3:0", "0:"] {
        layout_text(&out, text)?;
    }
    bounds(&out)?;
    for text in [
        "probs:0.12345678901234",
        "probs:0.123456789012345",
        "probs:1e22",
        "probs:1e23",
    ] {
        profile(&out, text)?;
    }
    others(&out)
}

// Texts that the sheet does not have.
fn others(out: &impl Print) -> io::Result<()> {
    for text in ["", "0:0,1/1:2/0:5"] {
        layout_text(out, text)?;
    }
    for text in [
        "probs:1e-3@1",
        "probs:x@1e23",
        "none; runtime:x",
        "domains:0/1",
        "unknown",
    ] {
        profile(out, text)?;
    }
    Ok(())
}

// A layout text of 3 replicas, 6 shards in all and 4 data shards.
fn layout_text(out: &impl Print, text: &str) -> io::Result<()> {
    let mut rows = [0u64; 12];
    initial(out, 3, 6, 4, text, &mut rows)
}

// n 16 and 17, w 255 and 256: the width of a layout text, which is exact, and a ceiling.
fn bounds(out: &impl Print) -> io::Result<()> {
    let mut sixteen = [0u64; 64];
    let mut seventeen = [0u64; 68];
    let mut fifteen = [0u64; 60];
    initial(out, 16, 64, 4, "", &mut sixteen)?;
    initial(out, 17, 34, 4, "", &mut seventeen)?;
    initial(out, 15, 255, 4, "", &mut fifteen)?;
    initial(out, 16, 256, 4, "", &mut sixteen)?;
    laid(out, 5, 64, [4; 16], &mut sixteen)?;
    laid(out, 5, 64, [4; 17], &mut seventeen)?;
    laid(out, 17, 255, [16; 16], &mut sixteen)?;
    laid(out, 17, 256, [16; 16], &mut sixteen)
}

// A layout text: the rows.
fn initial(
    out: &impl Print,
    n: usize,
    total: usize,
    d: usize,
    text: &str,
    rows: &mut [u64],
) -> io::Result<()> {
    print!(out; "n {n}, total {total}, d {d}, `{text}`: ")?;
    match layout_text::parse_init_assignment(n, d, total, text.as_bytes(), rows) {
        Err(refusal) => refused(out, refusal),
        Ok(()) => println!(out; "{}", Rows(rows)),
    }
}

// A layout of loads, of which the first is named, under a ceiling: the width and the rows.
fn laid<const N: usize>(
    out: &impl Print,
    d: usize,
    ceiling: usize,
    loads: [usize; N],
    rows: &mut [u64],
) -> io::Result<()> {
    let load = loads.first().copied().unwrap_or(0);
    print!(out; "n {N}, d {d}, loads of {load}, ceiling {ceiling}: ")?;
    match layout::layout_rows(N, d, TotalShards::AtMost(ceiling), &loads, rows) {
        Err(refusal) => refused(out, refusal),
        Ok(width) => println!(out; "w {width}; rows {}", Rows(rows)),
    }
}

// A profile's text of 1 replica: how many domains, how many probabilities, the first of these and the threshold.
fn profile(out: &impl Print, text: &str) -> io::Result<()> {
    print!(out; "n 1, `{text}`: ")?;
    match profile_text::parse_profile(1, text.as_bytes()) {
        Err(refusal) => refused(out, refusal),
        Ok(profile) => {
            println!(out;
                "domains {}, probabilities {}, the first {}, threshold {}",
                profile.domain_count,
                profile.prob_count,
                Bits(profile.probs[0]),
                Bits(profile.threshold)
            )
        }
    }
}

fn refused(out: &impl Print, refusal: Refusal) -> io::Result<()> {
    println!(out; "refused {}", refusal.number())
}

// The shards of each row of a table.
#[derive(Clone, Copy)]
struct Rows<'a>(&'a [u64]);

impl fmt::Display for Rows<'_> {
    fn fmt<W: fmt::Write>(&self, f: &mut fmt::Formatter<W>) -> fmt::Result {
        let rows = self.0;
        for s in 0..rows.len() / 4 {
            let separator = if s == 0 { "" } else { "; " };
            write!(f, "{separator}{}", Shards(Row::read_row(rows, s)))?;
        }
        Ok(())
    }
}
