// Plans for the site that standard input describes, or for each file that is named (`-` is standard input). crates/site has the form.
#![tactic(auto)]

mod plan;
mod print;

use printed::BestEffort;
use site::Description;
use std::env::FillError;
use std::fs::File;
use std::io::{Read, Result};
use std::rt::{Env, Files};

// The most bytes of a description, and one more.
const TOO_LONG: usize = 65536;

// A read that fails ends it with that error; a write that fails is passed over.
fn main(rt: HostRuntime) -> Result<()> {
    let out = BestEffort(&rt);
    if !named(&rt, &out, 1)? {
        return describe(&rt, &out, rt.reader());
    }
    for i in 2..usize::MAX {
        if !named(&rt, &out, i)? {
            break;
        }
    }
    Ok(())
}

// The site of an argument, and whether there is one. A name that is longer than the buffer is no file's, and is not printed.
fn named(rt: &(impl Env + Files + Input + Alloc), out: &impl Print, i: usize) -> Result<bool> {
    // Kept as it is: a vector is no plainer, since std fills a lent buffer and answers the length.
    let mut path = [0u8; 4096];
    match rt.arg(i, &mut path) {
        Err(FillError::NotPresent) => return Ok(false),
        Err(FillError::TooLong) => of_file(rt, out, b"")?,
        Ok(k) => of_file(rt, out, &path[..k])?,
    }
    Ok(true)
}

fn of_file(rt: &(impl Files + Input + Alloc), out: &impl Print, path: &[u8]) -> Result<()> {
    print!(out; "== ")?;
    out.write_all(path)?;
    println!(out; "")?;
    if matches!(path, b"-") {
        return describe(rt, out, rt.reader());
    }
    match opened(rt, path) {
        None => println!(out; "no such file"),
        Some(file) => describe(rt, out, file),
    }
}

// The file of this name, if it can be opened: std opens none whose name is not UTF-8.
fn opened<R: Files>(rt: &R, path: &[u8]) -> Option<R::File> {
    let name = str::from_utf8(path).ok()?;
    File::open(rt, name).ok()
}

fn describe(rt: &impl Alloc, out: &impl Print, from: impl Read + Drop) -> Result<()> {
    let mut text = Vec::new(rt.alloc());
    let k = from.take(TOO_LONG as u64).read_to_end(&mut text)?;
    if k == TOO_LONG {
        return println!(out; "the description is longer than 65535 bytes");
    }
    plan::plan(out, Description(&text))
}
