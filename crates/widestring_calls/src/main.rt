//! Makes one call again and again, for `bench/instructions`: `calls CALL WIDTH ROUNDS TEXT NEEDLE`. TEXT and NEEDLE are
//! files of little-endian units of WIDTH bits, 16 or 32. It prints the sum of what the calls returned, as a number
//! each. The status is 2 for a usage error, and for a call of another name.
#![tactic(auto)]

mod converting;
mod input;
mod searching;
mod sources;
mod strings;
mod walking;

use converting::Converting;
use input::{Call, Input, repeat, units16, units32};
use searching::Searching;
use sources::Sources;
use std::alloc::Global;
use std::process::ExitCode;
use std::{env, fs, io};
use strings::Strings;
use walking::Walking;
use widestring::error::{FaultUnit, OutOfMemory};

const USAGE: &str = "usage: calls CALL WIDTH ROUNDS TEXT NEEDLE";

// Makes the call of a name, if there is one, `rounds` times.
fn run<C: FaultUnit + Ord>(
    name: &str,
    rounds: u64,
    alloc: Global,
    units: &[C],
    needle: &[C],
) -> Result<Option<u64>, OutOfMemory> {
    if let Some(call) = Searching::named(name) {
        return Ok(Some(repeat(call, rounds, alloc, units, needle)?));
    }
    if let Some(call) = Walking::named(name) {
        return Ok(Some(repeat(call, rounds, alloc, units, needle)?));
    }
    if let Some(call) = Converting::named(name) {
        return Ok(Some(repeat(call, rounds, alloc, units, needle)?));
    }
    if let Some(call) = Strings::named(name) {
        return Ok(Some(repeat(call, rounds, alloc, units, needle)?));
    }
    if let Some(call) = Sources::named(name) {
        return Ok(Some(repeat(call, rounds, alloc, units, needle)?));
    }
    Ok(None)
}

// Makes the calls at one of the widths.
fn run_at(
    width: &str,
    name: &str,
    rounds: u64,
    alloc: Global,
    text: &[u8],
    needle: &[u8],
) -> Result<Option<u64>, OutOfMemory> {
    match width {
        "16" => run(
            name,
            rounds,
            alloc,
            &units16(alloc, text)?,
            &units16(alloc, needle)?,
        ),
        "32" => run(
            name,
            rounds,
            alloc,
            &units32(alloc, text)?,
            &units32(alloc, needle)?,
        ),
        _ => Ok(None),
    }
}

fn main(rt: HostRuntime) -> io::Result<ExitCode> {
    let mut arguments = env::args(&rt)?.skip(1);
    let (name, width, rounds) = (arguments.next(), arguments.next(), arguments.next());
    let (text, needle) = (arguments.next(), arguments.next());
    if let (Some(name), Some(width), Some(rounds), Some(text), Some(needle)) = (
        name, width, rounds, text, needle,
    )
        && let Ok(rounds) = rounds.parse::<u64>()
    {
        let text = fs::read(&rt, &text)?;
        let needle = fs::read(&rt, &needle)?;
        if let Some(sum) = run_at(&width, &name, rounds, rt.alloc(), &text, &needle)? {
            println!(rt; "{sum}")?;
            return Ok(ExitCode::SUCCESS);
        }
    }
    eprintln!(rt; "{USAGE}")?;
    Ok(ExitCode::from(2))
}
