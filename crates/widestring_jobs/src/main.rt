//! Runs jobs that users of the library wait for, and prints a digest of all their results: `JOB ROUNDS DIVISOR SEED`.
//! The job is `export`, `table`, `edits`, `searches`, `builds` or `prints`, or `all` of them in this order. Each seed
//! makes other inputs of the same kinds and sizes, and each round new ones. The divisor is 1 for inputs of their usual
//! sizes, and more for smaller ones. The status is 2 for a usage error.
#![tactic(auto)]

mod builds;
mod digest;
mod edits;
mod export;
mod prints;
mod random;
mod searches;
mod table;
mod texts;

use digest::Digest;
use std::alloc::Global;
use std::fmt::Write;
use std::process::ExitCode;
use std::{env, io};
use texts::{Words, granted};
use widestring::error::OutOfMemory;

const USAGE: &str = "usage: jobs JOB ROUNDS DIVISOR SEED";

static JOBS: [&str; 6] = ["export", "table", "edits", "searches", "builds", "prints"];

// Runs a job, and prints nothing. A name that is no job does nothing.
fn run_job(
    words: &mut Words,
    job: &str,
    rounds: u64,
    digest: &mut Digest,
) -> Result<(), OutOfMemory> {
    match job {
        "export" => export::run(words, rounds, digest),
        "table" => table::run(words, rounds, digest),
        "edits" => edits::run_edits(words, rounds, digest),
        "searches" => searches::run(words, rounds, digest),
        "builds" => builds::run(words, rounds, digest),
        "prints" => prints::run(words, rounds, digest),
        _ => Ok(()),
    }
}

// Which jobs to run, how often, and on which inputs.
#[derive(Clone, Copy)]
struct Order<'a> {
    alloc: Global,
    name: &'a str,
    rounds: u64,
    divisor: usize,
    seed: u64,
}

// Returns the digest of a job with a vocabulary of its own.
fn digest_of(order: Order<'_>, job: &str) -> Result<u64, OutOfMemory> {
    let mut digest = Digest::new();
    let mut words = Words::new(order.alloc, order.divisor, order.seed)?;
    match run_job(&mut words, job, order.rounds, &mut digest) {
        Ok(()) => Ok(digest.value()),
        Err(OutOfMemory) => Err(OutOfMemory),
    }
}

// Runs a job and appends a line, if the order names the job or all of them.
fn run_if_named(order: Order<'_>, job: &str, lines: &mut String) -> Result<(), OutOfMemory> {
    if order.name == job || order.name == "all" {
        let value = digest_of(order, job)?;
        return granted(writeln!(lines, "{job} {value:016x}"));
    }
    Ok(())
}

// Runs the jobs of an order, and appends a line for each.
fn run(order: Order<'_>, lines: &mut String) -> Result<(), OutOfMemory> {
    for job in &JOBS {
        run_if_named(order, job, lines)?;
    }
    Ok(())
}

// Returns the order that the arguments give, or `None` if they give none.
fn order_of<'a>(alloc: Global, words: &'a [String]) -> Option<Order<'a>> {
    let [name, rounds, divisor, seed, ..] = words else {
        return None;
    };
    Some(Order {
        alloc,
        name,
        rounds: rounds.parse().ok()?,
        divisor: divisor.parse().ok()?,
        seed: seed.parse().ok()?,
    })
}

fn main(rt: HostRuntime) -> io::Result<ExitCode> {
    let words: Vec<String> = env::args(&rt)?.skip(1).collect(rt.alloc())?;
    let Some(order) = order_of(rt.alloc(), &words) else {
        eprintln!(rt; "{USAGE}")?;
        return Ok(ExitCode::from(2));
    };
    let mut lines = String::new(rt.alloc());
    run(order, &mut lines)?;
    print!(rt; "{lines}")?;
    Ok(ExitCode::SUCCESS)
}
