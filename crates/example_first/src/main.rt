//! Prints the lines of a UTF-16 file that contain a word, each with its number.
#![tactic(auto)]

use std::process::ExitCode;
use std::{env, fs, io};
use widestring::bytes::utf16_of_bytes;
use widestring::{U16Str, U16String};

fn main(rt: HostRuntime) -> io::Result<ExitCode> {
    let mut args = env::args(&rt)?.skip(1);
    let (Some(path), Some(word)) = (args.next(), args.next()) else {
        eprintln!(rt; "usage: first FILE WORD")?;
        return Ok(ExitCode::from(2));
    };
    let bytes = fs::read(&rt, path)?;
    let file = utf16_of_bytes(&bytes);
    if file.half.is_some() {
        eprintln!(rt; "half of a unit is left at the end")?;
    }
    let units: Vec<u16> = file.units.collect(rt.alloc())?;
    let needle = U16String::from_str(rt.alloc(), &word)?;
    for (number, line) in U16Str::from_slice(&units).lines_lossy().enumerate() {
        if line.contains(needle.as_ustr()) {
            println!(rt; "{}: {}", number + 1, line.display())?;
        }
    }
    Ok(ExitCode::SUCCESS)
}
