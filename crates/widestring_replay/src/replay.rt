//! Runs the cases of all groups, and counts the results.
use crate::Suite;
use crate::parse::{Memory, NoAnswer};
use crate::show::Answer;
use std::alloc::{AllocError, Global};
use std::process::ExitCode;
use std::{fmt, fs, io};
use widestring_testing::Limited;

// Where the crate is wrong: the fault's name, and the crate's own answer.
#[derive(Clone, Copy)]
struct Mended<'a> {
    fault: &'a str,
    own: &'a str,
}

// A case: a list, a question about it, and the right answer.
#[derive(Drop)]
struct Case<'a> {
    list: &'a str,
    question: &'a str,
    expected: &'a str,
    repaired: Option<Mended<'a>>,
}

// Parses a case about a list. Returns `None` if it is not one.
fn parse_case<'a>(list: &'a str, text: &'a str) -> Option<Case<'a>> {
    let (question, answer) = text.split_once('=')?;
    let Some((expected, repaired)) = answer.split_once('~') else {
        return Some(Case {
            list,
            question,
            expected: answer,
            repaired: None,
        });
    };
    let (fault, own) = repaired.split_once('~')?;
    Some(Case {
        list,
        question,
        expected,
        repaired: Some(Mended { fault, own }),
    })
}

// Returns whether a group has corrected answers about this fault of the crate.
fn is_about(faults: &[(&'static str, &'static str)], group: &str, fault: &str) -> bool {
    for index in 0..faults.len() {
        let (name, known) = faults[index];
        if name == group && known == fault {
            return true;
        }
    }
    false
}

// Returns the library's answer to a case.
fn answered<S: Suite>(memory: Memory<'_>, group: &str, case: &Case) -> Result<String, NoAnswer> {
    let mut answer = Answer::new(memory.alloc);
    S::answer(memory, &mut answer, group, case.list, case.question);
    answer.finish()
}

// The state of a group's run.
#[derive(Drop)]
struct Replay {
    group: &'static str,
    agree: u64,
    repaired: u64,
    differ: u64,
    first: Option<String>,
}

impl Replay {
    // Creates the state before the first line.
    fn new(group: &'static str) -> Replay {
        Replay {
            group,
            agree: 0,
            repaired: 0,
            differ: 0,
            first: None,
        }
    }

    // Runs each case of a line. A line without one is a difference.
    fn line<S: Suite>(&mut self, memory: Memory<'_>, line: &str) -> Result<(), AllocError> {
        let Some((list, cases)) = line.split_once('|') else {
            return self.unparsed(memory.alloc, line, "");
        };
        for text in cases.split('|') {
            match parse_case(list, text) {
                Some(case) => self.case::<S>(memory, &case)?,
                None => self.unparsed(memory.alloc, list, text)?,
            }
        }
        Ok(())
    }

    // Runs a case with ample memory, and then with each request of the library's calls failing in turn.
    fn case<S: Suite>(&mut self, memory: Memory<'_>, case: &Case) -> Result<(), AllocError> {
        let alloc = memory.alloc;
        memory.heap.set(u64::MAX);
        match answered::<S>(memory, self.group, case) {
            Ok(got) => {
                let requests = u64::MAX - memory.heap.left();
                if self.reports_failures::<S>(memory, case, requests) {
                    self.compare::<S>(alloc, case, got.as_str())
                } else {
                    self.different(alloc, case, "no allocation failure")
                }
            }
            Err(NoAnswer::Unparsed) => self.unparsed(alloc, case.list, case.question),
            Err(NoAnswer::OutOfMemory) => Err(AllocError),
        }
    }

    // Returns whether a case fails with an allocation failure, at exactly that request, if only 0, 1, .. `requests` - 1
    // requests are granted.
    fn reports_failures<S: Suite>(&self, memory: Memory<'_>, case: &Case, requests: u64) -> bool {
        let heap = memory.heap;
        for granted in 0..requests {
            heap.set(granted);
            match answered::<S>(memory, self.group, case) {
                Err(NoAnswer::OutOfMemory) if heap.failed_one() => {}
                _ => return false,
            }
        }
        true
    }

    // Compares an answer with the right one.
    fn compare<S: Suite>(
        &mut self,
        alloc: Global,
        case: &Case,
        got: &str,
    ) -> Result<(), AllocError> {
        if got != case.expected {
            return self.different(alloc, case, got);
        }
        let Some(repaired) = case.repaired else {
            self.agree = self.agree.saturating_add(1);
            return Ok(());
        };
        if !is_about(S::faults(), self.group, repaired.fault) || repaired.own == case.expected {
            return self.unparsed(alloc, case.list, repaired.fault);
        }
        self.repaired = self.repaired.saturating_add(1);
        Ok(())
    }

    // Counts a case for which the library's answer differs.
    fn different(&mut self, alloc: Global, case: &Case, got: &str) -> Result<(), AllocError> {
        self.differ = self.differ.saturating_add(1);
        if self.first.is_none() {
            let name = self.group;
            let list = case.list;
            let question = case.question;
            let expected = case.expected;
            self.first = Some(format!(in alloc;
                "{name} [{list}] {question}: expected {expected}, got {got}"
            )?);
        }
        Ok(())
    }

    // Counts a text of the data that can't be parsed.
    fn unparsed(&mut self, alloc: Global, list: &str, text: &str) -> Result<(), AllocError> {
        self.differ = self.differ.saturating_add(1);
        if self.first.is_none() {
            let name = self.group;
            self.first = Some(format!(in alloc; "{name} [{list}]: not parsed: {text}")?);
        }
        Ok(())
    }
}

impl fmt::Display for Replay {
    fn fmt<W: fmt::Write>(&self, f: &mut fmt::Formatter<W>) -> fmt::Result {
        let name = self.group;
        let agree = self.agree;
        let repaired = self.repaired;
        let differ = self.differ;
        write!(
            f,
            "{name}: {agree} agree, {repaired} mended, {differ} differ"
        )
    }
}

// Runs a group of cases, prints its line, and returns its first difference, if there is one.
fn run_group<S: Suite>(rt: &HostRuntime, group: &'static str) -> io::Result<Option<String>> {
    let path = format!(in rt.alloc(); "{group}.txt")?;
    let Ok(text) = fs::read_to_string(rt, path.as_str()) else {
        println!(rt; "{group}: not read")?;
        return Ok(Some(format!(in rt.alloc(); "{path} can't be read")?));
    };
    let heap = Limited::new(rt.alloc());
    let memory = Memory {
        heap: &heap,
        alloc: rt.alloc(),
    };
    let mut replay = Replay::new(group);
    for line in text.lines() {
        replay.line::<S>(memory, line)?;
    }
    println!(rt; "{replay}")?;
    Ok(replay.first)
}

// Runs all groups, and returns whether no case differs.
fn run_groups<S: Suite>(rt: &HostRuntime) -> io::Result<bool> {
    let mut first = None;
    for group in S::groups() {
        let found = run_group::<S>(rt, group)?;
        first = first.or(found);
    }
    match first {
        None => Ok(true),
        Some(text) => {
            println!(rt; "first difference: {text}")?;
            Ok(false)
        }
    }
}

/// Runs the cases of all groups, each of which is a file in the working directory, and returns the program's status.
///
/// Prints a line for each group: how many cases agree with the crate, how many agree with a corrected answer and how
/// many differ. Then prints the first difference of all. The status is 1 if a case differs, a line can't be parsed or a
/// file can't be read, and else 0.
pub fn run<S: Suite>(rt: &HostRuntime) -> ExitCode {
    match run_groups::<S>(rt) {
        Ok(true) => ExitCode::SUCCESS,
        _ => ExitCode::FAILURE,
    }
}
