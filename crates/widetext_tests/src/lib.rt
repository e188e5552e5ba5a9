//! Tests of the programs that can't be written as cases in `cases.jsonl`: runs over devices in memory, complete ones,
//! slow ones, and ones that fail at a call.
#![tactic(auto)]

#[cfg(test)]
mod argument_cases;
#[cfg(test)]
mod driver;
#[cfg(test)]
mod fault_cases;
#[cfg(test)]
mod line_cases;
#[cfg(test)]
mod long_cases;
#[cfg(test)]
mod memory_cases;
#[cfg(test)]
mod utf8_cases;
