//! Tests of `wideconv_command` that `cases.jsonl` cannot express: devices in memory that are slow or fail.
#![tactic(auto)]

#[cfg(test)]
mod device_cases;
