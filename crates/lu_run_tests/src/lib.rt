//! Tests of the judge of runs.
#![tactic(auto)]

#[cfg(test)]
mod runs;
#[cfg(test)]
mod texts;
