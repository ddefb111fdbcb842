//! Tests of serial runs, of the witness search and the memory of its verdicts, and of the tree of
//! schedules.
#![tactic(auto)]

#[cfg(test)]
mod caches;
#[cfg(test)]
mod countings;
#[cfg(test)]
mod graphs;
#[cfg(test)]
mod serial_runs;
#[cfg(test)]
mod trails;
#[cfg(test)]
mod trees;
#[cfg(test)]
mod watches;
#[cfg(test)]
mod witnesses;
