//! Tests of what the searches stand on: texts, the step machine, and histories and sets of them.
#![tactic(auto)]

#[cfg(test)]
mod components;
#[cfg(test)]
mod histories;
#[cfg(test)]
mod machines;
#[cfg(test)]
mod matrices;
#[cfg(test)]
mod short_memory;
#[cfg(test)]
mod texts;
#[cfg(test)]
mod tries;
