//! Choices of a number below each of some bases, counted and numbered.
//!
//! They stand in lexicographic order, where the first number weighs most: the number of a choice,
//! from 0, has its numbers as digits, each in its own base.
//!
//! ```text
//! let bases = [2, 3];
//! let count = count_choices(&bases); // 6
//! let choice = choice_at(&bases, 5); // 1, 2
//! ```
#![tactic(auto)]

mod choices;
pub mod laws;

pub use choices::{Choice, MOST_BASES, choice_at, count_choices};
