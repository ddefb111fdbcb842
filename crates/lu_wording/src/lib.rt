//! The words of lint's messages, and of what is added to an answer on standard error.
#![tactic(auto)]

mod bundle;
mod component;
mod hint;
mod history;
mod matrix;
mod run;
mod shape;
mod spelling;
mod third;
mod warning;
mod wording;

pub use hint::hint_on;
pub use wording::Words;
