//! Tables of the serial histories of all matrices that are unrolled from one.
#![tactic(auto)]

mod asking;
mod finding;
mod rounds;
mod stage;
mod stop;
mod table;

pub use finding::{Tabled, find_table};
pub use rounds::Rounds;
pub use table::AnswerTable;
