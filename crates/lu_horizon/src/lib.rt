//! How far ahead the moves of threads are certain.
//!
//! From some places of an operation a thread makes its next moves whatever it reads and whatever
//! the other threads do: each of them is there, and leaves no choice. A move is a call or an
//! instruction, and the local instructions that run with it. A [`Horizon`] has for each call of a
//! matrix and each place of its operation such a number of moves, and whether the thread is over
//! after them. Where that many are left to a bound, or the thread is over, and all threads
//! together have more moves than are left, no schedule ends within the bound: [`Horizon::caps`]
//! says how many moves each thread can make.
#![tactic(auto)]

mod certain;
mod code;
mod dead_registers;
mod horizon;
mod live_thread;
mod outlook;
mod sharers;
mod stand;

pub use code::code_of;
pub use dead_registers::DeadRegisters;
pub use horizon::Horizon;
pub use sharers::Sharers;
pub use stand::{CallPlace, is_unseen_at, only_reads_at, stand_at};
