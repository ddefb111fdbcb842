//! Every fault of a source, and what is odd in one without faults.
#![tactic(auto)]

mod calls;
mod faults;
mod foreign;
mod foreign_table;
mod forming;
mod keyword;
mod limit;
mod meaning;
mod message;
mod naming;
mod operand;
mod saying;
mod scope;
mod spelling;
mod warnings;

pub use faults::faults_of;
pub use message::{SourceMessage, Warning, What};
pub use saying::wording;
pub use spelling::is_near;
pub use warnings::warnings_of;
