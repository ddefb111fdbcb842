//! Laws of searches that make each call as late as they can.
//!
//! The call of an idle thread changes nothing that other threads see. So it can be made later, after
//! the moves of other threads and just before the next move of its own. The history then has the same
//! precedence or more, and no more witnesses. A search needs to make a call only together with the
//! first move of its operation.
#![tactic(auto)]

mod laws;

pub use laws::{last_call_laws, rest_law, step_laws};
