//! What a replay shows.

use lu_history::History;
use lu_machine::Status;

/// What a schedule shows: the history of its run, and how the state stands that it leads to.
#[derive(Drop)]
pub struct Replay {
    pub history: History,
    pub status: Status,
}
