//! Serial histories, as they are read.

ghost use Rattle.std.specs.Prelude.{◌≡◌, length};
ghost use Rattle.lu_witness.specs.Witnesses.{entries};
ghost use Rattle.lu_graph.specs.Judging.{FindsEntry};

use lu_history::SerialOp;

/// How many operations of the thread there are.
pub(crate) fn count(history: &[SerialOp], thread: u8) -> usize
    ensures { result ≡ length (entries thread history.now) }
{
    let mut count = 0;
    for op in history {
        if op.thread == thread {
            count += 1;
        }
    }
    count
}

/// The position of the thread's operation of this number, from 0.
pub(crate) fn position_of(history: &[SerialOp], thread: u8, number: usize) -> Option<usize>
    ensures { FindsEntry history.now thread number result }
{
    let mut seen = 0;
    for position in 0..history.len() {
        if history[position].thread == thread {
            if seen == number {
                return Some(position);
            }
            seen += 1;
        }
    }
    None
}
