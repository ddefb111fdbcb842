//! Whether histories are those of a matrix.

ghost use Rattle.std.specs.Prelude.{◌≡◌, ◌↔◌, ◌^◌, ◌<◌, ℕ, IsTrue, length, slice_index_or};
ghost use Rattle.lu_test.specs.Matrix.{calls_of};
ghost use Rattle.lu_spec.specs.Specs.{AllFitIn, FitsIn};
ghost use Rattle.lu_test.specs.declared.matrix.TheConstants.{MOST_THREADS};

use lu_history::SerialOp;
use lu_test::{MOST_THREADS, Matrix};
use lu_trie::SerialTree;

/// How many calls each thread has.
pub(crate) fn calls_of(matrix: &Matrix) -> [u8; MOST_THREADS]
    ensures size { length result ≡ MOST_THREADS }
    ensures calls { (t : ℕ) → slice_index_or result t 0 ≡ length (calls_of matrix.now t) }
{
    let mut calls = [0; MOST_THREADS];
    for t in 0..matrix.threads() {
        calls[usize::from(t)] = matrix.calls(t);
    }
    calls
}

/// Whether each history below the place has at most this many operations of each thread.
pub(crate) fn all_fit<T: SerialTree>(tree: &T, place: T::Place, left: [u8; MOST_THREADS]) -> bool
    requires place { T.is_place tree.now place }
    requires size { length left ≡ MOST_THREADS }
    ensures { IsTrue result ↔ AllFitIn left (T.below tree.now place) }
{
    for i in 0..tree.kid_count(place) {
        let (op, below) = tree.kid(place, i);
        let thread = usize::from(op.thread);
        if thread >= MOST_THREADS || left[thread] == 0 {
            return false;
        }
        let mut others = left;
        others[thread] -= 1;
        if !all_fit(tree, below, others) {
            return false;
        }
    }
    true
}

/// Whether a history has at most this many operations of each thread.
pub(crate) fn fits_in(history: &[SerialOp], left: [u8; MOST_THREADS]) -> bool
    requires { length left ≡ MOST_THREADS }
    ensures { IsTrue result ↔ FitsIn left history.now }
{
    match history {
        [] => true,
        [op, rest @ ..] => {
            let thread = usize::from(op.thread);
            if thread >= MOST_THREADS || left[thread] == 0 {
                return false;
            }
            let mut others = left;
            others[thread] -= 1;
            fits_in(rest, others)
        }
    }
}
