//! Whether histories have their witnesses.

ghost use Rattle.lu_witness.specs.Witnesses.{IsMember, IsVerdict};

use crate::judgement::Verdict;
use crate::kept::Kept;
use crate::search::{has_witness, is_witnessed};
use lu_history::History;
use lu_trie::SerialTree;

/// Whether a history has its witnesses in the tree: the history itself where no call is pending,
/// and else, for each pending call, the history without the other pending calls. It takes no
/// memory.
pub fn verdict<T: SerialTree>(tree: &T, history: &History) -> Verdict
    ensures { IsVerdict (IsMember (T.members tree.now)) history.now result }
{
    let mut is_stuck = false;
    for t in 0..8 {
        if history.pending(t) {
            if !is_witnessed(tree, &Kept::alone(history, t)) {
                return Verdict::NoWitnessFor(t);
            }
            is_stuck = true;
        }
    }
    if is_stuck || has_witness(tree, history) {
        Verdict::Good
    } else {
        Verdict::NoWitness
    }
}
