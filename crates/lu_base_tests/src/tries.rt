//! What no clause says: that calls succeed, and that the definitions mean what was meant.

ghost use Rattle.std.specs.Prelude.{◌≡◌, ◌≢◌, IfOk};
ghost use Rattle.lu_history.specs.declared.serial.SerialOutcome.TheVariants.{Ret, Stuck};
ghost use Rattle.lu_history.specs.Serial.{IsSerial};
ghost use Rattle.lu_trie.specs.Conflicts.{IsDeterministic};

use lu_history::{SerialOp, SerialOutcome};
use lu_trie::{PackedTrie, SerialTree, Trie};
use std::alloc::{AllocError, Global};
use std::process::Abort;
use std::test::Fail;

/// The thread's operation returns the number.
pub(crate) fn ret(thread: u8, number: u32) -> SerialOp
    ensures { result.outcome ≡ Ret number }
{
    SerialOp {
        thread,
        outcome: SerialOutcome::Ret(number),
    }
}

fn trap(thread: u8) -> SerialOp
    ensures { result.outcome ≢ Stuck }
{
    SerialOp {
        thread,
        outcome: SerialOutcome::Trap,
    }
}

fn stuck(thread: u8) -> SerialOp {
    SerialOp {
        thread,
        outcome: SerialOutcome::Stuck,
    }
}

/// Each inserted history is a member of its own, and no other one is: a history, a beginning of it,
/// the empty one, and the beginning again.
fn assert_inserts(rt: &impl Abort, set: &mut Trie<Global>) {
    let (first, second) = (ret(0, 1), ret(1, 2));
    assert!(rt; matches!(set.insert(&[first, second]), Ok(true)));
    assert!(rt; matches!(set.insert(&[first]), Ok(true)));
    assert!(rt; matches!(set.insert(&[]), Ok(true)));
    assert!(rt; matches!(set.insert(&[first]), Ok(false)));
    assert!(rt; set.len() == 3 && !set.is_empty());
    assert!(rt; set.contains(&[]) && set.contains(&[first]) && set.contains(&[first, second]));
    assert!(rt; !set.contains(&[second]) && !set.contains(&[first, first]));
}

#[test]
fn beginnings_are_members_of_their_own(rt: HostRuntime) {
    let mut set = Trie::new(rt.alloc());
    assert!(rt; !set.contains(&[]) && set.is_empty() && set.len() == 0);
    assert_inserts(&rt, &mut set);
}

/// Inserts the history where it conflicts with no member, and returns the conflict.
fn insert_free(
    set: &mut Trie<Global>,
    history: &[SerialOp],
) -> Result<Option<(usize, SerialOutcome)>, AllocError>
    requires serial { IsSerial history.now }
    requires deterministic { IsDeterministic set.old }
    ensures { IfOk result (λ _. IsDeterministic set.new) }
{
    let conflict = set.conflict(history);
    if conflict.is_none() {
        set.insert(history)?;
    }
    Ok(conflict)
}

/// Returns, traps and calls that are stuck conflict, at the first operation that differs.
fn assert_conflicts<R: AllocGlobal + Abort>(
    rt: &R,
    set: &mut Trie<Global>,
) -> Result<(), AllocError>
    requires { IsDeterministic set.old }
{
    let (first, second) = (ret(0, 1), ret(1, 2));
    assert!(rt; insert_free(set, &[first, second])?.is_none());
    assert!(rt; insert_free(set, &[first, ret(1, 3)])? == Some((1, SerialOutcome::Ret(2))));
    assert!(rt; insert_free(set, &[first, trap(1)])? == Some((1, SerialOutcome::Ret(2))));
    assert!(rt; insert_free(set, &[stuck(0)])? == Some((0, SerialOutcome::Ret(1))));
    assert!(rt; insert_free(set, &[second, stuck(0)])?.is_none());
    assert!(rt; insert_free(set, &[second, first])? == Some((1, SerialOutcome::Stuck)));
    assert!(rt; insert_free(set, &[first])?.is_none());
    Ok(())
}

#[test]
fn conflicts_are_found(rt: HostRuntime) -> Result<(), Fail> {
    let mut set = Trie::new(rt.alloc());
    assert_conflicts(&rt, &mut set)?;
    Ok(())
}

/// The last kid of the root: its label, and whether the label alone is a member.
fn last_kid<T: SerialTree>(tree: &T) -> Option<(SerialOp, bool)> {
    let root = tree.root();
    let kids = tree.kid_count(root);
    if kids == 0 {
        return None;
    }
    let (label, below) = tree.kid(root, kids - 1);
    Some((label, tree.ends(below)))
}

/// The last kid of the root of a tree is this one.
fn assert_last_kid<T: SerialTree>(rt: &impl Abort, tree: &T, want: Option<(SerialOp, bool)>) {
    assert!(rt; last_kid(tree) == want);
}

/// The last kid of a set with two members is this one, also where the set is packed.
fn assert_both_alike(
    rt: &(impl AllocGlobal + Abort),
    set: &mut Trie<Global>,
) -> Result<(), AllocError> {
    assert_last_kid(rt, &&*set, None);
    assert!(rt; matches!(set.insert(&[ret(0, 1), ret(1, 2)]), Ok(true)));
    assert!(rt; matches!(set.insert(&[ret(1, 2)]), Ok(true)));
    assert_last_kid(rt, &&*set, Some((ret(1, 2), true)));
    let packed = PackedTrie::pack(rt.alloc(), set)?;
    assert_last_kid(rt, &&packed, Some((ret(1, 2), true)));
    Ok(())
}

#[test]
fn both_forms_read_alike(rt: HostRuntime) -> Result<(), Fail> {
    let mut set = Trie::new(rt.alloc());
    assert_both_alike(&rt, &mut set)?;
    Ok(())
}
