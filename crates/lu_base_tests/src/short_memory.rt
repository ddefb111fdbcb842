//! Tries over arenas and over heaps of fixed size, where memory is short.
//!
//! A trie over an arena or a heap borrows it: an arena that is dropped or reset while the trie
//! lives does not compile.

use crate::tries::ret;
use bumpalo::Bump;
use linked_list_allocator::LocalHeap;
use lu_fixtures::{contains, count, same_members};
use lu_trie::{PackedTrie, SerialTree, Trie};
use std::alloc::{AllocError, Allocator, Global};
use std::process::Abort;
use std::test::Fail;

/// Inserts the histories `0=0`, `0=1` and so on, and returns the number of those that were inserted
/// before memory was refused; `None` where it never was, or one of them was a member before.
fn fill<A: Allocator + Clone>(set: &mut Trie<A>) -> Option<u32> {
    for number in 0..10_000 {
        match set.insert(&[ret(0, number)]) {
            Ok(true) => {}
            Ok(false) => return None,
            Err(_) => return Some(number),
        }
    }
    None
}

/// Inserts the first histories of `fill`.
fn fill_to<A: Allocator + Clone>(set: &mut Trie<A>, count: u32) -> Result<(), AllocError> {
    for number in 0..count {
        set.insert(&[ret(0, number)])?;
    }
    Ok(())
}

/// What was inserted before the refusal are all members, and what a trie with ample memory has.
fn assert_as_before<R: AllocGlobal + Abort, A: Allocator, B: Allocator>(
    rt: &R,
    full: &Trie<A>,
    ample: &Trie<B>,
    inserted: u32,
) {
    assert!(rt; full.len() == u64::from(inserted));
    assert!(rt; count(&full, full.root()) == u64::from(inserted));
    for number in 0..inserted {
        assert!(rt; full.contains(&[ret(0, number)]));
        assert!(rt; contains(&full, full.root(), &[ret(0, number)]));
    }
    assert!(rt; !full.contains(&[ret(0, inserted)]));
    assert!(rt; same_members(&full, full.root(), &ample, ample.root()));
}

#[test]
fn a_refused_insertion_changes_nothing(rt: HostRuntime) -> Result<(), Fail> {
    let alloc = rt.alloc();
    let heap = LocalHeap::new(alloc, 4096)?;
    let mut full = Trie::new(&heap);
    let inserted = fill(&mut full).expect(&rt, "4,096 bytes are soon used up");
    let mut ample = Trie::new(alloc);
    fill_to(&mut ample, inserted)?;
    assert_as_before(&rt, &full, &ample, inserted);
    Ok(())
}

/// The insertion of a history that does not fit is refused, and the set stays empty.
fn assert_refused<R: Abort, A: Allocator + Clone>(rt: &R, set: &mut Trie<A>) {
    let operation = ret(0, 0);
    let history = [
        operation, operation, operation, operation, operation, operation, operation, operation,
    ];
    assert!(rt; set.insert(&history).is_err());
    assert!(rt; set.len() == 0);
}

#[test]
fn a_long_history_does_not_fit(rt: HostRuntime) -> Result<(), Fail> {
    let heap = LocalHeap::new(rt.alloc(), 64)?;
    let mut set = Trie::new(&heap);
    assert_refused(&rt, &mut set);
    Ok(())
}

fn assert_same<R: Abort, S: SerialTree, T: SerialTree>(rt: &R, left: &S, right: &T, members: u64) {
    assert!(rt; count(left, left.root()) == members);
    assert!(rt; count(right, right.root()) == members);
    assert!(rt; same_members(left, left.root(), right, right.root()));
}

/// A set of three in the arena and its packed form there have the same members.
fn assert_lies_in(rt: &impl Abort, arena: &Bump<Global>) -> Result<(), AllocError> {
    let mut set = Trie::new(arena);
    fill_to(&mut set, 3)?;
    let packed = PackedTrie::pack(arena, &set)?;
    assert_same(rt, &&set, &&packed, 3);
    Ok(())
}

#[test]
fn lies_in_an_arena(rt: HostRuntime) -> Result<(), Fail> {
    let arena = Bump::new(rt.alloc());
    assert_lies_in(&rt, &arena)?;
    Ok(())
}
