//! What is known of cuts, in the order of their numbers.

ghost use Rattle.std.specs.Prelude.{IfOk};
ghost use Rattle.lu_certify.specs.Looking.{IsTakenAt, KnowsAll, KnowsLess, KnowsMore, KnowsNone, KnowsOneMore};

use crate::looked::{Found, FoundAt};
use std::alloc::{AllocError, Global};
use std::mem;

/// Puts what was found of a cut where its number says, with what is there.
fn put(known: &mut Vec<Found>, one: FoundAt)
    ensures { KnowsOneMore known.old.items one known.new.items }
{
    let number = one.number as usize;
    if number < known.len() {
        let before = mem::replace(&mut known[number], Found::nothing());
        known[number] = before.with(one.found);
    }
}

/// Puts what a worker found of each cut where its number says.
fn put_all(known: &mut Vec<Found>, found: Vec<FoundAt>)
    ensures { KnowsMore known.old.items found.items known.new.items }
{
    for one in found {
        put(known, one);
    }
}

/// Nothing is known of this many cuts.
fn none_known(alloc: Global, cuts: u64) -> Result<Vec<Found>, AllocError>
    ensures { IfOk result (λ known. KnowsNone known.items) }
{
    let mut known = Vec::new(alloc);
    for _ in 0..cuts {
        known.push(Found::nothing())?;
    }
    Ok(known)
}

/// What is known of this many cuts by what workers found.
pub(crate) fn known_by(
    alloc: Global,
    cuts: u64,
    found: Vec<Vec<FoundAt>>,
) -> Result<Vec<Found>, AllocError>
    ensures { IfOk result (λ known. KnowsAll found.items known.items) }
{
    let mut known = none_known(alloc, cuts)?;
    for list in found {
        put_all(&mut known, list);
    }
    Ok(known)
}

/// Takes out what is known of the cut with this number.
pub(crate) fn take(known: &mut Vec<Found>, number: u64) -> Found
    ensures known { KnowsLess known.old.items known.new.items }
    ensures taken { IsTakenAt known.old.items number result }
{
    if number as usize >= known.len() {
        return Found::nothing();
    }
    mem::replace(&mut known[number as usize], Found::nothing())
}
