//! Rests in one order, however they were found.

ghost use Rattle.std.specs.Prelude.{◌≡◌, IfOk, OnOk, map};
ghost use Rattle.std.specs.List.Sorted.{IsPermutation};
ghost use Rattle.lu_serial_graph.specs.Answers.{RestsStand};
ghost use Rattle.lu_serial_graph.specs.Ordering.{position_of};

use lu_machine::{Machine, Position};
use std::alloc::{AllocError, Global};

/// What rests are ordered by. Rests after the same entries differ in nothing else.
#[derive(PartialEq, Eq, PartialOrd, Ord, Drop)]
struct Key {
    cells: Vec<u32>,
    locks: Vec<Option<u8>>,
}

/// A rest with its key.
#[derive(Drop)]
pub(crate) struct KeyedRest {
    key: Key,
    position: Position,
}

/// The rests with their keys.
fn with_keys(
    alloc: Global,
    machine: &mut Machine<'_>,
    rests: Vec<Position>,
) -> Result<Vec<KeyedRest>, AllocError>
    requires { RestsStand machine.old.component machine.old.matrix rests.items }
    ensures component { OnOk result (machine.new.component ≡ machine.old.component) }
    ensures matrix { OnOk result (machine.new.matrix ≡ machine.old.matrix) }
    ensures rests { IfOk result (λ keyed. map position_of keyed.items ≡ rests.items) }
{
    let mut keyed = Vec::new(alloc);
    for position in rests {
        machine.stand_at(&position);
        let key = Key {
            cells: Vec::from_slice(alloc, machine.cells())?,
            locks: Vec::from_slice(alloc, machine.locks())?,
        };
        keyed.push(KeyedRest { key, position })?;
    }
    Ok(keyed)
}

/// The rests without their keys.
fn without_keys(alloc: Global, keyed: Vec<KeyedRest>) -> Result<Vec<Position>, AllocError>
    ensures { IfOk result (λ rests. rests.items ≡ map position_of keyed.items) }
{
    let mut rests = Vec::new(alloc);
    for KeyedRest { key: _, position } in keyed {
        rests.push(position)?;
    }
    Ok(rests)
}

/// The same rests, ordered by their cells and then by their locks.
pub(crate) fn in_order(
    alloc: Global,
    machine: &mut Machine<'_>,
    rests: Vec<Position>,
) -> Result<Vec<Position>, AllocError>
    requires { RestsStand machine.old.component machine.old.matrix rests.items }
    ensures component { OnOk result (machine.new.component ≡ machine.old.component) }
    ensures matrix { OnOk result (machine.new.matrix ≡ machine.old.matrix) }
    ensures same { IfOk result (λ ordered. IsPermutation rests.items ordered.items) }
{
    if rests.len() < 2 {
        return Ok(rests);
    }
    let mut keyed = with_keys(alloc, machine, rests)?;
    keyed.sort_unstable_by(|a, b| a.key.cmp(&b.key));
    without_keys(alloc, keyed)
}
