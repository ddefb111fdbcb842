//! Tables in which each different value has a number.

ghost use Rattle.std.specs.Prelude.{◌≡◌, ◌+◌, IfOk, IfSome, IsTrue, option_copied};
ghost use Rattle.lu_always.specs.Numbered.{Extends, IsNumber, is_list, with_number};

use indexmap::{Equivalent, IndexSet};
use std::alloc::{AllocError, Global};
use std::hash::Hash;

/// The number of what is at this index, from 1. More than 4,294,967,295 values have no numbers: that
/// is reported as out of memory.
fn number_at(index: usize) -> Result<u32, AllocError>
    ensures { IfOk result (λ n. n ≡ index + 1) }
{
    match u32::try_from(index) {
        Err(_) => Err(AllocError),
        Ok(index) => index.checked_add(1).ok_or(AllocError),
    }
}

/// What has this number, if anything has. Nothing has the number 0.
pub(crate) fn value_with<T: Eq + Hash>(table: &IndexSet<T>, number: u32) -> Option<&T>
    ensures { option_copied result ≡ with_number table.now.keys number }
{
    let values = table.as_slice();
    let index = number.checked_sub(1)?;
    values.get(index as usize)
}

/// Whether this is the number of what the query stands for.
fn has_number<T: Eq + Hash, Q: Equivalent<T>>(table: &IndexSet<T>, query: Q, number: u32) -> bool
    ensures { IsTrue result → IsNumber (Q.equivalent query) table.now.keys number }
{
    match value_with(table, number) {
        None => false,
        Some(one) => query.equivalent(one),
    }
}

/// The number of what the query stands for, if it is there. `likely` is looked at first.
fn known_number<T: Eq + Hash, Q: Equivalent<T> + Copy>(
    table: &IndexSet<T>,
    query: Q,
    likely: u32,
) -> Option<u32>
    ensures { IfSome result (IsNumber (Q.equivalent query) table.now.keys) }
{
    if has_number(table, query, likely) {
        return Some(likely);
    }
    let index = table.get_index_of(query)?;
    number_at(index).ok()
}

/// The number of the value in the table, to which it is added if it is not there.
pub(crate) fn join<T: Eq + Hash + Drop>(
    table: &mut IndexSet<T>,
    value: T,
) -> Result<u32, AllocError>
    ensures number { IfOk result (IsNumber (T.eq value) table.new.keys) }
    ensures grows { Extends table.old.keys table.new.keys }
{
    let (index, _) = table.insert_full(value)?;
    number_at(index)
}

/// The number of the value in the table, to which it is added if it is not there. `likely` is looked
/// at first.
pub(crate) fn number_of<T: Eq + Hash + Copy>(
    table: &mut IndexSet<T>,
    value: T,
    likely: u32,
) -> Result<u32, AllocError>
    ensures number { IfOk result (IsNumber (T.eq value) table.new.keys) }
    ensures grows { Extends table.old.keys table.new.keys }
{
    if has_number(table, &value, likely) {
        return Ok(likely);
    }
    join(table, value)
}

/// The number of the list in the table, to which a copy of it is added if it is not there. `likely`
/// is looked at first.
pub(crate) fn number_of_list<T: Eq + Hash + Copy>(
    alloc: Global,
    table: &mut IndexSet<Vec<T>>,
    list: &[T],
    likely: u32,
) -> Result<u32, AllocError>
    ensures number { IfOk result (IsNumber (is_list T.eq list.now) table.new.keys) }
    ensures grows { Extends table.old.keys table.new.keys }
{
    match known_number(table, list, likely) {
        Some(number) => Ok(number),
        None => join(table, Vec::from_slice(alloc, list)?),
    }
}
