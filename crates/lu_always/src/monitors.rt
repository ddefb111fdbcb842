//! The list of monitors, with an index.

ghost use Rattle.std.specs.Prelude.{◌≡◌, [], ◌∷◌, ◌++◌, IfOk, IfSome, IsTrue, OnErr, OnOk, Some, length, option_copied, slice_get};
ghost use Rattle.lu_linearization.specs.Monitors.{Holds, configuration_of};
ghost use Rattle.lu_always.specs.Nodes.{IsWithin};
ghost use Rattle.lu_always.specs.Rows.{numbered};

use indexmap::IndexMap;
use lu_history::SerialOutcome;
use lu_linearization::{Configuration, Monitor};
use std::alloc::{AllocError, Global};
use std::cmp::Ordering;
use std::hash::{FoldHasher, Hasher};
use std::marker::Model;

/// Monitors in the order in which they were reached, with the numbers of those of each hash. In
/// clauses it is their list.
#[derive(Drop)]
pub(crate) struct Monitors {
    list: Vec<Monitor>,
    numbers: IndexMap<u64, Vec<u32>>,
}

impl Model for Monitors {
    ghost use Rattle.std.specs.Prelude.{List};
    ghost use Rattle.lu_linearization.specs.declared.configuration.Configuration.{Configuration};

    ghost Value = { List (List Configuration) };

    ghost view = { λ monitors. monitors.list.items };
}

/// What of an operation's effect goes into a hash.
fn effect_of(effect: Option<SerialOutcome>) -> u32 {
    match effect {
        None => 0,
        Some(SerialOutcome::Trap) => 1,
        Some(SerialOutcome::Stuck) => 2,
        Some(SerialOutcome::Ret(value)) => value.wrapping_add(3),
    }
}

/// A hash of the monitor's configurations.
fn hash_of(monitor: &Monitor) -> u64 {
    let mut hasher = FoldHasher::default();
    for one in monitor.configurations() {
        hasher.write_u32(one.state);
        for effect in one.effects {
            hasher.write_u32(effect_of(effect));
        }
    }
    hasher.finish()
}

/// Adds a number to those with this hash.
fn note(
    alloc: Global,
    numbers: &mut IndexMap<u64, Vec<u32>>,
    hash: u64,
    number: u32,
) -> Result<(), AllocError> {
    match numbers.get_mut(&hash) {
        Some(same) => {
            same.push(number)?;
            Ok(())
        }
        None => {
            let mut same = Vec::new(alloc);
            same.push(number)?;
            numbers.insert(hash, same)?;
            Ok(())
        }
    }
}

/// Whether both lists have the same configurations in the same order.
fn are_same(a: &[Configuration], b: &[Configuration]) -> bool
    ensures { IsTrue result → a.now ≡ b.now }
{
    match a.cmp(b) {
        Ordering::Less => false,
        Ordering::Equal => true,
        Ordering::Greater => false,
    }
}

/// Whether the configuration is in the list, which is sorted.
fn has_configuration(list: &[Configuration], one: &Configuration) -> bool
    ensures { IsTrue result → Holds list.now (configuration_of one.now) }
{
    match list.binary_search(one) {
        Ok(_) => true,
        Err(_) => false,
    }
}

/// Whether each configuration of the first list is in the second. Both are sorted.
fn are_within(less: &[Configuration], list: &[Configuration]) -> bool
    ensures { IsTrue result → IsWithin less.now list.now }
{
    if less.len() > list.len() {
        return false;
    }
    for one in less {
        if !has_configuration(list, one) {
            return false;
        }
    }
    true
}

/// Whether the monitor with this number is this one.
fn has_number(list: &[Monitor], monitor: &Monitor, number: u32) -> bool
    ensures { IsTrue result → slice_get list.now number ≡ Some monitor.now }
{
    match list.get(number as usize) {
        None => false,
        Some(one) => are_same(one.configurations(), monitor.configurations()),
    }
}

impl Monitors {
    /// No monitors.
    pub(crate) fn new(alloc: Global) -> Monitors
        ensures { result ≡ [] }
    {
        Monitors {
            list: Vec::new(alloc),
            numbers: IndexMap::new(alloc),
        }
    }

    /// The monitor with this number.
    pub(crate) fn get(&self, number: u32) -> Option<&Monitor>
        ensures { option_copied result ≡ slice_get self.now number }
    {
        self.list.get(number as usize)
    }

    /// Whether each configuration of the monitor with the number `less` is one of the monitor with the
    /// other number.
    pub(crate) fn are_within(&self, less: u32, other: u32) -> bool
        ensures { IsTrue result → IsWithin (numbered self.now less) (numbered self.now other) }
    {
        if less == other {
            return true;
        }
        match self.get(less) {
            None => false,
            Some(less) => match self.get(other) {
                None => false,
                Some(other) => are_within(less.configurations(), other.configurations()),
            },
        }
    }

    /// The number of the monitor, if one is found. `likely` is looked at first.
    pub(crate) fn find(&self, monitor: &Monitor, likely: u32) -> Option<u32>
        ensures { IfSome result (λ number. slice_get self.now number ≡ Some monitor.now) }
    {
        if has_number(self.list.as_slice(), monitor, likely) {
            return Some(likely);
        }
        let Some(same) = self.numbers.get(&hash_of(monitor)) else {
            return None;
        };
        for number in same {
            if has_number(self.list.as_slice(), monitor, *number) {
                return Some(*number);
            }
        }
        None
    }

    /// Adds a copy of the monitor at the end, and returns its number. Monitors after the first
    /// 4,294,967,296 have no numbers: that is reported as out of memory.
    pub(crate) fn push(&mut self, alloc: Global, monitor: &Monitor) -> Result<u32, AllocError>
        ensures number { IfOk result (λ number. number ≡ length self.old) }
        ensures new { OnOk result (self.new ≡ self.old ++ monitor.now ∷ []) }
        ensures refused { OnErr result (self.new ≡ self.old) }
    {
        let number = u32::try_from(self.list.len()).map_err(|_| AllocError)?;
        let copy = monitor.try_clone(alloc)?;
        note(alloc, &mut self.numbers, hash_of(monitor), number)?;
        self.list.push(copy)?;
        Ok(number)
    }
}
