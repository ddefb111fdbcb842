//! What matters of a linearization for the events to come.

ghost use Rattle.std.specs.Prelude.{◌≡◌, IfOk, length};
ghost use Rattle.std.specs.List.{HoldsAt};
ghost use Rattle.std.specs.List.Sorted.{IsSearchInRange};
ghost use Rattle.lu_linearization.specs.Monitors.{Adds, AddsAny, Joins};

use lu_history::SerialOutcome;
use std::alloc::AllocError;

/// What matters of a linearization for the events to come.
#[derive(Clone, Copy, Debug, PartialEq, Eq, PartialOrd, Ord)]
pub struct Configuration {
    /// The state to which the linearization leads the automaton.
    pub state: u32,

    /// For each thread, the outcome of its pending operation, if that has taken effect: if it is in
    /// the linearization.
    pub effects: [Option<SerialOutcome>; 8],
}

/// The index of a configuration in a sorted list, or the index at which to insert it.
fn find(all: &[Configuration], one: &Configuration) -> Result<usize, usize>
    ensures found { IfOk result (HoldsAt (λ other. other ≡ one.now) all.now) }
    ensures bound { IsSearchInRange result (length all.now) }
{
    all.binary_search(one)
}

/// Adds a configuration to a sorted list, unless it is there already.
pub(crate) fn add(all: &mut Vec<Configuration>, one: &Configuration) -> Result<(), AllocError>
    ensures { IfOk result (λ _. Adds all.old.items all.new.items one.now) }
{
    match find(all, one) {
        Ok(_) => Ok(()),
        Err(place) => {
            all.insert(place, *one)?;
            Ok(())
        }
    }
}

/// Adds each of these configurations to a sorted list, unless it is there already.
pub(crate) fn add_all(
    all: &mut Vec<Configuration>,
    more: &[Configuration],
) -> Result<(), AllocError>
    ensures { IfOk result (λ _. Joins all.old.items all.new.items more.now) }
{
    for one in more {
        add(all, one)?;
    }
    Ok(())
}

/// Adds a configuration, if there is one, to a sorted list, unless it is there already.
pub(crate) fn add_any(
    all: &mut Vec<Configuration>,
    one: Option<Configuration>,
) -> Result<(), AllocError>
    ensures { IfOk result (λ _. AddsAny all.old.items all.new.items one) }
{
    match one {
        None => Ok(()),
        Some(one) => add(all, &one),
    }
}
