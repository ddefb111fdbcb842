//! Configurations after a return.

ghost use Rattle.std.specs.Prelude.{◌≡◌, ◌<◌, IfOk, None, length, set};
ghost use Rattle.lu_linearization.specs.Configurations.{Returns};
ghost use Rattle.lu_linearization.specs.Monitors.{AreNext, IsNextOf};

use crate::configuration::{Configuration, add_any};
use lu_history::SerialOutcome;
use std::alloc::{AllocError, Global};

/// The configuration without the outcome of the thread's operation.
fn without_effect(from: &Configuration, thread: usize) -> Configuration
    requires { thread < 8 }
    ensures state { result.state ≡ from.now.state }
    ensures effects { result.effects ≡ set from.now.effects thread None }
    ensures long { length from.now.effects ≡ 8 }
{
    let mut to = *from;
    to.effects[thread] = None;
    to
}

/// The configuration after the thread's operation returns. None where the operation has not taken
/// effect with this outcome.
fn returned(from: &Configuration, thread: usize, outcome: SerialOutcome) -> Option<Configuration>
    requires { thread < 8 }
    ensures { IsNextOf (Returns thread outcome) from.now result }
{
    match from.effects[thread] {
        None => None,
        Some(ended) => {
            if ended == outcome {
                Some(without_effect(from, thread))
            } else {
                None
            }
        }
    }
}

/// The configurations after the thread's operation returns with this outcome.
pub(crate) fn all_returned(
    alloc: Global,
    from: &[Configuration],
    thread: usize,
    outcome: SerialOutcome,
) -> Result<Vec<Configuration>, AllocError>
    requires { thread < 8 }
    ensures { IfOk result (λ to. AreNext (Returns thread outcome) from.now to.items) }
{
    let mut to = Vec::new(alloc);
    for one in from {
        let next = returned(one, thread, outcome);
        add_any(&mut to, next)?;
    }
    Ok(to)
}
