//! Whether schedules of a component show recorded histories.

ghost use Rattle.std.specs.Prelude.{IfOk};
ghost use Rattle.lu_machine.specs.Starts.{CanRun};
ghost use Rattle.lu_conform.specs.Conforming.{IsConformance};

use crate::searching::shown_by;
use crate::shown::{Conformance, Shown};
use lu_component::Component;
use lu_recorded::Recorded;
use lu_test::Matrix;
use std::alloc::{AllocError, Global};

/// A shortest schedule for each recorded history, which shows it; or the number of the first that
/// no schedule shows, or of which that is not decided ([`shown_by`]). Asks for a matrix of the
/// component, whose setup settles.
///
/// # Errors
///
/// `AllocError` where memory was refused.
pub fn conformance(
    alloc: Global,
    component: &Component,
    matrix: &Matrix,
    all: &[Recorded],
) -> Result<Conformance, AllocError>
    requires { CanRun component.now matrix.now }
    ensures { IfOk result (IsConformance component.now matrix.now all.now) }
{
    let mut schedules = Vec::new(alloc);
    for (number, recorded) in all.iter().enumerate() {
        match shown_by(alloc, component, matrix, recorded)? {
            Shown::By(schedule) => schedules.push(schedule)?,
            Shown::ByNone => return Ok(Conformance::NoneShows(number)),
            Shown::Undecided => return Ok(Conformance::Undecided(number)),
        }
    }
    Ok(Conformance::Conforms(schedules))
}
