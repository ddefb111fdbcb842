//! Certificates by longer moves.

ghost use Rattle.std.specs.Prelude.{◌≤◌, IfOk};
ghost use Rattle.lu_component.specs.declared.component.TheConstants.{MOST_LOCAL};
ghost use Rattle.lu_machine.specs.Starts.{CanRun};
ghost use Rattle.lu_report.specs.Limits.{IsSerialBound, most_moves};
ghost use Rattle.lu_certify.specs.Certificates.{NamesCutOf};
ghost use Rattle.lu_grain.specs.Laws.{DecidesAlike};
ghost use Rattle.lu_grain.specs.Longer.{IsMadeWith};

use crate::copies::with_local;
use lu_certify::{Certificate, Limits, certify};
use lu_component::Component;
use lu_test::Matrix;
use std::alloc::{AllocError, Global};

/// The certificate of the component with `local` local instructions to a move, which decides of the
/// component as it is: there are far fewer schedules, of fewer moves. The schedules that it shows,
/// of a report or a livelock, are those of longer moves; of a livelock the component as it is has
/// one of its own, on the same cut. Asks for no fewer than the component has, and at most 16; else
/// as [`certify`].
///
/// # Errors
///
/// `AllocError` where memory was refused.
pub fn certify_longer(
    alloc: Global,
    component: &Component,
    matrix: &Matrix,
    local: u8,
    limits: Limits,
) -> Result<Certificate, AllocError>
    requires of { CanRun component.now matrix.now }
    requires longer { component.now.local ≤ local }
    requires few { local ≤ MOST_LOCAL }
    requires bound { limits.bound ≤ most_moves }
    requires serial { IsSerialBound limits.serial }
    ensures certificate { IfOk result (IsMadeWith local component.now matrix.now limits) }
    ensures decides { IfOk result (DecidesAlike component.now matrix.now) }
    ensures of { IfOk result (NamesCutOf component.now) }
{
    let longer = with_local(alloc, component, local)?;
    certify(alloc, &longer, matrix, limits)
}
