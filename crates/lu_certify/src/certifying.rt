//! Certificates by checks of all cuts.

ghost use Rattle.std.specs.Prelude.{◌≡◌, ◌≤◌, IfOk};
ghost use Rattle.lu_machine.specs.Starts.{CanRun};
ghost use Rattle.lu_report.specs.Limits.{IsSerialBound, most_moves};
ghost use Rattle.lu_certify.specs.declared.so_far.SoFar.TheVariants.{Clear};
ghost use Rattle.lu_certify.specs.Certificates.{IsCertificate, NamesCutOf};
ghost use Rattle.lu_certify.specs.Laws.{Decides};
ghost use Rattle.lu_certify.specs.Limited.{AreKnownIn, IsCertificateOf, IsOwnSpec, NoneOffends};
ghost use Rattle.lu_certify.specs.Cuts.{IsConcluded};

use crate::certificate::Certificate;
use crate::cuts::{count_cuts, cut_at};
use crate::judging::may_spin;
use crate::known::take;
use crate::limited::LimitedTest;
use crate::limits::Limits;
use crate::looked::{Found, Looked};
use crate::looking::look_further;
use crate::progress::{Progress, Silent};
use crate::so_far::SoFar;
use lu_component::Component;
use lu_replay::graph_or_offence;
use lu_serial_graph::learn_graph;
use lu_spec::Spec;
use lu_test::Matrix;
use std::alloc::{AllocError, Global};

/// All beginnings of the serial histories. Asks that no serial run offends.
fn own_spec(alloc: Global, test: LimitedTest<'_>) -> Result<Spec, AllocError>
    requires { NoneOffends test }
    ensures { IfOk result (IsOwnSpec test.entry) }
{
    let serial = test.limits.serial;
    let learnt = learn_graph(alloc, alloc, test.component, test.matrix, serial)?;
    let graph = graph_or_offence(learnt).unwrap();
    let tree = &graph;
    Spec::closure_of(alloc, test.matrix, &tree)
}

/// The certificate where no cut fails: the first livelock, or the first cut that is not clear; or,
/// where there is neither, the set. Asks that no serial run offends then.
pub(crate) fn conclude(
    alloc: Global,
    test: LimitedTest<'_>,
    so_far: SoFar,
) -> Result<Certificate, AllocError>
    requires { so_far ≡ Clear → NoneOffends test }
    ensures { IfOk result (IsConcluded test.entry.component.now test.entry.matrix.now so_far) }
{
    match so_far {
        SoFar::Lost { matrix, schedule } => Ok(Certificate::Livelock { matrix, schedule }),
        SoFar::Unclear { matrix, report } => Ok(Certificate::Undecided { matrix, report }),
        SoFar::Clear => {
            let spec = own_spec(alloc, test)?;
            Ok(Certificate::Linearizable(spec))
        }
    }
}

/// The certificate of the component on the matrix, where this is known of some cuts already, in
/// the order of their numbers. The others are looked at on the calling thread.
pub(crate) fn certify_knowing<P: Progress>(
    alloc: Global,
    test: LimitedTest<'_>,
    mut known: Vec<Found>,
    progress: &P,
) -> Result<Certificate, AllocError>
    requires known { AreKnownIn test known }
    ensures certificate { IfOk result (IsCertificateOf test.entry) }
    ensures decides { IfOk result (Decides test.entry.component.now test.entry.matrix.now) }
    ensures of { IfOk result (NamesCutOf test.entry.component.now) }
{
    let cuts = count_cuts(test.matrix);
    let spins = may_spin(test.component);
    let mut so_far = SoFar::Clear;
    for number in 0..cuts {
        let matrix = cut_at(alloc, test.matrix, number)?;
        let cut = LimitedTest {
            component: test.component,
            matrix: &matrix,
            limits: test.limits,
        };
        let found = take(&mut known, number);
        let asked = so_far.asked();
        match look_further(alloc, cut, found, spins, asked, progress)? {
            Looked::Failing(report) => {
                return Ok(Certificate::NotLinearizable { matrix, report });
            }
            Looked::Stands { livelock, unclear } => {
                so_far = so_far.after(matrix, livelock, unclear);
            }
        }
    }
    conclude(alloc, test, so_far)
}

/// Whether the component is linearizable on the matrix by some deterministic set of serial
/// histories, decided by its cuts, in the lexicographic order of their lengths, thread 0's first:
/// each thread makes some of its first calls (Burckhardt, Dern, Musuvathi and Tan, 2010). A cut is
/// checked, or all its states are gone through, with the serial histories that can still become
/// witnesses, where these are few: first where threads may spin, and else where the check leaves it
/// open. They show too where the shortest schedule that ends badly has more moves than the bound;
/// where it has at most 256, the cut fails by the report at that length. Where schedules are cut, a
/// cut may have a livelock: a state from which no schedule ends. Where the search for one stops at
/// the limit of states, the cut is not clear. It stops at the first cut that
/// fails, since that decides more than a livelock. The limits say how long schedules and serial
/// runs are, and how many states are gone through. Asks for a matrix of the component, whose setup
/// settles. All is done on the calling thread.
///
/// # Errors
///
/// `AllocError` where memory was refused.
pub fn certify(
    alloc: Global,
    component: &Component,
    matrix: &Matrix,
    limits: Limits,
) -> Result<Certificate, AllocError>
    requires of { CanRun component.now matrix.now }
    requires bound { limits.bound ≤ most_moves }
    requires serial { IsSerialBound limits.serial }
    ensures certificate { IfOk result (IsCertificate component.now matrix.now limits) }
    ensures decides { IfOk result (Decides component.now matrix.now) }
    ensures of { IfOk result (NamesCutOf component.now) }
{
    let test = LimitedTest {
        component,
        matrix,
        limits,
    };
    certify_knowing(alloc, test, Vec::new(alloc), &Silent)
}
