//! The serial histories of small matrices, and the least schedules with others.

ghost use Rattle.lu_machine.specs.Starts.{CanRun};

use lu_fixtures::{Fixture, fixture_of};
use lu_serial::{Learnt, first_outside, learn};
use lu_test::{Schedule, write_schedule};
use lu_trie::Trie;
use std::alloc::Global;
use std::process::Abort;
use std::test::Fail;

/// The set of all serial histories of the case.
pub(crate) fn serial_histories(
    rt: &(impl AllocGlobal + Abort),
    case: &Fixture,
) -> Result<Trie<Global>, Fail>
    requires { CanRun case.now.component case.now.matrix }
{
    match learn(rt.alloc(), rt.alloc(), &case.component, &case.matrix, 40)? {
        Learnt::Set(set) => Ok(set),
        Learnt::Cut(_) | Learnt::Conflict { .. } => panic!(rt; "a serial offence"),
    }
}

/// The same of the component and the matrix of these texts.
pub(crate) fn set_of(
    rt: &(impl AllocGlobal + Abort),
    component: &[u8],
    matrix: &[u8],
) -> Result<Trie<Global>, Fail> {
    let case = fixture_of(rt, component, matrix)?;
    serial_histories(rt, &case)
}

/// The schedule is spelled so.
pub(crate) fn assert_spelled(
    rt: &(impl AllocGlobal + Abort),
    schedule: &Schedule,
    text: &str,
) -> Result<(), Fail> {
    let spelled = write_schedule(rt.alloc(), schedule)?;
    assert!(rt; spelled.as_str() == text, "{text}");
    Ok(())
}

const SLOT: &[u8] = b"component c
word x 1 0
op take 0
await x 0 1
return 0
end
op put 0
store x 0 1
return 0
end
";

const PICKS: &[u8] = b"component c
op f 0
pick r0 3
lt r1 r0 2
jz r1 L4
return r0
L4: jump L4
end
";

const LATE: &[u8] = b"component c
op f 0
pick r0 2
jz r0 L3
return r0
L3: jump L3
end
";

const BOTH: &[u8] = b"thread take\nthread put\n";

const NO_CALLS: &[u8] = b"thread\n";

/// A component, two matrices, and the least schedule of the first one whose history is not in the
/// set of the second one, if there is one.
const OUTSIDE: &[(&[u8], &[u8], &[u8], Option<&str>)] = &[
    // A call that is blocked at once.
    (SLOT, BOTH, b"thread put\n", Some("schedule 0\n")),
    // The first history is there, and the put goes first in the least schedule with another one.
    (SLOT, BOTH, b"thread take\n", Some("schedule 1 1 1 0 0 0\n")),
    (SLOT, BOTH, BOTH, None),
    // The first pick never returns, and the second one does, after a schedule that is cut.
    (LATE, b"thread f\n", NO_CALLS, None),
    // Here the cut comes last.
    (PICKS, b"thread f\n", NO_CALLS, Some("schedule 0 0 0 0 0\n")),
];

/// The least schedule of the matrix whose history is not in the set.
fn outside(
    rt: &(impl AllocGlobal + Abort),
    component: &[u8],
    matrix: &[u8],
    set: &Trie<Global>,
) -> Result<Option<Schedule>, Fail> {
    let case = fixture_of(rt, component, matrix)?;
    Ok(first_outside(rt.alloc(), &case.component, &case.matrix, 8, set)?)
}

/// The least schedule of the matrix whose history is not in the set is spelled so.
fn assert_outside(
    rt: &(impl AllocGlobal + Abort),
    component: &[u8],
    matrix: &[u8],
    set: &Trie<Global>,
    wanted: Option<&str>,
) -> Result<(), Fail> {
    match (outside(rt, component, matrix, set)?, wanted) {
        (None, None) => Ok(()),
        (Some(schedule), Some(text)) => assert_spelled(rt, &schedule, text),
        _ => panic!(rt; "what is outside is not what was wanted"),
    }
}

/// The same of the set of a matrix.
fn assert_outside_of(
    rt: &(impl AllocGlobal + Abort),
    component: &[u8],
    matrix: &[u8],
    other: &[u8],
    wanted: Option<&str>,
) -> Result<(), Fail> {
    let set = set_of(rt, component, other)?;
    assert_outside(rt, component, matrix, &set, wanted)
}

#[test]
fn the_least_schedule_outside_is_found(rt: HostRuntime) -> Result<(), Fail> {
    for (component, matrix, other, wanted) in OUTSIDE {
        assert_outside_of(&rt, component, matrix, other, *wanted)?;
    }
    Ok(())
}
