//! What only a call shows of matrices and schedules. What else is read and refused stands among the
//! cases of lu_program_tests.

use lu_fixtures::fixture_of;
use lu_test::{ScheduleFault, read_schedule, write_matrix, write_schedule};
use std::alloc::{AllocError, Global};
use std::process::Abort;
use std::test::Fail;

const COMPONENT: &[u8] =
    b"component c\nop inc 0\nreturn 0\nend\nop add 2\nadd r0 r0 r1\nreturn r0\nend\n";

/// The matrix of this text has two threads, of which the first alone calls.
#[test]
fn calls_are_counted(rt: HostRuntime) -> Result<(), Fail> {
    let case = fixture_of(&rt, COMPONENT, b"thread inc;add 1 2\nthread\n")?;
    assert!(rt; case.matrix.threads() == 2);
    for (t, count) in [(0, 2), (1, 0), (7, 0)] {
        assert!(rt; case.matrix.calls(t) == count, "thread {t}");
    }
    Ok(())
}

/// Whether a matrix of `COMPONENT` is one of the component of this text.
fn is_of(rt: &impl AllocGlobal, text: &[u8]) -> Result<bool, Fail> {
    let case = fixture_of(rt, COMPONENT, b"thread add 1 2\n")?;
    let other = fixture_of(rt, text, b"thread\n")?;
    Ok(case.matrix.of(&other.component))
}

#[test]
fn a_matrix_of_another_component_is_noticed(rt: HostRuntime) -> Result<(), Fail> {
    assert!(rt; is_of(&rt, COMPONENT)?);
    assert!(rt; !is_of(&rt, b"component d\nop f 0\nreturn 0\nend\n")?);
    Ok(())
}

/// The text that is written of the matrix that this one is.
fn matrix_again(rt: &impl AllocGlobal, text: &[u8]) -> Result<String, Fail> {
    let case = fixture_of(rt, COMPONENT, text)?;
    Ok(write_matrix(rt.alloc(), &case.component, &case.matrix)?)
}

#[test]
fn matrices_are_written(rt: HostRuntime) -> Result<(), Fail> {
    let texts: [(&[u8], &str); 6] = [
        (
            b"\tthread  inc ; add 1  20 # two\n\nthread\n",
            "thread inc;add 1 20\nthread\n",
        ),
        (
            b"# calls\nthread inc;\tadd 1 4294967295\r\n\nthread\n",
            "thread inc;add 1 4294967295\nthread\n",
        ),
        (b"setup\nthread\n", "thread\n"),
        (
            b" setup inc ; add 1 2\nthread\n",
            "setup inc;add 1 2\nthread\n",
        ),
        (
            b"\n# first\nsetup add 1 2;inc\nthread inc;add 3 4\n",
            "setup add 1 2;inc\nthread inc;add 3 4\n",
        ),
        (
            b"thread inc;add 1 2\nthread",
            "thread inc;add 1 2\nthread\n",
        ),
    ];
    for (text, written) in &texts {
        let again = matrix_again(&rt, text)?;
        assert!(rt; again.as_str() == *written, "{written}");
    }
    Ok(())
}

/// The text that is written of the schedule that this one is.
fn schedule_again(alloc: Global, text: &str) -> Result<String, ScheduleFault> {
    let schedule = read_schedule(alloc, text.as_bytes())?;
    Ok(write_schedule(alloc, &schedule)?)
}

/// The text of the longest schedule.
fn longest(alloc: Global) -> Result<String, AllocError> {
    let mut text = String::from_str(alloc, "schedule")?;
    for _ in 0..4112 {
        text.push_str(" 0")?;
    }
    text.push('\n')?;
    Ok(text)
}

#[test]
fn schedules_are_written(rt: HostRuntime) -> Result<(), Fail> {
    let longest = longest(rt.alloc())?;
    for text in ["schedule\n", "schedule 0 1:2 7:7 3\n", longest.as_str()] {
        assert!(rt;
            schedule_again(rt.alloc(), text)?.as_str() == text,
            "{text}"
        );
    }
    Ok(())
}
