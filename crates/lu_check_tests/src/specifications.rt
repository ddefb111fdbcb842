//! Specifications, their members and their texts.

use lu_fixtures::{ROWS, fixture_of};
use lu_history::{SerialOp, SerialOutcome};
use lu_spec::{Spec, read_spec, write_spec};
use std::process::Abort;
use std::test::Fail;

/// The specification of a matrix of two increments.
fn spec_of(rt: &(impl AllocGlobal + Abort), text: &[u8]) -> Result<Spec, Fail> {
    let case = fixture_of(rt, ROWS.as_bytes(), b"thread inc\nthread inc\n")?;
    Ok(read_spec(rt.alloc(), &case.matrix, text)?)
}

fn ret(thread: u8, number: u32) -> SerialOp {
    SerialOp {
        thread,
        outcome: SerialOutcome::Ret(number),
    }
}

/// Each of these histories is a member of the specification of this text, or not.
fn assert_members(
    rt: &(impl AllocGlobal + Abort),
    text: &[u8],
    histories: &[(&[SerialOp], bool)],
) -> Result<(), Fail> {
    let spec = spec_of(rt, text)?;
    for (history, expected) in histories {
        assert!(rt; spec.contains(history) == *expected);
    }
    Ok(())
}

#[test]
fn beginnings_of_listed_histories_are_members(rt: HostRuntime) -> Result<(), Fail> {
    assert_members(
        &rt,
        b"lineup spec 1\nhistory 0=1 1=2\nhistory 1=1 0=2\n",
        &[
            (&[], true),
            (&[ret(0, 1)], true),
            (&[ret(0, 1), ret(1, 2)], true),
            (&[ret(1, 1), ret(0, 2)], true),
            (&[ret(0, 2)], false),
            (&[ret(0, 1), ret(1, 1)], false),
        ],
    )
}

#[test]
fn a_first_line_alone_lists_nothing(rt: HostRuntime) -> Result<(), Fail> {
    assert_members(
        &rt,
        b"lineup spec 1\n",
        &[(&[], true), (&[ret(0, 1)], false)],
    )
}

/// Whether the specification is one of the matrix of this text.
fn is_of(rt: &(impl AllocGlobal + Abort), spec: &Spec, matrix: &[u8]) -> Result<bool, Fail> {
    let case = fixture_of(rt, ROWS.as_bytes(), matrix)?;
    Ok(spec.of(&case.matrix))
}

#[test]
fn a_specification_is_one_of_its_matrices(rt: HostRuntime) -> Result<(), Fail> {
    let spec = spec_of(&rt, b"lineup spec 1\nhistory 0=1 1=2\n")?;
    for (matrix, expected) in [
        ("thread inc;inc\nthread get\n", true),
        ("thread inc\nthread\n", false),
        ("thread inc\n", false),
    ] {
        assert!(rt;
            is_of(&rt, &spec, matrix.as_bytes())? == expected,
            "{matrix}"
        );
    }
    Ok(())
}

/// The text that is written of the specification that this one is.
fn again(rt: &(impl AllocGlobal + Abort), text: &str) -> Result<String, Fail> {
    let spec = spec_of(rt, text.as_bytes())?;
    Ok(write_spec(rt.alloc(), &spec)?)
}

#[test]
fn what_is_read_is_written_as_it_was(rt: HostRuntime) -> Result<(), Fail> {
    for text in [
        "lineup spec 1\n",
        "lineup spec 1\nhistory 0=1 1=2\nhistory 1=1 0=2\n",
        "lineup spec 1\nhistory 0=trap 1=stuck\nhistory 1=4294967295\n",
    ] {
        assert!(rt; again(&rt, text)?.as_str() == text, "{text}");
    }
    Ok(())
}
