//! Texts that are checked by a call: the text of the report, or the fault of the first text that
//! has one.

use lu_cli::{Fault, check_texts, check_texts_against};
use lu_fixtures::ROWS;
use lu_parallel::Options;
use std::alloc::AllocError;
use std::process::Abort;
use std::sync::Wait;
use std::test::Fail;
use std::thread::Threads;

const COUNTER: &str =
    "component c\nword x 1 0\nop inc 0\nload r0 x 0\nadd r0 r0 1\nstore x 0 r0\nreturn r0\nend\n";

const INCREMENTS: &str = "thread inc\nthread inc\n";

/// Options of two workers.
fn options(rt: &impl Abort) -> Options {
    Options::new(40, 40, 2, 4).expect(rt, "options")
}

/// What came of a check, as it is shown.
fn shown(rt: &impl AllocGlobal, checked: Result<String, Fault>) -> Result<String, AllocError> {
    match checked {
        Ok(text) => Ok(text),
        Err(fault) => format!(in rt.alloc(); "{fault}"),
    }
}

/// What comes of a check of these texts.
fn checked<X: AllocGlobal + Abort + Threads + Wait>(
    rt: &X,
    component: &str,
    matrix: &str,
) -> Result<String, AllocError> {
    let (component, matrix) = (component.as_bytes(), matrix.as_bytes());
    shown(
        rt,
        check_texts(rt, rt.alloc(), component, matrix, options(rt)),
    )
}

/// The component's fault comes before the matrix's.
#[test]
fn texts_are_checked(rt: HostRuntime) -> Result<(), Fail> {
    for (component, matrix, wanted) in [
        (
            COUNTER,
            INCREMENTS,
            "lineup report 1\nbound 40\nserial 40\nfail complete\nschedule 0 0 0 1 1 0 0 1 1 1\n",
        ),
        ("", "", "L7 line 1"),
        (COUNTER, "", "M6 line 1"),
    ] {
        assert!(rt;
            checked(&rt, component, matrix)?.as_str() == wanted,
            "{wanted}"
        );
    }
    Ok(())
}

/// What comes of a check of two increments against the specification of this text.
fn checked_against<X: AllocGlobal + Abort + Threads + Wait>(
    rt: &X,
    specification: &str,
) -> Result<String, AllocError> {
    let (component, matrix) = (ROWS.as_bytes(), INCREMENTS.as_bytes());
    let specification = specification.as_bytes();
    shown(
        rt,
        check_texts_against(
            rt,
            rt.alloc(),
            component,
            matrix,
            specification,
            options(rt),
        ),
    )
}

#[test]
fn texts_are_checked_against_a_specification(rt: HostRuntime) -> Result<(), Fail> {
    for (specification, wanted) in [
        (
            "lineup spec 1\nhistory 0=1 1=2\nhistory 1=1 0=2\n",
            "lineup report 3\nbound 40\nlocal 0\nfail complete\nschedule 0 0 0 1 1 0 0 1 1 1\n",
        ),
        ("lineup spec 1\nhistory 9=1\n", "S1 line 2"),
    ] {
        assert!(rt;
            checked_against(&rt, specification)?.as_str() == wanted,
            "{wanted}"
        );
    }
    Ok(())
}
