//! Reports that are read, written and confirmed.

ghost use Rattle.lu_machine.specs.Starts.{CanRun};

use lu_fixtures::{Fixture, fixture_of};
use lu_machine::Counts;
use lu_replay::{confirm, confirm_against};
use lu_report::{Finding, Report, ReportFaultKind, read_report, write_report};
use lu_spec::read_spec;
use lu_text::Fault;
use std::alloc::AllocError;
use std::process::Abort;
use std::test::Fail;

/// The report of two increments at once.
const LOST: &[u8] = b"lineup report 1
bound 40
serial 40
fail complete
schedule 0 0 0 1 1 0 0 1 1 1
";

/// The report of two increments at once, where the addition runs with the load.
const LOST_IN_EIGHT: &[u8] = b"lineup report 2
bound 40
serial 40
local 16
fail complete
schedule 0 0 1 1 0 0 1 1
";

/// The report of two increments at once, in a check against a specification.
const LOST_AGAINST: &[u8] = b"lineup report 3
bound 40
local 0
fail complete
schedule 0 0 0 1 1 0 0 1 1 1
";

// ---- texts

/// The text of the report that is read from this one.
fn again(rt: &impl AllocGlobal, text: &[u8]) -> Result<String, Fail> {
    let report = read_report(rt.alloc(), text)?;
    Ok(write_report(rt.alloc(), &report)?)
}

#[test]
fn reports_are_written_as_they_were(rt: HostRuntime) -> Result<(), Fail> {
    let texts: [&[u8]; 13] = [
        LOST,
        b"lineup report 1\nbound 0\nserial 256\nfail stuck 7\nschedule\n",
        b"lineup report 1\nbound 40\nserial 4\nserial-cut\nschedule 0 0 0 0 0\n",
        b"lineup report 1\nbound 40\nserial 4\nnondeterministic\nschedule 0 0:1 0 0 0\nbefore 0\nearlier ret 0\n",
        b"lineup report 1\nbound 40\nserial 4\nnondeterministic\nschedule 7\nbefore 15\nearlier trap\n",
        b"lineup report 1\nbound 40\nserial 4\nnondeterministic\nschedule 7\nbefore 15\nearlier stuck\n",
        b"lineup report 1\nbound 256\nserial 1\npass\ncomplete 18446744073709551615\nstuck 0\ncut 1\n",
        LOST_IN_EIGHT,
        b"lineup report 2\nbound 40\nserial 1\nlocal 1\npass\ncomplete 1\nstuck 0\ncut 0\n",
        b"lineup report 2\nbound 40\nserial 4\nlocal 2\nnondeterministic\nschedule 0 0:1\nbefore 0\nearlier ret 0\n",
        LOST_AGAINST,
        b"lineup report 3\nbound 3\nlocal 16\npass\ncomplete 0\nstuck 0\ncut 1\n",
        b"lineup report 3\nbound 256\nlocal 1\nfail stuck 7\nschedule\n",
    ];
    for (row, text) in texts.iter().enumerate() {
        assert!(rt; again(&rt, text)?.as_bytes() == *text, "row {row}");
    }
    Ok(())
}

/// The bounds of the report that is read from this text.
fn bounds(rt: &impl AllocGlobal, text: &[u8]) -> Result<(u16, Option<u16>, u8), Fail> {
    let report = read_report(rt.alloc(), text)?;
    Ok((report.bound(), report.serial(), report.local()))
}

#[test]
fn bounds_are_read(rt: HostRuntime) -> Result<(), Fail> {
    for (text, expected) in [
        (LOST, (40, Some(40), 0)),
        (LOST_IN_EIGHT, (40, Some(40), 16)),
        (LOST_AGAINST, (40, None, 0)),
    ] {
        assert!(rt; bounds(&rt, text)? == expected, "{expected:?}");
    }
    Ok(())
}

#[test]
fn written(rt: HostRuntime) -> Result<(), Fail> {
    let finding = Finding::Pass(Counts {
        complete: 2564,
        stuck: 1,
        cut: 2,
    });
    let report = Report::new(39, 40, 0, finding);
    let text = write_report(rt.alloc(), &report)?;
    let expected = "lineup report 1\nbound 39\nserial 40\npass\ncomplete 2564\nstuck 1\ncut 2\n";
    assert!(rt; text.as_str() == expected);
    Ok(())
}

#[test]
fn written_against_a_specification(rt: HostRuntime) -> Result<(), Fail> {
    let finding = Finding::Pass(Counts {
        complete: 5,
        stuck: 0,
        cut: 1,
    });
    let report = Report::against(3, 2, finding);
    let text = write_report(rt.alloc(), &report)?;
    let expected = "lineup report 3\nbound 3\nlocal 2\npass\ncomplete 5\nstuck 0\ncut 1\n";
    assert!(rt; text.as_str() == expected);
    Ok(())
}

/// The line of the text's fault, where it is no report.
fn fault_line(rt: &impl AllocGlobal, text: &[u8]) -> Result<Option<usize>, AllocError> {
    match read_report(rt.alloc(), text) {
        Ok(_) => Ok(None),
        Err(Fault::At(ReportFaultKind::Form, line)) => Ok(Some(line)),
        Err(Fault::Memory) => Err(AllocError),
    }
}

/// Each beginning of a report has its fault in the line that isn't whole.
#[test]
fn beginnings(rt: HostRuntime) -> Result<(), Fail> {
    let mut line: usize = 1;
    for (end, byte) in LOST.iter().enumerate() {
        assert!(rt; fault_line(&rt, &LOST[..end])? == Some(line), "line {line}");
        if *byte == b'\n' {
            line = line.saturating_add(1);
        }
    }
    Ok(())
}

// ---- runs

/// Whether the report is confirmed.
fn confirmed(
    rt: &(impl AllocGlobal + Abort),
    component: &[u8],
    matrix: &[u8],
    report: &[u8],
) -> Result<bool, Fail> {
    let case = fixture_of(rt, component, matrix)?;
    let report = read_report(rt.alloc(), report)?;
    Ok(confirm(rt.alloc(), &case.component, &case.matrix, &report)?)
}

const COUNTER: &[u8] = b"component c
word x 1 0
op inc 0
load r0 x 0
add r0 r0 1
store x 0 r0
return r0
end
";

const TWICE: &[u8] = b"thread inc\nthread inc\n";

const PICKS: &[u8] = b"component c
op f 0
pick r0 3
lt r1 r0 2
jz r1 L4
return r0
L4: jump L4
end
op spin 0
L0: jump L0
end
";

/// Of serial cuts, which refute nothing; and a report of a check against a specification, which is
/// none of another check.
#[test]
fn cuts_are_confirmed(rt: HostRuntime) -> Result<(), Fail> {
    let reports: [(&[u8], &[u8], &[u8], bool); 4] = [
        (
            PICKS,
            b"thread spin\n",
            b"lineup report 1\nbound 0\nserial 4\nserial-cut\nschedule 0 0 0 0 0\n",
            true,
        ),
        (
            PICKS,
            b"thread spin\n",
            b"lineup report 1\nbound 0\nserial 5\nserial-cut\nschedule 0 0 0 0 0\n",
            false,
        ),
        (
            PICKS,
            b"thread f\n",
            b"lineup report 1\nbound 40\nserial 4\nserial-cut\nschedule 0 0:2 0 0 0\n",
            false,
        ),
        (COUNTER, TWICE, LOST_AGAINST, false),
    ];
    for (row, (component, matrix, report, expected)) in reports.iter().enumerate() {
        assert!(rt;
            confirmed(&rt, component, matrix, report)? == *expected,
            "row {row}"
        );
    }
    Ok(())
}

// ---- runs against a specification

/// Whether the report is confirmed against a specification of the case.
fn confirmed_by(
    rt: &impl AllocGlobal,
    case: &Fixture,
    specification: &[u8],
    report: &[u8],
) -> Result<bool, Fail>
    requires { CanRun case.now.component case.now.matrix }
{
    let specification = read_spec(rt.alloc(), &case.matrix, specification)?;
    let report = read_report(rt.alloc(), report)?;
    let tree = specification.tree();
    Ok(confirm_against(rt.alloc(), &case.component, &case.matrix, &report, &tree)?)
}

/// Whether the report of a check of two increments at once is confirmed against the specification.
fn confirmed_against(
    rt: &(impl AllocGlobal + Abort),
    specification: &[u8],
    report: &[u8],
) -> Result<bool, Fail> {
    let case = fixture_of(rt, COUNTER, TWICE)?;
    confirmed_by(rt, &case, specification, report)
}

/// Two increments, one after the other.
const RIGHT: &[u8] = b"lineup spec 1\nhistory 0=1 1=2\nhistory 1=1 0=2\n";

/// Two increments, of which one is always lost.
const FORGIVING: &[u8] = b"lineup spec 1\nhistory 0=1 1=1\nhistory 1=1 0=1\n";

/// A serial run.
const SERIAL: &[u8] =
    b"lineup report 3\nbound 40\nlocal 0\nfail complete\nschedule 0 0 0 0 0 1 1 1 1 1\n";

#[test]
fn failures_against_a_specification(rt: HostRuntime) -> Result<(), Fail> {
    let reports: [(&[u8], &[u8], bool); 10] = [
        (RIGHT, LOST_AGAINST, true),
        (
            RIGHT,
            b"lineup report 3\nbound 40\nlocal 0\nfail complete\nschedule 1 1 1 0 0 1 1 0 0 0\n",
            true,
        ),
        (RIGHT, SERIAL, false),
        (
            RIGHT,
            b"lineup report 3\nbound 9\nlocal 0\nfail complete\nschedule 0 0 0 1 1 0 0 1 1 1\n",
            false,
        ),
        (
            RIGHT,
            b"lineup report 3\nbound 40\nlocal 0\nfail stuck 0\nschedule 0 0 0 1 1 0 0 1 1 1\n",
            false,
        ),
        (
            RIGHT,
            b"lineup report 3\nbound 40\nlocal 1\nfail complete\nschedule 0 0 0 1 1 0 0 1 1 1\n",
            false,
        ),
        (
            RIGHT,
            b"lineup report 3\nbound 40\nlocal 0\npass\ncomplete 0\nstuck 0\ncut 0\n",
            false,
        ),
        (FORGIVING, SERIAL, true),
        (FORGIVING, LOST_AGAINST, false),
        // A report of the other kind of check.
        (RIGHT, LOST, false),
    ];
    for (row, (specification, report, expected)) in reports.iter().enumerate() {
        assert!(rt;
            confirmed_against(&rt, specification, report)? == *expected,
            "row {row}"
        );
    }
    Ok(())
}
