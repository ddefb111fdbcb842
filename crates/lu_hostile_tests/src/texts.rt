//! Each kind of text, bent in every way.

ghost use Rattle.lu_test.specs.Matrix.{IsOf};

use crate::bent::{ReadCounts, TextOutcome, Texts, try_all, try_beginnings};
use lu_component::Component;
use lu_fixtures::ROWS;
use lu_lang::{read_component, write_component};
use lu_recorded::{Recorded, read_recorded, write_recorded};
use lu_report::{read_report, write_report};
use lu_source_text::compile_text;
use lu_spec::{read_spec, write_spec};
use lu_test::{Matrix, ScheduleFault, read_matrix, read_schedule, write_matrix, write_schedule};
use lu_text::Fault;
use std::process::Abort;
use std::test::Fail;

/// The text was refused on the fault's line.
fn refused_on<K: Drop>(rt: &impl Abort, fault: Fault<K>) -> TextOutcome {
    match fault {
        Fault::At(_, line) => TextOutcome::Refused(line),
        Fault::Memory => panic!(rt; "memory"),
    }
}

/// What was read is written as the text of which it was read.
fn has_one_spelling<X: AllocGlobal + Abort>(rt: &X, written: &str, text: &[u8]) -> TextOutcome {
    assert!(rt; written.as_bytes() == text);
    TextOutcome::Read
}

/// What is written of what was read is written of what is read of that.
fn comes_back<X: AllocGlobal + Abort>(rt: &X, written: &str, again: &str) -> TextOutcome {
    assert!(rt; again == written);
    TextOutcome::Read
}

/// The component that was read is read again from what is written of it.
fn component_comes_back<X: AllocGlobal + Abort>(
    rt: &X,
    component: &Component,
) -> Result<TextOutcome, Fail> {
    let written = write_component(rt.alloc(), component)?;
    let again = component_again(rt, written.as_bytes())?;
    Ok(comes_back(rt, written.as_str(), again.as_str()))
}

/// The text of the component that is read from this one.
fn component_again(rt: &impl AllocGlobal, text: &[u8]) -> Result<String, Fail> {
    let component = read_component(rt.alloc(), text)?;
    Ok(write_component(rt.alloc(), &component)?)
}

/// Texts of components.
struct Components;

impl Texts for Components {
    fn outcome<X: AllocGlobal + Abort>(&self, rt: &X, text: &[u8]) -> Result<TextOutcome, Fail> {
        match read_component(rt.alloc(), text) {
            Ok(component) => component_comes_back(rt, &component),
            Err(fault) => Ok(refused_on(rt, fault)),
        }
    }
}

/// The text of the matrix that is read from this one.
fn matrix_again(rt: &impl AllocGlobal, component: &Component, text: &[u8]) -> Result<String, Fail> {
    let matrix = read_matrix(rt.alloc(), component, text)?;
    Ok(write_matrix(rt.alloc(), component, &matrix)?)
}

/// Texts of matrices of a component.
#[derive(Drop)]
struct Matrices {
    component: Component,
}

impl Matrices {
    /// The matrix that was read is read again from what is written of it.
    fn comes_back<X: AllocGlobal + Abort>(
        &self,
        rt: &X,
        matrix: &Matrix,
    ) -> Result<TextOutcome, Fail>
        requires { IsOf matrix.now self.now.component }
    {
        let written = write_matrix(rt.alloc(), &self.component, matrix)?;
        let again = matrix_again(rt, &self.component, written.as_bytes())?;
        Ok(comes_back(rt, written.as_str(), again.as_str()))
    }
}

impl Texts for Matrices {
    fn outcome<X: AllocGlobal + Abort>(&self, rt: &X, text: &[u8]) -> Result<TextOutcome, Fail> {
        match read_matrix(rt.alloc(), &self.component, text) {
            Ok(matrix) => self.comes_back(rt, &matrix),
            Err(fault) => Ok(refused_on(rt, fault)),
        }
    }
}

/// Texts of schedules, each of which has one spelling.
struct Schedules;

impl Texts for Schedules {
    fn outcome<X: AllocGlobal + Abort>(&self, rt: &X, text: &[u8]) -> Result<TextOutcome, Fail> {
        match read_schedule(rt.alloc(), text) {
            Ok(schedule) => {
                let written = write_schedule(rt.alloc(), &schedule)?;
                Ok(has_one_spelling(rt, written.as_str(), text))
            }
            Err(ScheduleFault::Memory) => panic!(rt; "memory"),
            Err(_) => Ok(TextOutcome::Refused(1)),
        }
    }
}

/// Texts of reports, each of which has one spelling.
struct Reports;

impl Texts for Reports {
    fn outcome<X: AllocGlobal + Abort>(&self, rt: &X, text: &[u8]) -> Result<TextOutcome, Fail> {
        match read_report(rt.alloc(), text) {
            Ok(report) => {
                let written = write_report(rt.alloc(), &report)?;
                Ok(has_one_spelling(rt, written.as_str(), text))
            }
            Err(fault) => Ok(refused_on(rt, fault)),
        }
    }
}

/// Texts of specifications of a matrix, each of which has one spelling.
#[derive(Drop)]
struct Specs {
    matrix: Matrix,
}

impl Texts for Specs {
    fn outcome<X: AllocGlobal + Abort>(&self, rt: &X, text: &[u8]) -> Result<TextOutcome, Fail> {
        match read_spec(rt.alloc(), &self.matrix, text) {
            Ok(spec) => {
                let written = write_spec(rt.alloc(), &spec)?;
                Ok(has_one_spelling(rt, written.as_str(), text))
            }
            Err(fault) => Ok(refused_on(rt, fault)),
        }
    }
}

/// The text of the recorded history that is read from this one.
fn recorded_again(rt: &impl AllocGlobal, matrix: &Matrix, text: &[u8]) -> Result<String, Fail> {
    let recorded = read_recorded(rt.alloc(), matrix, text)?;
    Ok(write_recorded(rt.alloc(), &recorded)?)
}

/// Texts of recorded histories of a matrix.
#[derive(Drop)]
struct Histories {
    matrix: Matrix,
}

impl Histories {
    /// The history that was read is read again from what is written of it.
    fn comes_back<X: AllocGlobal + Abort>(
        &self,
        rt: &X,
        recorded: &Recorded,
    ) -> Result<TextOutcome, Fail> {
        let written = write_recorded(rt.alloc(), recorded)?;
        let again = recorded_again(rt, &self.matrix, written.as_bytes())?;
        Ok(comes_back(rt, written.as_str(), again.as_str()))
    }
}

impl Texts for Histories {
    fn outcome<X: AllocGlobal + Abort>(&self, rt: &X, text: &[u8]) -> Result<TextOutcome, Fail> {
        match read_recorded(rt.alloc(), &self.matrix, text) {
            Ok(recorded) => self.comes_back(rt, &recorded),
            Err(fault) => Ok(refused_on(rt, fault)),
        }
    }
}

/// Texts of sources, each compiled to a component that is read again from its own text.
struct Sources;

impl Texts for Sources {
    fn outcome<X: AllocGlobal + Abort>(&self, rt: &X, text: &[u8]) -> Result<TextOutcome, Fail> {
        match compile_text(rt.alloc(), text) {
            Ok(component) => component_comes_back(rt, &component),
            Err(fault) => Ok(refused_on(rt, fault)),
        }
    }
}

/// A component with what the one of the worked examples doesn't have: comments, an empty line, more
/// blanks, `local`.
const LOCAL: &[u8] =
    b"# two\n component  small\nlocal 16\n\nword x 1 0\t# a cell\nlock m\nop f 1\nagain: lock m\nset r1 4294967295\n\
awaitne x r0 r1 # others\njz r0 again\nunlock m\nreturn r1\nend\n";

/// The beginnings that are components are those after each line of a declaration and of an `end`,
/// with its LF or without, and the whole.
#[test]
fn beginnings_of_a_component_are_read_or_refused(rt: HostRuntime) -> Result<(), Fail> {
    let mut tally = ReadCounts {
        read: 0,
        refused: 0,
    };
    try_beginnings(&rt, &Components, ROWS.as_bytes(), &mut tally)?;
    assert_eq!(rt;
        tally,
        ReadCounts {
            read: 47,
            refused: 739
        }
    );
    Ok(())
}

#[test]
fn components_are_read_or_refused(rt: HostRuntime) -> Result<(), Fail> {
    let rows = try_all(&rt, &Components, ROWS.as_bytes())?;
    assert_eq!(rt;
        rows,
        ReadCounts {
            read: 981,
            refused: 11056
        }
    );
    let local = try_all(&rt, &Components, LOCAL)?;
    assert_eq!(rt;
        local,
        ReadCounts {
            read: 402,
            refused: 2041
        }
    );
    Ok(())
}

/// Loops and compare-and-swap; locks, conditions and expressions; waits, exchanges and choices; and
/// several statements on a line.
const SOURCES: [&[u8]; 4] = [
    b"object stack # of nodes\nconst NONE = 0\nword top = NONE\nword next[4] = NONE\n\nop push(node) {\n\
loop {\nlet head = top\nnext[node] = head\nif cas(top, head, node) {\nreturn 0\n}\n}\n}\n",
    b"object account\nlocal 2\nword left = 7\nlock m\nop take(n) {\nlock m\nif n <= left && !(n == 0) {\n\
left = left - n * 2 + 0 * pick(2)\n} else if n > 9 || left {\nunlock m\nreturn\n} else {\nleft = 1\n}\nunlock m\n\
return left\n}\n",
    b"object turn\nword now\nword seen[2] = 4294967295\nop next(me) {\nawait now == me\nlet i = 0\n\
while i < 2 {\nseen[i] = me\ni = i + 1\nif seen[0] != me {\ncontinue\n}\nbreak\n}\nnow = 1 - me\n\
await seen[1] != 0\nreturn i\n}\n",
    b"object few // of all\nconst N = 2 * -1\nword x[3 - 1] = N\nop f(n) {\nx[n] += 1; n -= 3\nif n { assert x[0] }\n\
loop { break }\n}\n",
];

#[test]
fn sources_are_compiled_or_refused(rt: HostRuntime) -> Result<(), Fail> {
    let mut all = ReadCounts {
        read: 0,
        refused: 0,
    };
    for text in &SOURCES {
        assert!(rt; compile_text(rt.alloc(), text).is_ok());
        let tally = try_all(&rt, &Sources, text)?;
        all.read = all.read.saturating_add(tally.read);
        all.refused = all.refused.saturating_add(tally.refused);
    }
    assert_eq!(rt;
        all,
        ReadCounts {
            read: 1303,
            refused: 9537
        }
    );
    Ok(())
}

#[test]
fn matrices_are_read_or_refused(rt: HostRuntime) -> Result<(), Fail> {
    let texts = Matrices {
        component: read_component(rt.alloc(), ROWS.as_bytes())?,
    };
    let tally = try_all(
        &rt,
        &texts,
        b"# calls\nthread inc;wrap 70\n\n thread get ; inc # two\nthread\n",
    )?;
    assert_eq!(rt;
        tally,
        ReadCounts {
            read: 213,
            refused: 688
        }
    );
    Ok(())
}

#[test]
fn schedules_are_read_or_refused(rt: HostRuntime) -> Result<(), Fail> {
    let tally = try_all(&rt, &Schedules, b"schedule 0 1:1 0 7:2 3\n")?;
    assert_eq!(rt;
        tally,
        ReadCounts {
            read: 17,
            refused: 332
        }
    );
    Ok(())
}

#[test]
fn reports_are_read_or_refused(rt: HostRuntime) -> Result<(), Fail> {
    let mut all = ReadCounts {
        read: 0,
        refused: 0,
    };
    for text in &[
        b"lineup report 1\nbound 40\nserial 256\npass\ncomplete 2564\nstuck 0\ncut 18446744073709551615\n".as_slice(),
        b"lineup report 1\nbound 40\nserial 40\nfail complete\nschedule 0 0 0 1 1 0 0 1 1 1\n",
        b"lineup report 1\nbound 0\nserial 1\nfail stuck 7\nschedule 0 0 1:1 1\n",
        b"lineup report 1\nbound 40\nserial 40\nnondeterministic\nschedule 0 0:1 0\nbefore 15\nearlier ret 4294967295\n",
        b"lineup report 1\nbound 40\nserial 40\nnondeterministic\nschedule 0 0:1\nbefore 0\nearlier stuck\n",
        b"lineup report 1\nbound 40\nserial 3\nserial-cut\nschedule 0 0 0 0\n",
        b"lineup report 2\nbound 40\nserial 40\nlocal 16\nfail complete\nschedule 0 0 1 1 0 0 1 1\n",
        b"lineup report 3\nbound 40\nlocal 0\nfail stuck 7\nschedule 0 0 0 1 1 0 0 1 1 1\n",
        b"lineup report 3\nbound 3\nlocal 16\npass\ncomplete 0\nstuck 0\ncut 1\n",
    ] {
        let tally = try_all(&rt, &Reports, text)?;
        all.read = all.read.saturating_add(tally.read);
        all.refused = all.refused.saturating_add(tally.refused);
    }
    assert_eq!(rt;
        all,
        ReadCounts {
            read: 286,
            refused: 10475
        }
    );
    Ok(())
}

#[test]
fn specifications_are_read_or_refused(rt: HostRuntime) -> Result<(), Fail> {
    let component = read_component(rt.alloc(), ROWS.as_bytes())?;
    let texts = Specs {
        matrix: read_matrix(rt.alloc(), &component, b"thread inc\nthread inc;get\n")?,
    };
    let text =
        b"lineup spec 1\nhistory 0=1 1=2 1=2\nhistory 1=1 0=2 1=trap\nhistory 1=1 1=1 0=stuck\n";
    let tally = try_all(&rt, &texts, text)?;
    assert_eq!(rt;
        tally,
        ReadCounts {
            read: 40,
            refused: 1188
        }
    );
    Ok(())
}

/// One with comments and pending calls that says `stuck`.
#[test]
fn recorded_histories_are_read_or_refused(rt: HostRuntime) -> Result<(), Fail> {
    let component = read_component(rt.alloc(), ROWS.as_bytes())?;
    let texts = Histories {
        matrix: read_matrix(rt.alloc(), &component, b"thread inc\nthread inc;get\n")?,
    };
    let text =
        b"# 26 runs\ncall 0 0\n call 1 0\nreturn 1 0 ret 42\t# the first\ncall 1 1\nreturn 0 0 trap\n\nstuck\n";
    let tally = try_all(&rt, &texts, text)?;
    assert_eq!(rt;
        tally,
        ReadCounts {
            read: 314,
            refused: 1076
        }
    );
    Ok(())
}
