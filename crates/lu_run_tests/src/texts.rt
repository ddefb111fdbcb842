//! Texts of runs of a slot.

use lu_lang::read_component;
use lu_run::{RunFault, RunFaultKind, is_run_text, read_run, read_setup, write_run};
use lu_text::Fault;
use std::process::Abort;
use std::test::Fail;

const COMPONENT: &[u8] = b"component c
word x 1 0
op put 1
store x 0 r0
return 0
end
op take 0
load r0 x 0
return r0
end
";

/// The number of events and of different calls that the text says.
fn sizes(rt: &(impl AllocGlobal + Abort), text: &[u8]) -> Result<(usize, usize), Fail> {
    let component = read_component(rt.alloc(), COMPONENT)?;
    let run = read_run(rt.alloc(), &component, text)?;
    Ok((run.events.len(), run.calls.len()))
}

/// The fault of the text.
fn fault(rt: &(impl AllocGlobal + Abort), text: &[u8]) -> Result<RunFault, Fail> {
    let component = read_component(rt.alloc(), COMPONENT)?;
    match read_run(rt.alloc(), &component, text) {
        Ok(_) => Err(Fail::from("the text is a run")),
        Err(fault) => Ok(fault),
    }
}

fn at(kind: RunFaultKind, line: usize) -> RunFault {
    Fault::At(kind, line)
}

#[test]
fn runs_are_read(rt: HostRuntime) -> Result<(), Fail> {
    let short = sizes(
        &rt,
        b"# recorded\n\nrun\ncall 0 put 7 # 7\nreturn 0 ret 0\nstuck\n",
    )?;
    assert!(rt; short == (2, 1));
    let twice = sizes(
        &rt,
        b"run\ncall 0 put 7\ncall 1 put 8\nreturn 0 ret 0\ncall 0 put 7\ncall 7 take\nreturn 7 trap\n",
    )?;
    assert!(rt; twice == (6, 3));
    let none = sizes(&rt, b"run\n")?;
    assert!(rt; none == (0, 0));
    Ok(())
}

#[test]
fn faults_of_runs(rt: HostRuntime) -> Result<(), Fail> {
    assert!(rt; fault(&rt, b"run\ncall 0 take\xff\n")? == at(RunFaultKind::Byte, 2));
    assert!(rt; fault(&rt, b"call 0 take\n")? == at(RunFaultKind::Form, 1));
    assert!(rt; fault(&rt, b"# run\n")? == at(RunFaultKind::Form, 2));
    assert!(rt; fault(&rt, b"run\nrun\n")? == at(RunFaultKind::Form, 2));
    assert!(rt; fault(&rt, b"run\ncall 0\n")? == at(RunFaultKind::Form, 2));
    assert!(rt; fault(&rt, b"run\ncall 8 take\n")? == at(RunFaultKind::Number, 2));
    assert!(rt; fault(&rt, b"run\ncall 0 put x\n")? == at(RunFaultKind::Number, 2));
    assert!(rt; fault(&rt, b"run\ncall 0 get\n")? == at(RunFaultKind::Foreign, 2));
    assert!(rt; fault(&rt, b"run\ncall 0 put\n")? == at(RunFaultKind::Foreign, 2));
    assert!(rt; fault(&rt, b"run\ncall 0 take\ncall 0 take\n")? == at(RunFaultKind::Order, 3));
    assert!(rt; fault(&rt, b"run\nreturn 0 ret 1\n")? == at(RunFaultKind::Order, 2));
    assert!(rt; fault(&rt, b"run\nstuck\ncall 0 take\n")? == at(RunFaultKind::Order, 3));
    Ok(())
}

#[test]
fn a_long_text(rt: HostRuntime) -> Result<(), Fail> {
    let mut text = String::new(rt.alloc());
    text.push_str("run\n")?;
    for n in 0..30000u32 {
        let events = format!(in rt.alloc(); "call 3 put {n}\nreturn 3 ret 0\n")?;
        text.push_str(&events)?;
    }
    let long = sizes(&rt, text.as_bytes())?;
    assert!(rt; long == (60000, 30000));
    Ok(())
}

/// The text of the first events of the run that the text says.
fn written(rt: &(impl AllocGlobal + Abort), text: &[u8], count: usize) -> Result<String, Fail> {
    let component = read_component(rt.alloc(), COMPONENT)?;
    let run = read_run(rt.alloc(), &component, text)?;
    Ok(write_run(rt.alloc(), &component, &run, count)?)
}

#[test]
fn runs_are_written(rt: HostRuntime) -> Result<(), Fail> {
    let text =
        "run\ncall 0 put 7\ncall 1 take\nreturn 0 ret 0\nreturn 1 trap\ncall 0 put 7\nstuck\n";
    let whole = written(&rt, text.as_bytes(), 5)?;
    assert!(rt; whole.as_str() == text);
    let part = written(&rt, text.as_bytes(), 2)?;
    assert!(rt; part.as_str() == "run\ncall 0 put 7\ncall 1 take\n");
    Ok(())
}

/// The number of calls of the setup that the text says.
fn setup_size(rt: &(impl AllocGlobal + Abort), text: &[u8]) -> Result<usize, Fail> {
    let component = read_component(rt.alloc(), COMPONENT)?;
    match read_setup(rt.alloc(), &component, text) {
        Ok(matrix) => Ok(matrix.setup().as_slice().len()),
        Err(_) => Err(Fail::from("the text is no setup")),
    }
}

#[test]
fn setups_are_read(rt: HostRuntime) -> Result<(), Fail> {
    assert!(rt; setup_size(&rt, b"")? == 0);
    assert!(rt; setup_size(&rt, b"# before\nsetup put 7;take\n")? == 2);
    assert!(rt; setup_size(&rt, b"setup put 7\nthread take\n")? == 1);
    Ok(())
}

#[test]
fn texts_of_runs(rt: HostRuntime) -> Result<(), Fail> {
    assert!(rt; is_run_text(rt.alloc(), b"# recorded\n\n run # 7\n")?);
    assert!(rt; !is_run_text(rt.alloc(), b"running\n")?);
    assert!(rt; !is_run_text(rt.alloc(), b"thread put 7\nrun\n")?);
    assert!(rt; !is_run_text(rt.alloc(), b"")?);
    Ok(())
}
