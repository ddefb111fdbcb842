//! What each move of a schedule does.

ghost use Rattle.lu_cli.specs.Trace.{RefusesTrace, Traces, WritesTrace};

use crate::answer::{Answer, infeasible};
use crate::request::{TraceStart, Tracing};
use lu_machine::Test;
use lu_test::Schedule;
use lu_trace::{TraceFault, Wording, write_worded_trace, write_worded_trace_from_setup};
use std::alloc::{AllocError, Global};

/// The text of the trace of the schedule.
fn write_trace(
    alloc: Global,
    tracing: Tracing,
    how: Wording<'_>,
    test: Test<'_>,
    schedule: &Schedule,
) -> Result<String, TraceFault>
    ensures trace { WritesTrace tracing how.entry test.entry schedule.now result }
    ensures fault { RefusesTrace test.entry schedule.now result }
{
    let Test { component, matrix } = test;
    let Tracing { start, detail } = tracing;
    match start {
        TraceStart::FirstMove => {
            write_worded_trace(alloc, detail, &how, component, matrix, schedule)
        }
        TraceStart::Setup => {
            write_worded_trace_from_setup(alloc, detail, &how, component, matrix, schedule)
        }
    }
}

/// The trace of the schedule, or where it is infeasible.
pub(crate) fn trace(
    alloc: Global,
    tracing: Tracing,
    how: Wording<'_>,
    test: Test<'_>,
    schedule: &Schedule,
) -> Result<Answer, AllocError>
    ensures { Traces tracing how.entry test.entry schedule.now result }
{
    match write_trace(alloc, tracing, how, test, schedule) {
        Ok(text) => Ok(Answer { text, status: 0 }),
        Err(TraceFault::Infeasible(index)) => infeasible(alloc, index),
        Err(TraceFault::Memory) => Err(AllocError),
    }
}
