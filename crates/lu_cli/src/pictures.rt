//! Pictures of schedules.

ghost use Rattle.lu_cli.specs.Pictures.{Draws, DrawsWhy, Pictures};
ghost use Rattle.lu_cli.specs.Trace.{RefusesTrace};

use crate::answer::{Answer, infeasible};
use lu_machine::Test;
use lu_picture::{Diagnosis, write_worded_picture};
use lu_test::Schedule;
use lu_trace::{TraceFault, Wording};
use std::alloc::{AllocError, Global};

/// The picture of a schedule in these words, with why it fails.
fn picture(
    alloc: Global,
    how: Wording<'_>,
    test: Test<'_>,
    schedule: &Schedule,
    why: Diagnosis<'_>,
) -> Result<String, TraceFault>
    ensures picture { Pictures how.entry why.entry test.entry schedule.now result }
    ensures fault { RefusesTrace test.entry schedule.now result }
{
    write_worded_picture(alloc, &how, test.component, test.matrix, schedule, why)
}

/// The picture of a schedule, with why it fails, or where the schedule is infeasible.
pub(crate) fn draw_why(
    alloc: Global,
    how: Wording<'_>,
    test: Test<'_>,
    schedule: &Schedule,
    why: Diagnosis<'_>,
) -> Result<Answer, AllocError>
    ensures { DrawsWhy how.entry why.entry test.entry schedule.now result }
{
    match picture(alloc, how, test, schedule, why) {
        Ok(text) => Ok(Answer { text, status: 0 }),
        Err(TraceFault::Infeasible(index)) => infeasible(alloc, index),
        Err(TraceFault::Memory) => Err(AllocError),
    }
}

/// The picture of a schedule, or where the schedule is infeasible.
pub(crate) fn draw(
    alloc: Global,
    how: Wording<'_>,
    test: Test<'_>,
    schedule: &Schedule,
) -> Result<Answer, AllocError>
    ensures { Draws how.entry test.entry schedule.now result }
{
    let why = Diagnosis {
        explanation: None,
        broken: None,
    };
    draw_why(alloc, how, test, schedule, why)
}
