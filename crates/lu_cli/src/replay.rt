//! What a schedule shows.

ghost use Rattle.lu_text.specs.Lines.{texts};
ghost use Rattle.lu_cli.specs.Refusals.{Answered};
ghost use Rattle.lu_cli.specs.Replay as spec;
ghost use Rattle.lu_cli.specs.Replay.{Replays};

use crate::answer::{Answer, infeasible};
use crate::refusal::Refusal;
use crate::texts::read_texts;
use lu_machine::Test;
use lu_replay::{ReplayFault, replay, write_replay};
use lu_test::{Schedule, read_schedule};
use lu_text::exactly_three;
use std::alloc::{AllocError, Global};

/// What the schedule shows, or where it is infeasible.
fn play(alloc: Global, test: Test<'_>, schedule: &Schedule) -> Result<Answer, AllocError>
    ensures { Replays test.entry schedule.now result }
{
    match replay(alloc, test.component, test.matrix, schedule) {
        Ok(shown) => Ok(Answer {
            text: write_replay(alloc, &shown)?,
            status: 0,
        }),
        Err(ReplayFault::Infeasible(index)) => infeasible(alloc, index),
        Err(ReplayFault::Memory) => Err(AllocError),
    }
}

/// `lineup replay`: component, matrix and schedule.
pub(crate) fn answer_replay(alloc: Global, parts: &[&[u8]]) -> Result<Answer, Refusal>
    ensures { Answered (spec.IsAnswerToReplay (texts parts.now)) result }
{
    let (component, matrix, schedule) = exactly_three(parts).ok_or(Refusal::Parts)?;
    let case = read_texts(alloc, component, matrix)?;
    let schedule = read_schedule(alloc, schedule)?;
    let test = Test {
        component: &case.component,
        matrix: &case.matrix,
    };
    Ok(play(alloc, test, &schedule)?)
}
