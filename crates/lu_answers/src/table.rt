//! Tables of the serial histories.

ghost use Rattle.std.specs.Prelude.{◌≡◌};
ghost use Rattle.lu_answers.specs.Tables.{answer_in};

use lu_history::SerialOutcome;
use lu_linearization::{Automaton, SerialReader};
use std::marker::Model;

/// For each stage and each thread, the outcome of the thread's next call, and the stage to which it
/// leads. None where the call blocks.
#[derive(Drop)]
pub struct AnswerTable {
    pub(crate) rows: Vec<[Option<(SerialOutcome, u32)>; 8]>,
}

impl Model for AnswerTable {
    ghost use Rattle.std.specs.Prelude.{ℕ, List, Option};
    ghost use Rattle.lu_history.specs.declared.serial.SerialOutcome.{SerialOutcome};

    ghost Value = { List (List (Option (SerialOutcome × ℕ))) };

    ghost view = { λ table. table.rows.items };
}

impl AnswerTable {
    /// The table with these rows. There is one for each stage, with an answer for each thread.
    pub fn new(rows: Vec<[Option<(SerialOutcome, u32)>; 8]>) -> AnswerTable
        ensures { result ≡ rows.items }
    {
        AnswerTable { rows }
    }

    /// The answer to the thread's next call in the stage with this number.
    pub fn answer(&self, stage: u32, thread: u8) -> Option<(SerialOutcome, u32)>
        ensures { result ≡ answer_in self.now stage thread }
    {
        match self.rows.get(stage as usize) {
            None => None,
            Some(row) => match row.get(usize::from(thread)) {
                None => None,
                Some(answer) => *answer,
            },
        }
    }
}

impl Automaton for AnswerTable {
    ghost use Rattle.std.specs.Prelude.{[]};
    ghost use Rattle.lu_answers.specs.Tables.{Goes, table_of};

    type Call = u8;

    ghost next = { λ rows. Goes (table_of [] rows) };

    fn step(&self, state: u32, call: u8) -> Option<(SerialOutcome, u32)> {
        self.answer(state, call)
    }
}

impl SerialReader for AnswerTable {
    ghost use Rattle.std.specs.Prelude.{[]};
    ghost use Rattle.lu_answers.specs.Reading.{is_automaton as is_one, thread_in};
    ghost use Rattle.lu_answers.specs.Tables.{LeadsTo, table_of};

    ghost leads_to = { λ rows. LeadsTo (table_of [] rows) };

    ghost call_of = { λ _. thread_in };

    ghost is_automaton = { λ rows. is_one (table_of [] rows) };

    fn start(&self) -> u32 {
        0
    }
}
