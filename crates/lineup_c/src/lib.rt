//! lineup for programs in other languages: a static library, whose functions take bytes and
//! numbers.
//!
//! [`lineup_answer`] answers what the program answers to the words of a command line and a bundle.
//! [`lineup_state`] says where the first moves of a schedule lead, as numbers. Each call does all
//! on the calling thread and keeps nothing after: two calls may run at the same time.
#![tactic(auto)]

mod answering;
mod numbers;
mod playing;
mod room;
mod stack;

ghost use Rattle.lineup_c.specs.Calls.{TellsAnswer, TellsRun};

use crate::answering::answer_line;
use crate::numbers::number_of;
use crate::playing::{StateFault, state_of};
use crate::room::{fill, fill_numbers};
use std::alloc::{AllocError, Global};

/// Answers as the program does: `words` is its command line after `lineup`, with blanks between
/// the words, and `bundle` what it reads. Puts the answer's text into the room `text`, as much of
/// it as fits, and the whole length of it into `length`. Returns the exit status: 0 to 4.
///
/// `stack` says how many bytes of stack the caller has left. Where a command takes more by its
/// bounds, it is refused: `refused stack`, with status 2.
///
/// A caller whose room was too short calls again with more: the answer is the same.
#[unsafe(no_mangle)]
pub extern "C" fn lineup_answer(
    alloc: Global,
    words: &[u8],
    bundle: &[u8],
    stack: usize,
    text: &mut [u8],
    length: &mut usize,
) -> u8
    ensures { TellsAnswer words.now bundle.now stack text.old text.new length.new result }
{
    match answer_line(alloc, words, bundle, stack) {
        Ok(answer) => {
            *length = fill(text, answer.text.as_bytes());
            answer.status
        }
        Err(AllocError) => {
            *length = fill(text, b"refused memory\n");
            4
        }
    }
}

/// Says where the first moves of a schedule lead, at most this many: `shown` is the text of a
/// schedule, or of a report that shows one. Puts the numbers into the room, as many of them as fit,
/// and how many they are into `count`. Returns 0; or 1 where a move is not feasible,
/// whose number from 0 is then the one number; or 2 where a text is refused, without a number
/// (`lineup_answer` with `replay` says why); or 4 where memory was refused.
#[unsafe(no_mangle)]
pub extern "C" fn lineup_state(
    alloc: Global,
    component: &[u8],
    matrix: &[u8],
    shown: &[u8],
    moves: usize,
    room: &mut [u32],
    count: &mut usize,
) -> u8
    ensures { TellsRun result component.now matrix.now shown.now moves room.old room.new count.new }
{
    *count = 0;
    match state_of(alloc, component, matrix, shown, moves) {
        Ok(state) => {
            *count = fill_numbers(room, &state);
            0
        }
        Err(StateFault::Infeasible(number)) => {
            *count = fill_numbers(room, &[number_of(number)]);
            1
        }
        Err(StateFault::Refused) => 2,
        Err(StateFault::Memory) => 4,
    }
}
