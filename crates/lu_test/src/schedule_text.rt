//! Reading and writing of schedules.

ghost use Rattle.std.specs.Prelude.{◌≡◌, ◌==◌, ◌∷◌, List, IfOk, OnOk, Ok, not, length, string_bytes};
ghost use Rattle.std.specs.Option.{option_map};
ghost use Rattle.std.specs.List.{list_all};
ghost use Rattle.lu_text.specs.Lines.{texts};
ghost use Rattle.lu_text.specs.Numbers.{number_in};
ghost use Rattle.lu_text.specs.Writing.{Writes};
ghost use Rattle.lu_test.specs.Schedule.{AreMoves};
ghost use Rattle.lu_test.specs.ScheduleText.{GivesSchedule, SpellsMoves, schedule_text, move_text, schedule_of, move_of, one_line};
ghost use Rattle.lu_test.specs.ScheduleText as spec;

use crate::schedule::{MOST_LISTED_MOVES, Move, Schedule};
use crate::schedule_fault::ScheduleFault;
use lu_text::{is_number, number_up_to, parts_of, position_of};
use std::alloc::{AllocError, Global};

/// The move of a thread and a pick, which these words say.
fn move_with(thread: &[u8], pick: &[u8]) -> Result<Move, ScheduleFault>
    ensures { result ≡ spec.move_with (number_in thread.now) (number_in pick.now) }
{
    if !is_number(thread) || !is_number(pick) {
        return Err(ScheduleFault::Number);
    }
    let (Some(thread), Some(pick)) = (number_up_to(thread, 7), number_up_to(pick, 7)) else {
        return Err(ScheduleFault::Limit);
    };
    Ok(Move {
        thread: thread as u8,
        pick: pick as u8,
    })
}

/// The move that a word says: a thread, or a thread and a pick above 0 with a colon between them.
///
/// # Errors
///
/// [`ScheduleFault::Number`] where the word says no move, and [`ScheduleFault::Limit`] where its
/// thread or its pick is above 7.
#[tactic(auto, unfolding(crate::specs::ScheduleText::move_of))]
pub fn move_in(word: &[u8]) -> Result<Move, ScheduleFault>
    ensures { result ≡ move_of word.now }
{
    match position_of(b':', word) {
        None => move_with(word, b"0"),
        Some(colon) => {
            let (thread, pick) = (&word[..colon], &word[colon + 1..]);
            if pick == b"0".as_slice() {
                return Err(ScheduleFault::Number);
            }
            move_with(thread, pick)
        }
    }
}

pub(crate) fn line_in(text: &[u8]) -> Option<&[u8]>
    ensures { option_map (λ line. line.now) result ≡ one_line text.now }
{
    match position_of(b'\n', text) {
        Some(end) if end + 1 == text.len() => Some(&text[..end]),
        _ => None,
    }
}

fn are_words(words: &[&[u8]]) -> bool
    ensures { result ≡ list_all (λ word. not (length word.now == 0)) words.now }
{
    words.iter().all(|word| !word.is_empty())
}

pub(crate) fn has_form(words: &[&[u8]]) -> bool
    ensures { result ≡ spec.has_form (texts words.now) }
{
    match words {
        [] => false,
        [first, rest @ ..] => { *first == b"schedule".as_slice() && are_words(rest) }
    }
}

fn moves_of(alloc: Global, words: &[&[u8]]) -> Result<Schedule, ScheduleFault>
    ensures { GivesSchedule result (spec.moves_of 0 (texts words.now)) }
{
    let mut moves = Vec::new(alloc);
    for word in words {
        let next = move_in(word)?;
        if moves.len() == MOST_LISTED_MOVES {
            return Err(ScheduleFault::Limit);
        }
        moves.push(next)?;
    }
    Ok(Schedule::new(moves))
}

fn schedule_in(alloc: Global, text: &[u8]) -> Result<Schedule, ScheduleFault>
    ensures { GivesSchedule result (schedule_of text.now) }
{
    let Some(line) = line_in(text) else {
        return Err(ScheduleFault::Form);
    };
    let words = parts_of(alloc, b' ', line)?;
    if !has_form(&words) {
        return Err(ScheduleFault::Form);
    }
    moves_of(alloc, &words[1..])
}

/// Reads a schedule from its text. Each schedule has one spelling.
///
/// A fault is [`ScheduleFault::Form`] where the form of the whole text is wrong; else the first bad
/// word from the left decides, and of one word [`ScheduleFault::Number`] before
/// [`ScheduleFault::Limit`].
///
/// # Errors
///
/// The fault of the text, or that there is no memory for the schedule.
pub fn read_schedule(alloc: Global, text: &[u8]) -> Result<Schedule, ScheduleFault>
    // What is read is spelled so.
    ensures found { IfOk result (SpellsMoves text.now) }
    // What is spelled so is read, unless memory runs out.
    ensures only { (ms : List Move) → SpellsMoves text.now ms → GivesSchedule result (Ok ms) }
    // Which fault it is.
    ensures exact { GivesSchedule result (schedule_of text.now) }
{
    schedule_in(alloc, text)
}

/// Adds a space and a move at the end of a text.
fn put_move(text: &mut String, next: &Move) -> Result<(), AllocError>
    ensures { Writes result text.old text.new (32 ∷ move_text next.now) }
{
    if next.pick == 0 {
        write!(text, " {}", next.thread)?;
    } else {
        write!(text, " {}:{}", next.thread, next.pick)?;
    }
    Ok(())
}

/// The text of a schedule. Read again it is the same schedule.
///
/// # Errors
///
/// There is no memory for the text.
pub fn write_schedule(alloc: Global, schedule: &Schedule) -> Result<String, AllocError>
    ensures text { IfOk result (λ text. string_bytes text ≡ schedule_text schedule.now) }
    ensures again { IfOk result (λ text. schedule_of (string_bytes text) ≡ Ok schedule.now) }
    ensures moves { OnOk result (AreMoves schedule.now) }
{
    let mut text = String::from_str(alloc, "schedule")?;
    for next in schedule.moves() {
        put_move(&mut text, next)?;
    }
    text.push('\n')?;
    Ok(text)
}
