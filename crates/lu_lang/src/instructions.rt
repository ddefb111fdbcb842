//! Reading of instructions.

ghost use Rattle.std.specs.Prelude.{◌≡◌, Some};
ghost use Rattle.std.specs.List.{position};
ghost use Rattle.std.specs.Str.{bytes_eq};
ghost use Rattle.lu_text.specs.Lines.{texts};
ghost use Rattle.lu_text.specs.Words.{exactly_one, exactly_two, exactly_three, exactly_five};
ghost use Rattle.lu_lang.specs.Grammar as spec;
ghost use Rattle.lu_text.specs.Results.{Builds};

use crate::draft::{ComponentDraft, Statement};
use crate::fault::LangFaultKind;
use crate::keyword::{Keyword, operand_in, register_in};
use lu_component::{Arithmetic, Array, Instr, MOST_PICKS, Operand};
use lu_text::{
    Name, exactly_five, exactly_one, exactly_three, exactly_two, has_name_form, is_long, value_in,
};
use std::alloc::{AllocError, Global};

fn array_among(arrays: &[Array], name: &[u8]) -> Option<usize>
    ensures { result ≡ position (λ a. bytes_eq a.name name.now) arrays.now }
{
    arrays.iter().position(|array| array.name.is(name))
}

/// The number of the array of this name among those declared so far.
pub fn array_number(draft: &ComponentDraft, name: &[u8]) -> Option<u8>
    ensures { result ≡ spec.found_array draft.now name.now }
{
    Some(array_among(&draft.arrays, name)? as u8)
}

fn lock_among(locks: &[Name], name: &[u8]) -> Option<usize>
    ensures { result ≡ position (λ l. bytes_eq l name.now) locks.now }
{
    locks.iter().position(|lock| lock.is(name))
}

/// The number of the lock of this name among those declared so far.
pub fn lock_number(draft: &ComponentDraft, name: &[u8]) -> Option<u8>
    ensures { result ≡ spec.found_lock draft.now name.now }
{
    Some(lock_among(&draft.locks, name)? as u8)
}

/// The number of the array of this name, which is to be short enough and declared.
fn declared_array(draft: &ComponentDraft, name: &[u8]) -> Result<u8, LangFaultKind>
    ensures { result ≡ spec.declared_array draft.now name.now }
{
    if is_long(name) {
        return Err(LangFaultKind::Limit);
    }
    match array_number(draft, name) {
        None => Err(LangFaultKind::Name),
        Some(number) => Ok(number),
    }
}

/// `set rD v`
fn set_line(words: &[&[u8]]) -> Result<Statement, LangFaultKind>
    ensures { result ≡ spec.set_line (exactly_two (texts words.now)) }
{
    let Some((to, value)) = exactly_two(words) else {
        return Err(LangFaultKind::Form);
    };
    let Some(to) = register_in(to) else {
        return Err(LangFaultKind::Form);
    };
    let Some(value) = operand_in(value) else {
        return Err(LangFaultKind::Number);
    };
    Ok(Statement::Plain(Instr::Set { to, value }))
}

/// `add rD a b`, `sub`, `mul`, `eq`, `lt`
fn compute_line(arithmetic: Arithmetic, words: &[&[u8]]) -> Result<Statement, LangFaultKind>
    ensures { result ≡ spec.compute_line arithmetic (exactly_three (texts words.now)) }
{
    let Some((to, left, right)) = exactly_three(words) else {
        return Err(LangFaultKind::Form);
    };
    let Some(to) = register_in(to) else {
        return Err(LangFaultKind::Form);
    };
    let (Some(left), Some(right)) = (operand_in(left), operand_in(right)) else {
        return Err(LangFaultKind::Number);
    };
    Ok(Statement::Plain(Instr::Compute {
        arithmetic,
        to,
        left,
        right,
    }))
}

/// `load rD W i`
fn load_line(draft: &ComponentDraft, words: &[&[u8]]) -> Result<Statement, LangFaultKind>
    ensures { result ≡ spec.load_line draft.now (exactly_three (texts words.now)) }
{
    let Some((to, array, index)) = exactly_three(words) else {
        return Err(LangFaultKind::Form);
    };
    let Some(to) = register_in(to) else {
        return Err(LangFaultKind::Form);
    };
    if !has_name_form(array) {
        return Err(LangFaultKind::Form);
    }
    let Some(index) = operand_in(index) else {
        return Err(LangFaultKind::Number);
    };
    let array = declared_array(draft, array)?;
    Ok(Statement::Plain(Instr::Load { to, array, index }))
}

/// `cas rD W i old new`
fn cas_line(draft: &ComponentDraft, words: &[&[u8]]) -> Result<Statement, LangFaultKind>
    ensures { result ≡ spec.cas_line draft.now (exactly_five (texts words.now)) }
{
    let Some((to, array, index, expected, desired)) = exactly_five(words) else {
        return Err(LangFaultKind::Form);
    };
    let Some(to) = register_in(to) else {
        return Err(LangFaultKind::Form);
    };
    if !has_name_form(array) {
        return Err(LangFaultKind::Form);
    }
    let (Some(index), Some(expected), Some(desired)) = (
        operand_in(index),
        operand_in(expected),
        operand_in(desired),
    ) else {
        return Err(LangFaultKind::Number);
    };
    let array = declared_array(draft, array)?;
    Ok(Statement::Plain(Instr::Cas {
        to,
        array,
        index,
        expected,
        desired,
    }))
}

/// The lock of `lock L` and `unlock L`.
fn read_lock(draft: &ComponentDraft, words: &[&[u8]]) -> Result<u8, LangFaultKind>
    ensures { result ≡ spec.locked draft.now (exactly_one (texts words.now)) }
{
    let Some(lock) = exactly_one(words) else {
        return Err(LangFaultKind::Form);
    };
    if !has_name_form(lock) {
        return Err(LangFaultKind::Form);
    }
    if is_long(lock) {
        return Err(LangFaultKind::Limit);
    }
    let Some(lock) = lock_number(draft, lock) else {
        return Err(LangFaultKind::Name);
    };
    Ok(lock)
}

/// The array, the index and the value of `store W i v`, `await W i v` and `awaitne W i v`.
fn cell_and_value(
    draft: &ComponentDraft,
    words: &[&[u8]],
) -> Result<(u8, Operand, Operand), LangFaultKind>
    ensures { result ≡ spec.cell_and_value draft.now (exactly_three (texts words.now)) }
{
    let Some((array, index, value)) = exactly_three(words) else {
        return Err(LangFaultKind::Form);
    };
    if !has_name_form(array) {
        return Err(LangFaultKind::Form);
    }
    let (Some(index), Some(value)) = (operand_in(index), operand_in(value)) else {
        return Err(LangFaultKind::Number);
    };
    Ok((declared_array(draft, array)?, index, value))
}

/// `pick rD K`
fn pick_line(words: &[&[u8]]) -> Result<Statement, LangFaultKind>
    ensures { result ≡ spec.pick_line (exactly_two (texts words.now)) }
{
    let Some((to, count)) = exactly_two(words) else {
        return Err(LangFaultKind::Form);
    };
    let Some(to) = register_in(to) else {
        return Err(LangFaultKind::Form);
    };
    let Some(count) = value_in(count) else {
        return Err(LangFaultKind::Number);
    };
    if count < 1 || count > MOST_PICKS {
        return Err(LangFaultKind::Limit);
    }
    let count = count as u8;
    Ok(Statement::Plain(Instr::Pick { to, count }))
}

/// `jump LABEL`
fn jump_line(alloc: Global, words: &[&[u8]]) -> Result<Result<Statement, LangFaultKind>, AllocError>
    ensures { Builds result (spec.jump_line (exactly_one (texts words.now))) }
{
    let Some(label) = exactly_one(words) else {
        return Ok(Err(LangFaultKind::Form));
    };
    if !has_name_form(label) {
        return Ok(Err(LangFaultKind::Form));
    }
    if is_long(label) {
        return Ok(Err(LangFaultKind::Limit));
    }
    Ok(Ok(Statement::Jump(Name::new(alloc, label)?)))
}

/// `jz v LABEL`
fn jump_if_zero_line(
    alloc: Global,
    words: &[&[u8]],
) -> Result<Result<Statement, LangFaultKind>, AllocError>
    ensures { Builds result (spec.jump_if_zero_line (exactly_two (texts words.now))) }
{
    let Some((value, label)) = exactly_two(words) else {
        return Ok(Err(LangFaultKind::Form));
    };
    if !has_name_form(label) {
        return Ok(Err(LangFaultKind::Form));
    }
    let Some(value) = operand_in(value) else {
        return Ok(Err(LangFaultKind::Number));
    };
    if is_long(label) {
        return Ok(Err(LangFaultKind::Limit));
    }
    Ok(Ok(Statement::JumpIfZero(value, Name::new(alloc, label)?)))
}

/// `return v`
fn return_line(words: &[&[u8]]) -> Result<Statement, LangFaultKind>
    ensures { result ≡ spec.return_line (exactly_one (texts words.now)) }
{
    let Some(value) = exactly_one(words) else {
        return Err(LangFaultKind::Form);
    };
    let Some(value) = operand_in(value) else {
        return Err(LangFaultKind::Number);
    };
    Ok(Statement::Plain(Instr::Return(value)))
}

/// The instruction of a line, or the first fault that it has.
pub fn statement(
    alloc: Global,
    draft: &ComponentDraft,
    keyword: Option<Keyword>,
    words: &[&[u8]],
) -> Result<Result<Statement, LangFaultKind>, AllocError>
    ensures { Builds result (spec.statement draft.now keyword (texts words.now)) }
{
    let Some(keyword) = keyword else {
        return Ok(Err(LangFaultKind::Form));
    };
    match keyword {
        Keyword::Set => Ok(set_line(words)),
        Keyword::Compute(arithmetic) => Ok(compute_line(arithmetic, words)),
        Keyword::Load => Ok(load_line(draft, words)),
        Keyword::Store => Ok(cell_and_value(draft, words).map(|(array, index, value)| {
            Statement::Plain(Instr::Store {
                array,
                index,
                value,
            })
        })),
        Keyword::Cas => Ok(cas_line(draft, words)),
        Keyword::Lock => Ok(
            read_lock(draft, words)
                .map(Instr::Lock)
                .map(Statement::Plain),
        ),
        Keyword::Unlock => Ok(
            read_lock(draft, words)
                .map(Instr::Unlock)
                .map(Statement::Plain),
        ),
        Keyword::Await => Ok(cell_and_value(draft, words).map(|(array, index, value)| {
            Statement::Plain(Instr::Await {
                array,
                index,
                value,
            })
        })),
        Keyword::AwaitNot => Ok(cell_and_value(draft, words).map(|(array, index, value)| {
            Statement::Plain(Instr::AwaitNot {
                array,
                index,
                value,
            })
        })),
        Keyword::Pick => Ok(pick_line(words)),
        Keyword::Jump => jump_line(alloc, words),
        Keyword::JumpIfZero => jump_if_zero_line(alloc, words),
        Keyword::Return => Ok(return_line(words)),
    }
}
