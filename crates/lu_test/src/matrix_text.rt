//! Reading of matrices.

ghost use Rattle.std.specs.Prelude.{◌≡◌, ◌==◌, ◌||◌, ◌+◌, ◌∷◌, ◌^◌, ◌<◌, ◌≤◌, ℕ, [], IfOk, Ok, Some, length, map, drop, sum_by, is_some};
ghost use Rattle.std.specs.Option.{option_copied, unwrap_or};
ghost use Rattle.std.specs.List.{filter_map, list_all};
ghost use Rattle.lu_test.specs.declared.matrix.TheConstants.{MOST_CALLS};
ghost use Rattle.lu_text.specs.Lines.{texts, words_of};
ghost use Rattle.lu_text.specs.Numbers.{value_in};
ghost use Rattle.lu_text.specs.Faults.{Gives, TellsFirst, fault_in, meaning_of};
ghost use Rattle.lu_component.specs.Component.{IsComponent};
ghost use Rattle.lu_test.specs.Matrix.{IsOf, IsOfSome};
ghost use Rattle.lu_test.specs.MatrixText as spec;
ghost use Rattle.lu_test.specs.MatrixText.{AreFew, CanRead, IsDraft, by_parts, calls_after, matrix_grammar, with_setup, with_thread, words_in};
ghost use Rattle.lu_test.specs.MatrixLines.{Takes, by_words};
ghost use Rattle.lu_test.specs.Signatures.{signatures as spec_signatures};
ghost use Rattle.lu_text.specs.Results.{Builds, HasItems};

use crate::matrix::{
    Arguments, Call, Calls, MOST_CALLS, MOST_CALLS_OF_THREAD, MOST_THREADS, Matrix,
};
use crate::matrix_fault::{MatrixFault, MatrixFaultKind};
use crate::signature::{Signature, signature_number, signatures_of};
use lu_component::Component;
use lu_text::{Fault, are_allowed, before_comment, lines_of, parts_of, value_in, words_of};
use std::alloc::{AllocError, Global};
use std::marker::Model;

/// The words of one part of a line.
#[derive(Drop)]
struct Part<'a> {
    words: Vec<&'a [u8]>,
}

impl<'a> Model for Part<'a> {
    ghost use Rattle.std.specs.Prelude.{ℕ, List};
    ghost use Rattle.lu_text.specs.Lines.{texts, words_of};

    ghost Value = { List (List ℕ) };

    ghost view = { λ p. texts p.words.items };
}

impl<'a> Part<'a> {
    /// The part's words.
    fn new(alloc: Global, text: &'a [u8]) -> Result<Part<'a>, AllocError>
        ensures { Builds result (words_of text.entry.now) }
    {
        Ok(Part {
            words: words_of(alloc, text)?,
        })
    }
}

impl Part<'_> {
    /// The words after the first.
    #[tactic(auto, using(crate::proofs::Parts::rest_texts))]
    fn arguments(&self) -> &[&[u8]]
        ensures { texts result.now ≡ drop 1 self.now }
    {
        let first = self.words.len().min(1);
        &self.words[first..]
    }

    fn has_name(&self) -> bool
        ensures { result ≡ spec.has_name self.now }
    {
        !self.words.is_empty()
    }
}

/// The number of the signature that a part's first word names.
fn named_operation(signatures: &[Signature<'_>], part: &Part<'_>) -> Option<usize>
    ensures { result ≡ spec.named_operation signatures.now part.now }
{
    match part.words.as_slice() {
        [] => None,
        [name, ..] => signature_number(signatures, name),
    }
}

/// The signature that a part's first word names.
fn signature_of<'a, 'b>(
    signatures: &'a [Signature<'b>],
    part: &Part<'_>,
) -> Option<&'a Signature<'b>>
    ensures { option_copied result ≡ spec.signature_of signatures.now part.now }
{
    signatures.get(named_operation(signatures, part)?)
}

fn has_operation(signatures: &[Signature<'_>], part: &Part<'_>) -> bool
    ensures { result ≡ spec.has_operation signatures.now part.now }
{
    named_operation(signatures, part).is_some()
}

/// Whether there are as many arguments as the operation takes.
fn has_arguments(signatures: &[Signature<'_>], part: &Part<'_>) -> bool
    ensures { result ≡ spec.has_arguments signatures.now part.now }
{
    match signature_of(signatures, part) {
        None => false,
        Some(signature) => signature.takes(part.arguments().len()),
    }
}

/// The words of the arguments, which are looked at where it is known how many there are to be.
fn argument_words<'a>(signatures: &[Signature<'_>], part: &'a Part<'_>) -> &'a [&'a [u8]]
    ensures { texts result.now ≡ spec.argument_words signatures.now part.entry.now }
{
    match signature_of(signatures, part) {
        Some(signature) if signature.arity.is_some() => part.arguments(),
        _ => &[],
    }
}

fn are_values(words: &[&[u8]]) -> bool
    ensures { result ≡ list_all (λ word. is_some (value_in word.now)) words.now }
{
    words.iter().all(|word| value_in(word).is_some())
}

fn has_values(signatures: &[Signature<'_>], part: &Part<'_>) -> bool
    ensures { result ≡ spec.has_values signatures.now part.now }
{
    are_values(argument_words(signatures, part))
}

fn all_have_names(parts: &[Part<'_>]) -> bool
    ensures { result ≡ list_all spec.has_name parts.now }
{
    parts.iter().all(|part| part.has_name())
}

fn all_have_operations(signatures: &[Signature<'_>], parts: &[Part<'_>]) -> bool
    ensures { result ≡ list_all (spec.has_operation signatures.now) parts.now }
{
    parts.iter().all(|part| has_operation(signatures, part))
}

fn all_have_arguments(signatures: &[Signature<'_>], parts: &[Part<'_>]) -> bool
    ensures { result ≡ list_all (spec.has_arguments signatures.now) parts.now }
{
    parts.iter().all(|part| has_arguments(signatures, part))
}

fn all_have_values(signatures: &[Signature<'_>], parts: &[Part<'_>]) -> bool
    ensures { result ≡ list_all (spec.has_values signatures.now) parts.now }
{
    parts.iter().all(|part| has_values(signatures, part))
}

/// The numbers that the words are.
fn values_of(alloc: Global, words: &[&[u8]]) -> Result<Vec<u32>, AllocError>
    ensures { HasItems result (filter_map (λ w. value_in w.now) words.now) }
{
    words
        .iter()
        .filter_map(|word| value_in(word))
        .collect(alloc)
}

fn arguments_of(
    alloc: Global,
    signatures: &[Signature<'_>],
    part: &Part<'_>,
) -> Result<Arguments, AllocError>
    ensures { Builds result (spec.arguments_in signatures.now part.now) }
{
    let numbers = values_of(alloc, argument_words(signatures, part))?;
    Ok(Arguments::new(numbers))
}

/// The calls that the parts say.
fn calls_said(
    alloc: Global,
    signatures: &[Signature<'_>],
    parts: &[Part<'_>],
) -> Result<Vec<Call>, AllocError>
    requires { AreFew signatures.now }
    ensures { HasItems result (spec.calls_said signatures.now parts.now) }
{
    let mut calls = Vec::with_capacity(alloc, parts.len())?;
    for part in parts {
        match named_operation(signatures, part) {
            None => {}
            Some(number) => calls.push(Call {
                op: number as u8,
                args: arguments_of(alloc, signatures, part)?,
            })?,
        }
    }
    Ok(calls)
}

/// The lines of a matrix of which not all are read.
#[derive(Debug, Drop)]
pub struct MatrixDraft {
    /// Of the setup line, where there was one.
    pub setup: Option<Calls>,
    pub threads: Vec<Calls>,
}

impl Model for MatrixDraft {
    ghost use Rattle.lu_test.specs.MatrixText.{MatrixDraft as AMatrixDraft};

    ghost Value = { AMatrixDraft };

    ghost view = { λ d. record { setup = d.setup; threads = d.threads.items } };
}

impl MatrixDraft {
    /// Whether no line with words is read.
    pub(crate) fn is_nothing(&self) -> bool
        ensures { result ≡ spec.is_nothing self.now }
    {
        self.setup.is_none() && self.threads.is_empty()
    }
}

/// Whether there is no room for one more thread of this many calls.
fn is_full(threads: &[Calls], calls: usize) -> bool
    requires { sum_by length threads.now ≤ MOST_CALLS }
    ensures { result ≡ spec.is_full threads.now calls }
{
    let total: usize = threads.iter().map(|calls| calls.as_slice().len()).sum();
    threads.len() >= MOST_THREADS || calls > MOST_CALLS_OF_THREAD || total + calls > MOST_CALLS
}

/// What is wrong with the calls of a line, if anything is. `full`: there is no room for them.
fn calls_fault(
    signatures: &[Signature<'_>],
    calls: &[Part<'_>],
    full: bool,
) -> Option<MatrixFaultKind>
    ensures { result ≡ spec.calls_fault signatures.now calls.now full }
{
    if !all_have_names(calls) {
        Some(MatrixFaultKind::Form)
    } else if !all_have_operations(signatures, calls) {
        Some(MatrixFaultKind::UnknownOp)
    } else if !all_have_arguments(signatures, calls) {
        Some(MatrixFaultKind::Arguments)
    } else if !all_have_values(signatures, calls) {
        Some(MatrixFaultKind::Number)
    } else if full {
        Some(MatrixFaultKind::Limit)
    } else {
        None
    }
}

/// The parts after the first word: none, or the words of the first and the other parts of the
/// line.
fn call_parts<'a>(
    alloc: Global,
    words: &[&'a [u8]],
    others: &[&'a [u8]],
) -> Result<Vec<Part<'a>>, AllocError>
    ensures { HasItems result (calls_after (texts words.now) (words_in others.now)) }
{
    let mut calls = Vec::new(alloc);
    if words.is_empty() && others.is_empty() {
        return Ok(calls);
    }
    calls.push(Part {
        words: Vec::from_slice(alloc, words)?,
    })?;
    for other in others {
        calls.push(Part::new(alloc, other)?)?;
    }
    Ok(calls)
}

impl MatrixDraft {
    /// One more thread with these calls.
    fn take_thread(
        &mut self,
        alloc: Global,
        signatures: &[Signature<'_>],
        calls: &[Part<'_>],
    ) -> Result<Option<MatrixFaultKind>, AllocError>
        requires { CanRead signatures.now self.old }
        ensures { Takes self (with_thread signatures.now self.old calls.now) result }
    {
        let full = is_full(&self.threads, calls.len());
        let fault = calls_fault(signatures, calls, full);
        if fault.is_none() {
            let calls = calls_said(alloc, signatures, calls)?;
            self.threads.push(Calls::new(calls))?;
        }
        Ok(fault)
    }

    /// The setup with these calls.
    fn take_setup(
        &mut self,
        alloc: Global,
        signatures: &[Signature<'_>],
        calls: &[Part<'_>],
    ) -> Result<Option<MatrixFaultKind>, AllocError>
        requires { AreFew signatures.now }
        ensures { Takes self (with_setup signatures.now self.old calls.now) result }
    {
        let full = calls.len() > MOST_CALLS_OF_THREAD;
        let fault = calls_fault(signatures, calls, full);
        if fault.is_none() {
            let calls = calls_said(alloc, signatures, calls)?;
            self.setup = Some(Calls::new(calls));
        }
        Ok(fault)
    }

    /// A line whose first part has these words, and its other parts.
    fn take_words(
        &mut self,
        alloc: Global,
        signatures: &[Signature<'_>],
        words: &[&[u8]],
        more: &[&[u8]],
    ) -> Result<Option<MatrixFaultKind>, AllocError>
        requires { CanRead signatures.now self.old }
        ensures { Takes self (by_words signatures.now self.old words.now more.now) result }
    {
        match words {
            [] => {
                if more.is_empty() {
                    Ok(None)
                } else {
                    Ok(Some(MatrixFaultKind::Form))
                }
            }
            [word, rest @ ..] => {
                if *word == b"thread".as_slice() {
                    let calls = call_parts(alloc, rest, more)?;
                    self.take_thread(alloc, signatures, &calls)
                } else if *word == b"setup".as_slice() && self.is_nothing() {
                    let calls = call_parts(alloc, rest, more)?;
                    self.take_setup(alloc, signatures, &calls)
                } else {
                    Ok(Some(MatrixFaultKind::Form))
                }
            }
        }
    }

    /// A line by its parts, between which stands `;`.
    fn take_parts(
        &mut self,
        alloc: Global,
        signatures: &[Signature<'_>],
        parts: &[&[u8]],
    ) -> Result<Option<MatrixFaultKind>, AllocError>
        requires { CanRead signatures.now self.old }
        ensures { Takes self (by_parts signatures.now self.old (words_in parts.now)) result }
    {
        match parts {
            [] => Ok(None),
            [first, others @ ..] => {
                let words = words_of(alloc, first)?;
                self.take_words(alloc, signatures, &words, others)
            }
        }
    }

    /// Takes one more line, whose calls may name the operations of these signatures: `None` where
    /// it has no fault, and else its fault, and the draft is as it was.
    ///
    /// # Errors
    ///
    /// There is no memory for what the line says.
    #[tactic(auto, unfolding(crate::specs::MatrixText::line_of))]
    pub fn line(
        &mut self,
        alloc: Global,
        signatures: &[Signature<'_>],
        text: &[u8],
    ) -> Result<Option<MatrixFaultKind>, AllocError>
        requires { CanRead signatures.now self.old }
        ensures { Takes self (spec.line_of signatures.now self.old text.now) result }
    {
        if !are_allowed(text) {
            return Ok(Some(MatrixFaultKind::Byte));
        }
        let parts = parts_of(alloc, b';', before_comment(text))?;
        self.take_parts(alloc, signatures, &parts)
    }
}

/// What is wrong at the end of the text.
pub fn end_fault(draft: &MatrixDraft) -> Option<MatrixFaultKind>
    ensures { result ≡ fault_in (spec.finished draft.now) }
{
    if draft.threads.is_empty() {
        Some(MatrixFaultKind::Limit)
    } else {
        None
    }
}

/// The calls of the setup: none where there is no line of it.
fn setup_of(alloc: Global, setup: Option<Calls>) -> Calls
    ensures { result ≡ unwrap_or setup [] }
{
    match setup {
        None => Calls::new(Vec::new(alloc)),
        Some(setup) => setup,
    }
}

/// The matrix at the end of the text, or what is wrong there.
fn finish(alloc: Global, draft: MatrixDraft) -> Result<Matrix, MatrixFaultKind>
    requires limits { IsDraft draft }
    requires of_some { IsOfSome (spec.matrix_of draft) }
    ensures { result ≡ spec.finished draft }
{
    if let Some(kind) = end_fault(&draft) {
        return Err(kind);
    }
    Ok(Matrix::of_calls(setup_of(alloc, draft.setup), draft.threads))
}

/// The matrix of these lines, whose calls are judged by the signatures of the component's
/// operations.
fn read_lines(
    alloc: Global,
    component: &Component,
    signatures: &[Signature<'_>],
    lines: &[&[u8]],
) -> Result<Matrix, MatrixFault>
    requires sound { IsComponent component.now }
    requires signatures { signatures.now ≡ spec_signatures component.now.operations }
    ensures exact { Gives result (spec.matrix_said component.now (texts lines.now)) }
    ensures of { IfOk result (λ matrix. IsOf matrix component.now) }
{
    let mut draft = MatrixDraft {
        setup: None,
        threads: Vec::new(alloc),
    };
    for (before, text) in lines.iter().enumerate() {
        if let Some(kind) = draft.line(alloc, signatures, text)? {
            return Err(Fault::At(kind, before + 1));
        }
    }
    match finish(alloc, draft) {
        Ok(matrix) => Ok(matrix),
        Err(kind) => Err(Fault::At(kind, lines.len() + 1)),
    }
}

/// Reads a matrix of a component from its text.
///
/// A fault is the first one of the text: by line, and on a line by the order of
/// [`MatrixFaultKind`]. One at the end of the text carries the number of lines plus one.
///
/// # Errors
///
/// The first fault of the text, or that there is no memory for the matrix.
pub fn read_matrix(alloc: Global, component: &Component, text: &[u8]) -> Result<Matrix, MatrixFault>
    // Which matrix, or which fault.
    ensures exact { Gives result (meaning_of (matrix_grammar component.now) text.now) }
    // No line before the fault's has one.
    ensures first { TellsFirst (matrix_grammar component.now) text.now result }
    // Each call's operation is there, with its number of arguments.
    ensures of { IfOk result (λ matrix. IsOf matrix component.now) }
{
    let lines = lines_of(alloc, text)?;
    let signatures = signatures_of(alloc, component.operations())?;
    read_lines(alloc, component, &signatures, &lines)
}
