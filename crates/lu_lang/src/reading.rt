//! Reading of components, line by line.

ghost use Rattle.std.specs.Prelude.{◌≡◌, None, map};
ghost use Rattle.std.specs.Option.{option_copied, option_map};
ghost use Rattle.lu_text.specs.Lines.{text_if, texts};
ghost use Rattle.lu_text.specs.Words.{exactly_one, exactly_two, exactly_three};
ghost use Rattle.lu_text.specs.Faults.{Gives, TellsFirst, fault_in, meaning_of, meaning_of_lines};
ghost use Rattle.lu_lang.specs.Lines.{Changes, Closes, Takes, TakesInside, code_read};
ghost use Rattle.lu_text.specs.Results.{Builds, HasItems};
ghost use Rattle.lu_lang.specs.Sound.{IsSoundDraft};
ghost use Rattle.lu_lang.specs.Grammar as spec;
ghost use Rattle.lu_lang.specs.Grammar.{component_grammar};

use crate::draft::{ComponentDraft, Label, OpenOp, Statement};
use crate::fault::{LangFault, LangFaultKind};
use crate::instructions::{array_number, lock_number, statement};
use crate::keyword::keyword_in;
use lu_component::{
    Array, Code, Component, Instr, MOST_ARGUMENTS, MOST_ARRAYS, MOST_CELLS, MOST_INSTRS,
    MOST_LOCAL, MOST_LOCKS, MOST_OPS, Op, operation_number,
};
use lu_text::{
    Fault, Name, are_allowed, exactly_one, exactly_three, exactly_two, has_name_form, is_long,
    lines_of, value_in, words_of,
};
use std::alloc::{AllocError, Global};

/// The label that a word is, `NAME:`, without the colon.
pub(crate) fn label_in(word: &[u8]) -> Option<&[u8]>
    ensures { option_map (λ label. label.now) result ≡ spec.label_in word.now }
{
    match word {
        [name @ .., b':'] => Some(name),
        _ => None,
    }
}

/// The label of this name, where it is one of them.
pub(crate) fn find_label<'a>(labels: &'a [Label], name: &[u8]) -> Option<&'a Label>
    ensures { option_copied result ≡ spec.find_label labels.now name.now }
{
    labels.iter().find(|label| label.name.is(name))
}

/// What is wrong with a label, and with one more instruction.
fn place_fault(op: &OpenOp, label: Option<&[u8]>) -> Option<LangFaultKind>
    ensures { result ≡ spec.place_fault op.now (text_if label.entry) }
{
    let is_full = op.statements.len() >= MOST_INSTRS;
    let Some(label) = label else {
        return if is_full {
            Some(LangFaultKind::Limit)
        } else {
            None
        };
    };
    if !has_name_form(label) {
        Some(LangFaultKind::Form)
    } else if is_long(label) || is_full {
        Some(LangFaultKind::Limit)
    } else if find_label(&op.labels, label).is_some() {
        Some(LangFaultKind::Name)
    } else {
        None
    }
}

/// The open operation with one more instruction, and with its label, where it has one.
fn with_statement(
    alloc: Global,
    mut op: OpenOp,
    label: Option<&[u8]>,
    statement: Statement,
) -> Result<OpenOp, AllocError>
    requires { spec.place_fault op (text_if label) ≡ None }
    ensures { Builds result (spec.with_statement op (text_if label.entry) statement) }
{
    if let Some(label) = label {
        let name = Name::new(alloc, label)?;
        let place = op.statements.len() as u8;
        op.labels.push(Label { name, place })?;
    }
    op.statements.push(statement)?;
    Ok(op)
}

/// A line of an operation: its label, where it has one, and the words of its instruction.
#[derive(Clone, Copy, Drop)]
pub(crate) struct CodeLine<'a> {
    pub label: Option<&'a [u8]>,
    pub word: &'a [u8],
    pub rest: &'a [&'a [u8]],
}

/// Whether the label that a statement uses is there.
pub(crate) fn is_there(labels: &[Label], statement: &Statement) -> bool
    ensures { result ≡ spec.is_there labels.now (spec.label_used statement.now) }
{
    match statement {
        Statement::Plain(_) => true,
        Statement::Jump(label) | Statement::JumpIfZero(_, label) => {
            find_label(labels, label.as_bytes()).is_some()
        }
    }
}

/// Whether each label that is used is there.
fn are_there(op: &OpenOp) -> bool
    ensures { result ≡ spec.are_there op.now }
{
    op.statements
        .iter()
        .all(|statement| is_there(&op.labels, statement))
}

/// The place of a label, which is there.
fn target(labels: &[Label], label: &[u8]) -> u8
    ensures { result ≡ spec.target labels.now label.now }
{
    match find_label(labels, label) {
        None => 0,
        Some(found) => found.place,
    }
}

/// The instruction, with the place of its label.
fn resolve(labels: &[Label], statement: &Statement) -> Instr
    ensures { result ≡ spec.resolved labels.now statement.now }
{
    match statement {
        Statement::Plain(instr) => *instr,
        Statement::Jump(label) => Instr::Jump(target(labels, label.as_bytes())),
        Statement::JumpIfZero(value, label) => Instr::JumpIfZero {
            value: *value,
            target: target(labels, label.as_bytes()),
        },
    }
}

/// The instructions, with the places of their labels.
fn resolve_all(
    alloc: Global,
    labels: &[Label],
    statements: &[Statement],
) -> Result<Vec<Instr>, AllocError>
    ensures { HasItems result (map (spec.resolved labels.now) statements.now) }
{
    statements
        .iter()
        .map(|statement| resolve(labels, statement))
        .collect(alloc)
}

pub(crate) fn op_of(alloc: Global, op: OpenOp) -> Result<Op, AllocError>
    ensures { Builds result (spec.op_of op) }
{
    let instrs = resolve_all(alloc, &op.labels, &op.statements)?;
    Ok(Op {
        name: op.name,
        args: op.args,
        code: Code::new(instrs),
    })
}

/// What is wrong with `end`.
fn end_line_fault(op: &OpenOp, words: &[&[u8]]) -> Option<LangFaultKind>
    ensures { Closes op.now (texts words.now) result }
{
    if !words.is_empty() {
        return Some(LangFaultKind::Form);
    }
    match op.statements.last() {
        Some(Statement::Jump(_) | Statement::Plain(Instr::Return(_))) => {
            if are_there(op) {
                None
            } else {
                Some(LangFaultKind::Name)
            }
        }
        _ => Some(LangFaultKind::Flow),
    }
}

// Each of these takes one more line, whose first word is known: what it declares, and no fault, or
// the fault, and the draft is as it was.
impl ComponentDraft {
    /// `component NAME`
    fn take_name(
        &mut self,
        alloc: Global,
        words: &[&[u8]],
    ) -> Result<Option<LangFaultKind>, AllocError>
        ensures { Takes self (spec.component_line self.old (exactly_one (texts words.now))) result }
    {
        let Some(name) = exactly_one(words) else {
            return Ok(Some(LangFaultKind::Form));
        };
        if !has_name_form(name) {
            return Ok(Some(LangFaultKind::Form));
        }
        if is_long(name) {
            return Ok(Some(LangFaultKind::Limit));
        }
        self.name = Some(Name::new(alloc, name)?);
        Ok(None)
    }

    /// `local L`
    fn take_local(&mut self, words: &[&[u8]]) -> Option<LangFaultKind>
        ensures { Changes self (spec.local_line self.old (exactly_one (texts words.now))) result }
    {
        let Some(most) = exactly_one(words) else {
            return Some(LangFaultKind::Form);
        };
        if self.local.is_some() || !self.operations.is_empty() {
            return Some(LangFaultKind::Form);
        }
        let Some(most) = value_in(most) else {
            return Some(LangFaultKind::Number);
        };
        if most > MOST_LOCAL {
            return Some(LangFaultKind::Limit);
        }
        self.local = Some(most as u8);
        None
    }

    /// `word NAME LEN INIT`
    fn take_array(
        &mut self,
        alloc: Global,
        words: &[&[u8]],
    ) -> Result<Option<LangFaultKind>, AllocError>
        ensures { Takes self (spec.array_line self.old (exactly_three (texts words.now))) result }
    {
        let Some((name, len, init)) = exactly_three(words) else {
            return Ok(Some(LangFaultKind::Form));
        };
        if !has_name_form(name) {
            return Ok(Some(LangFaultKind::Form));
        }
        let (Some(len), Some(init)) = (value_in(len), value_in(init)) else {
            return Ok(Some(LangFaultKind::Number));
        };
        if is_long(name) || self.arrays.len() >= MOST_ARRAYS || len < 1 || len > MOST_CELLS {
            return Ok(Some(LangFaultKind::Limit));
        }
        if array_number(self, name).is_some() {
            return Ok(Some(LangFaultKind::Name));
        }
        self.arrays.push(Array {
            name: Name::new(alloc, name)?,
            len: len as u8,
            init,
        })?;
        Ok(None)
    }

    /// `lock NAME`, outside an operation
    fn take_lock(
        &mut self,
        alloc: Global,
        words: &[&[u8]],
    ) -> Result<Option<LangFaultKind>, AllocError>
        ensures { Takes self (spec.lock_line self.old (exactly_one (texts words.now))) result }
    {
        let Some(name) = exactly_one(words) else {
            return Ok(Some(LangFaultKind::Form));
        };
        if !has_name_form(name) {
            return Ok(Some(LangFaultKind::Form));
        }
        if is_long(name) || self.locks.len() >= MOST_LOCKS {
            return Ok(Some(LangFaultKind::Limit));
        }
        if lock_number(self, name).is_some() {
            return Ok(Some(LangFaultKind::Name));
        }
        self.locks.push(Name::new(alloc, name)?)?;
        Ok(None)
    }

    /// `op NAME ARGS`
    fn take_operation(
        &mut self,
        alloc: Global,
        words: &[&[u8]],
    ) -> Result<Option<LangFaultKind>, AllocError>
        ensures { Takes self (spec.op_line self.old (exactly_two (texts words.now))) result }
    {
        let Some((name, args)) = exactly_two(words) else {
            return Ok(Some(LangFaultKind::Form));
        };
        if !has_name_form(name) {
            return Ok(Some(LangFaultKind::Form));
        }
        let Some(args) = value_in(args) else {
            return Ok(Some(LangFaultKind::Number));
        };
        if is_long(name) || self.operations.len() >= MOST_OPS || args > MOST_ARGUMENTS {
            return Ok(Some(LangFaultKind::Limit));
        }
        if operation_number(&self.operations, name).is_some() {
            return Ok(Some(LangFaultKind::Name));
        }
        let name = Name::new(alloc, name)?;
        self.begun = Some(OpenOp::new(alloc, name, args as u8));
        Ok(None)
    }

    /// A declaration.
    fn take_declaration(
        &mut self,
        alloc: Global,
        word: &[u8],
        words: &[&[u8]],
    ) -> Result<Option<LangFaultKind>, AllocError>
        ensures { Takes self (spec.declaration self.old word.now (texts words.now)) result }
    {
        if word == b"word".as_slice() {
            self.take_array(alloc, words)
        } else if word == b"lock".as_slice() {
            self.take_lock(alloc, words)
        } else if word == b"op".as_slice() {
            self.take_operation(alloc, words)
        } else if word == b"local".as_slice() {
            Ok(self.take_local(words))
        } else {
            Ok(Some(LangFaultKind::Form))
        }
    }

    /// A label or none, and an instruction, of the operation that is open.
    fn take_code(
        &mut self,
        alloc: Global,
        op: OpenOp,
        code: CodeLine<'_>,
    ) -> Result<Option<LangFaultKind>, AllocError>
        ensures { TakesInside self op (code_read self.old op code.entry) result }
    {
        let fault = place_fault(&op, code.label);
        let statement = match statement(alloc, self, keyword_in(code.word), code.rest)? {
            Err(kind) => {
                self.begun = Some(op);
                return Ok(Some(match fault {
                    Some(sooner) if sooner.rank() <= kind.rank() => sooner,
                    _ => kind,
                }));
            }
            Ok(statement) => statement,
        };
        match fault {
            Some(kind) => {
                self.begun = Some(op);
                Ok(Some(kind))
            }
            None => {
                self.begun = Some(with_statement(alloc, op, code.label, statement)?);
                Ok(None)
            }
        }
    }

    /// `end`
    fn take_end(
        &mut self,
        alloc: Global,
        op: OpenOp,
        words: &[&[u8]],
    ) -> Result<Option<LangFaultKind>, AllocError>
        requires { self.old.begun ≡ None }
        ensures { TakesInside self op (spec.end_line self.old op (texts words.now)) result }
    {
        match end_line_fault(&op, words) {
            Some(kind) => {
                self.begun = Some(op);
                Ok(Some(kind))
            }
            None => {
                self.operations.push(op_of(alloc, op)?)?;
                Ok(None)
            }
        }
    }

    /// A line inside an operation.
    fn take_inside<'a>(
        &mut self,
        alloc: Global,
        op: OpenOp,
        word: &'a [u8],
        words: &'a [&'a [u8]],
    ) -> Result<Option<LangFaultKind>, AllocError>
        requires { self.old.begun ≡ None }
        ensures { TakesInside self op (spec.inside self.old op word.now (texts words.now)) result }
    {
        if let Some(label) = label_in(word) {
            let Some((word, rest)) = words.split_first() else {
                self.begun = Some(op);
                return Ok(Some(LangFaultKind::Form));
            };
            let code = CodeLine {
                label: Some(label),
                word,
                rest,
            };
            return self.take_code(alloc, op, code);
        }
        if word == b"end".as_slice() {
            self.take_end(alloc, op, words)
        } else {
            let code = CodeLine {
                label: None,
                word,
                rest: words,
            };
            self.take_code(alloc, op, code)
        }
    }

    /// Takes one more line: `None` where it has no fault, and else its fault, and the draft is as
    /// it was.
    ///
    /// # Errors
    ///
    /// There is no memory for what the line declares.
    #[tactic(auto, unfolding(crate::specs::Grammar::line_of))]
    pub fn line(&mut self, alloc: Global, text: &[u8]) -> Result<Option<LangFaultKind>, AllocError>
        ensures { Takes self (component_grammar.line self.old text.now) result }
    {
        if !are_allowed(text) {
            return Ok(Some(LangFaultKind::Byte));
        }
        let words = words_of(alloc, text)?;
        let Some((word, rest)) = words.split_first() else {
            return Ok(None);
        };
        if self.name.is_none() {
            return if *word == b"component".as_slice() {
                self.take_name(alloc, rest)
            } else {
                Ok(Some(LangFaultKind::Missing))
            };
        }
        match self.begun.take() {
            None => self.take_declaration(alloc, word, rest),
            Some(op) => self.take_inside(alloc, op, word, rest),
        }
    }

    /// The component that the lines declare, at the end of the text; or what is wrong there, and
    /// the draft as it was.
    #[tactic(auto, using(crate::proofs::Drafts::draft_component))]
    pub fn finish(self) -> Result<Component, (LangFaultKind, ComponentDraft)>
        requires { IsSoundDraft self }
        ensures { result ≡ spec.declared_or_left self (component_grammar.finish self) }
    {
        let ComponentDraft {
            name,
            local,
            arrays,
            locks,
            operations,
            begun,
        } = self;
        match (name, begun) {
            (Some(name), None) => Ok(Component::new(
                name,
                // Without a line `local` each local instruction is a move of its own.
                local.unwrap_or(0),
                arrays,
                locks,
                operations,
            )),
            (name, begun) => {
                let draft = ComponentDraft {
                    name,
                    local,
                    arrays,
                    locks,
                    operations,
                    begun,
                };
                Err((LangFaultKind::Missing, draft))
            }
        }
    }
}

/// What is wrong at the end of the text.
pub fn end_fault(draft: &ComponentDraft) -> Option<LangFaultKind>
    ensures { result ≡ fault_in (component_grammar.finish draft.now) }
{
    if draft.name.is_none() || draft.begun.is_some() {
        Some(LangFaultKind::Missing)
    } else {
        None
    }
}

fn read_lines(alloc: Global, lines: &[&[u8]]) -> Result<Component, LangFault>
    ensures { Gives result (meaning_of_lines component_grammar (texts lines.now)) }
{
    let mut draft = ComponentDraft::new(alloc);
    for (before, text) in lines.iter().enumerate() {
        if let Some(kind) = draft.line(alloc, text)? {
            return Err(Fault::At(kind, before + 1));
        }
    }
    match draft.finish() {
        Ok(component) => Ok(component),
        Err((kind, _)) => Err(Fault::At(kind, lines.len() + 1)),
    }
}

/// Reads a component from its text.
///
/// A fault is the first one of the text: by line, and on a line by the order of [`LangFaultKind`].
/// One at the end of the text carries the number of lines plus one.
///
/// # Errors
///
/// The first fault of the text, or that there is no memory for the component.
pub fn read_component(alloc: Global, text: &[u8]) -> Result<Component, LangFault>
    // Which component, or which fault.
    ensures exact { Gives result (meaning_of component_grammar text.now) }
    // No line before the fault's has one.
    ensures first { TellsFirst component_grammar text.now result }
{
    let lines = lines_of(alloc, text)?;
    read_lines(alloc, &lines)
}
