//! Writing of components: their canonical text.

ghost use Rattle.std.specs.Prelude.{◌≡◌, IfOk, string_bytes};
ghost use Rattle.std.specs.List.{list_any, flat_map};
ghost use Rattle.lu_text.specs.Writing.{IsTextOf, Writes};
ghost use Rattle.lu_lang.specs.ComponentText as spec;
ghost use Rattle.lu_lang.specs.ComponentText.{cell_text, code_line, instr_words, op_text, spelled};
ghost use Rattle.lu_lang.specs.Grammar.{component_grammar};

use lu_component::{Array, Component, Instr, Op, Operand};
use lu_text::Name;
use std::alloc::{AllocError, Global};

/// The name of an array, by its number. Where there is none it is no word, and no instruction of a
/// component names one that is not there.
pub fn array_name(component: &Component, number: u8) -> &str
    ensures { result.now ≡ spec.array_word component.now number }
{
    match component.arrays().get(usize::from(number)) {
        None => "",
        Some(array) => array.name.as_str(),
    }
}

/// The name of a lock, by its number. Where there is none it is no word, and no instruction of a
/// component names one that is not there.
pub fn lock_name(component: &Component, number: u8) -> &str
    ensures { result.now ≡ spec.lock_word component.now number }
{
    match component.locks().get(usize::from(number)) {
        None => "",
        Some(name) => name.as_str(),
    }
}

/// Adds the words of `store W i v`, `await W i v` or `awaitne W i v` at the end of a text, with one
/// space between them.
fn write_cell(
    text: &mut String,
    component: &Component,
    word: &str,
    array: u8,
    index: Operand,
    value: Operand,
) -> Result<(), AllocError>
    ensures { Writes result text.old text.new (cell_text component.now word.now array index value) }
{
    write!(
        text,
        "{word} {} {index} {value}",
        array_name(component, array)
    )
}

/// Adds an instruction's words at the end of a text, with one space between them, as they stand in
/// the component's canonical text.
///
/// # Errors
///
/// There is no memory for the text.
pub fn write_instr(text: &mut String, component: &Component, instr: Instr) -> Result<(), AllocError>
    ensures { Writes result text.old text.new (spelled (instr_words component.now instr)) }
{
    match instr {
        Instr::Set { to, value } => write!(text, "set r{to} {value}"),
        Instr::Compute {
            arithmetic,
            to,
            left,
            right,
        } => write!(text, "{} r{to} {left} {right}", arithmetic.word()),
        Instr::Load { to, array, index } => {
            write!(text, "load r{to} {} {index}", array_name(component, array))
        }
        Instr::Store {
            array,
            index,
            value,
        } => write_cell(text, component, "store", array, index, value),
        Instr::Cas {
            to,
            array,
            index,
            expected,
            desired,
        } => write!(
            text,
            "cas r{to} {} {index} {expected} {desired}",
            array_name(component, array)
        ),
        Instr::Lock(lock) => write!(text, "lock {}", lock_name(component, lock)),
        Instr::Unlock(lock) => write!(text, "unlock {}", lock_name(component, lock)),
        Instr::Await {
            array,
            index,
            value,
        } => write_cell(text, component, "await", array, index, value),
        Instr::AwaitNot {
            array,
            index,
            value,
        } => write_cell(text, component, "awaitne", array, index, value),
        Instr::Pick { to, count } => write!(text, "pick r{to} {count}"),
        Instr::Jump(target) => write!(text, "jump L{target}"),
        Instr::JumpIfZero { value, target } => write!(text, "jz {value} L{target}"),
        Instr::Return(value) => write!(text, "return {value}"),
    }
}

/// Whether some instruction of the code jumps to this place.
pub fn has_jump_to(code: &[Instr], place: usize) -> bool
    ensures { result ≡ list_any (spec.leads_to place) code.now }
{
    code.iter().any(|instr| match *instr {
        Instr::Jump(target) | Instr::JumpIfZero { target, .. } => usize::from(target) == place,
        _ => false,
    })
}

/// Adds the label of a place at the end of a text, where some jump leads to the place: `Lk: ` for
/// place k.
///
/// # Errors
///
/// There is no memory for the text.
pub fn write_label(text: &mut String, code: &[Instr], place: usize) -> Result<(), AllocError>
    ensures { Writes result text.old text.new (spec.label_text code.now place) }
{
    if has_jump_to(code, place) {
        write!(text, "L{place}: ")?;
    }
    Ok(())
}

/// Adds the line of the instruction at a place at the end of a text.
fn write_line(
    text: &mut String,
    component: &Component,
    code: &[Instr],
    place: usize,
    instr: Instr,
) -> Result<(), AllocError>
    ensures { Writes result text.old text.new (code_line component.now code.now (place, instr)) }
{
    write_label(text, code, place)?;
    write_instr(text, component, instr)?;
    text.push('\n')
}

/// Adds the lines of an operation's instructions at the end of a text.
#[tactic(auto, using(crate::proofs::Lines::all_taken))]
fn write_code(text: &mut String, component: &Component, code: &[Instr]) -> Result<(), AllocError>
    ensures { Writes result text.old text.new (spec.code_text component.now code.now) }
{
    for (place, instr) in code.iter().enumerate() {
        write_line(text, component, code, place, *instr)?;
    }
    Ok(())
}

fn write_arrays(text: &mut String, arrays: &[Array]) -> Result<(), AllocError>
    ensures { Writes result text.old text.new (flat_map spec.array_text arrays.now) }
{
    for Array { name, len, init } in arrays {
        writeln!(text, "word {} {len} {init}", name.as_str())?;
    }
    Ok(())
}

fn write_locks(text: &mut String, locks: &[Name]) -> Result<(), AllocError>
    ensures { Writes result text.old text.new (flat_map spec.lock_text locks.now) }
{
    for name in locks {
        writeln!(text, "lock {}", name.as_str())?;
    }
    Ok(())
}

fn write_operations(
    text: &mut String,
    component: &Component,
    operations: &[Op],
) -> Result<(), AllocError>
    ensures { Writes result text.old text.new
        (flat_map (op_text component.now) operations.now) }
{
    for op in operations {
        let args = op.args;
        writeln!(text, "op {} {args}", op.name.as_str())?;
        write_code(text, component, op.code.instrs())?;
        writeln!(text, "end")?;
    }
    Ok(())
}

/// The canonical text of a component.
///
/// It has no comments and no empty lines. The line `component` comes first, then `local` where it
/// is not 0, and then arrays, locks and operations, each kind in its order. One space stands
/// between two words, and a label `Lk:` exactly at the places k, from 0, that some jump of the
/// operation leads to. Each line ends with LF. Read again it is the same component.
///
/// # Errors
///
/// There is no memory for the text.
pub fn write_component(alloc: Global, component: &Component) -> Result<String, AllocError>
    ensures text { IfOk result (λ text. string_bytes text ≡ spec.component_text component.now) }
    ensures again { IfOk result (IsTextOf component_grammar component.now) }
{
    let mut text = String::new(alloc);
    writeln!(text, "component {}", component.name().as_str())?;
    let local = component.local();
    if local > 0 {
        writeln!(text, "local {local}")?;
    }
    write_arrays(&mut text, component.arrays())?;
    write_locks(&mut text, component.locks())?;
    write_operations(&mut text, component, component.operations())?;
    Ok(text)
}
