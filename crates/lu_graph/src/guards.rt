//! Arrays that a lock guards: each access to them is made in a critical section of the lock.

ghost use Rattle.std.specs.Prelude.{◌≡◌, ◌↔◌, ◌<◌, ◌≤◌, true, false, IfOk, IsTrue, get_or, length};
ghost use Rattle.lu_component.specs.declared.component.TheConstants.{MOST_INSTRS};
ghost use Rattle.lu_graph.specs.Guards as spec;
ghost use Rattle.lu_graph.specs.Guards.{IsGuarded, TellsGuarded};
ghost use Rattle.lu_graph.specs.Sections as sections;
ghost use Rattle.lu_graph.specs.Sections.{AreAccessed, AreAccessedIn, AreSections, AreSettled, HasCritical, IsRound, IsSettled, IsSound};

use lu_component::{Component, Instr};
use lu_horizon::code_of;
use std::alloc::{AllocError, Global};
use std::marker::Model;

/// The array that the instruction accesses, if any.
fn array_of(instr: &Instr) -> Option<u8>
    ensures { result ≡ spec.array_of instr.now }
{
    match *instr {
        Instr::Load { array, .. }
        | Instr::Store { array, .. }
        | Instr::Cas { array, .. }
        | Instr::Await { array, .. }
        | Instr::AwaitNot { array, .. } => Some(array),
        _ => None,
    }
}

/// Whether an operation is in a critical section of the lock after the instruction, where it was in
/// one before, or was not.
fn is_inside_after(lock: u8, instr: &Instr, inside: bool) -> bool
    ensures { result ≡ spec.is_inside_after lock instr.now inside }
{
    match *instr {
        Instr::Lock(taken) => taken == lock || inside,
        Instr::Unlock(given) => given != lock && inside,
        _ => inside,
    }
}

/// Whether the place is said to be in a critical section.
fn is_inside(places: &[bool], place: usize) -> bool
    ensures { result ≡ sections.is_inside places.now place }
{
    places.get(place).copied().unwrap_or(false)
}

/// Says no more that the place is in a critical section. Says whether that was said.
fn leave(places: &mut Vec<bool>, place: usize) -> bool
    ensures was { result ≡ sections.is_inside places.old.items place }
    ensures left { result ≡ true → places.new.items ≡ sections.without places.old.items place }
    ensures same { result ≡ false → places.new.items ≡ places.old.items }
{
    if is_inside(places, place) {
        places[place] = false;
        return true;
    }
    false
}

/// Whether the operation goes nowhere from the instruction.
fn is_return(instr: &Instr) -> bool
    ensures { result ≡ sections.is_return instr.now }
{
    matches!(instr, Instr::Return(_))
}

/// Where the operation goes from the instruction at the place, if it jumps where it can.
fn jump_from(instr: &Instr, place: usize) -> usize
    requires { place < MOST_INSTRS }
    ensures { result ≡ sections.jump_from instr.now place }
{
    match *instr {
        Instr::Jump(target) | Instr::JumpIfZero { target, .. } => usize::from(target),
        _ => place + 1,
    }
}

/// Where it goes, if it goes on where it can.
fn onward_from(instr: &Instr, place: usize) -> usize
    requires { place < MOST_INSTRS }
    ensures { result ≡ sections.onward_from instr.now place }
{
    match *instr {
        Instr::Jump(target) => usize::from(target),
        _ => place + 1,
    }
}

/// Says no more that a place is in a critical section to which the operation comes from this one by
/// an instruction after which it is in none. Says whether that was said.
fn look_at(code: &[Instr], lock: u8, place: usize, places: &mut Vec<bool>) -> bool
    requires within { place < length code.now }
    requires few { length code.now ≤ MOST_INSTRS }
    ensures round { IsRound code.now lock places.old.items places.new.items result }
    ensures settled { result ≡ false → IsSettled code.now lock places.new.items place }
{
    let instr = &code[place];
    if is_return(instr) {
        return false;
    }
    if is_inside_after(lock, instr, is_inside(places, place)) {
        return false;
    }
    let jumps = leave(places, jump_from(instr, place));
    let goes_on = leave(places, onward_from(instr, place));
    jumps | goes_on
}

/// Goes through the code, and says whether fewer places are in critical sections than was said.
fn go_through(code: &[Instr], lock: u8, places: &mut Vec<bool>) -> bool
    requires { length code.now ≤ MOST_INSTRS }
    ensures round { IsRound code.now lock places.old.items places.new.items result }
    ensures settled { result ≡ false → AreSettled code.now lock places.new.items }
{
    let mut less = false;
    for place in 0..code.len() {
        less |= look_at(code, lock, place, places);
    }
    less
}

/// Which places of one operation's code are in critical sections of a lock.
#[derive(Drop)]
struct Inside {
    places: Vec<bool>,
}

impl Model for Inside {
    ghost use Rattle.std.specs.Prelude.{Bool, List};

    ghost Value = { List Bool };

    ghost view = { λ p. p.places.items };
}

impl Inside {
    /// Those of this code: all but the first, and then fewer with each round, until one finds all
    /// to be so.
    fn new(alloc: Global, code: &[Instr], lock: u8) -> Result<Inside, AllocError>
        requires { length code.now ≤ MOST_INSTRS }
        ensures sound { IfOk result (IsSound code.now lock) }
        ensures all { IfOk result (HasCritical code.now lock) }
    {
        let mut places = vec![in alloc; true; code.len()]?;
        leave(&mut places, 0);
        while go_through(code, lock, &mut places) {}
        Ok(Inside { places })
    }

    /// Whether each access to the array in this code is in them.
    fn have(&self, code: &[Instr], array: u8) -> bool
        ensures { IsTrue result ↔ AreAccessedIn code.now array self.now }
    {
        for place in 0..code.len() {
            if array_of(&code[place]) == Some(array) && !is_inside(&self.places, place) {
                return false;
            }
        }
        true
    }
}

/// Which places in the code of a component's operations are in critical sections of a lock.
#[derive(Drop)]
struct Sections {
    operations: Vec<Inside>,
}

impl Model for Sections {
    ghost use Rattle.std.specs.Prelude.{Bool, List};

    ghost Value = { List (List Bool) };

    ghost view = { λ s. s.operations.items };
}

impl Sections {
    /// Those of all operations.
    fn new(alloc: Global, component: &Component, lock: u8) -> Result<Sections, AllocError>
        ensures { IfOk result (AreSections component.now lock) }
    {
        let mut operations = Vec::new(alloc);
        for op in 0..component.operations().len() as u8 {
            operations.push(Inside::new(alloc, code_of(component, op), lock)?)?;
        }
        Ok(Sections { operations })
    }

    /// Whether each access to the array is in them.
    fn have(&self, component: &Component, array: u8) -> bool
        requires { length component.now.operations ≤ length self.now }
        ensures { IsTrue result ↔ AreAccessed component.now array self.now }
    {
        for op in 0..component.operations().len() as u8 {
            if !self.operations[usize::from(op)].have(code_of(component, op), array) {
                return false;
            }
        }
        true
    }
}

/// Whether the array is guarded by one of the component's locks.
fn is_guarded(alloc: Global, component: &Component, array: u8) -> Result<bool, AllocError>
    requires { array < length component.now.arrays }
    ensures { IfOk result (λ guarded. IsTrue guarded ↔ IsGuarded component.now array) }
{
    for lock in 0..component.locks().len() as u8 {
        let sections = Sections::new(alloc, component, lock)?;
        if sections.have(component, array) {
            return Ok(true);
        }
    }
    Ok(false)
}

/// Whether each array of a component is guarded by a lock.
#[derive(Drop)]
pub struct Guards {
    arrays: Vec<bool>,
}

impl Model for Guards {
    ghost use Rattle.std.specs.Prelude.{Bool, List};

    ghost Value = { List Bool };

    ghost view = { λ g. g.arrays.items };
}

impl Guards {
    /// Finds out which of the component's arrays are guarded.
    ///
    /// # Errors
    ///
    /// Out of memory.
    pub fn new(alloc: Global, component: &Component) -> Result<Guards, AllocError>
        ensures { IfOk result (TellsGuarded component.now) }
    {
        let mut arrays = Vec::new(alloc);
        for array in 0..component.arrays().len() as u8 {
            arrays.push(is_guarded(alloc, component, array)?)?;
        }
        Ok(Guards { arrays })
    }

    /// Whether the array is guarded.
    pub(crate) fn has(&self, array: u8) -> bool
        ensures { result ≡ get_or self.now array false }
    {
        self.arrays
            .get(usize::from(array))
            .copied()
            .unwrap_or(false)
    }
}
