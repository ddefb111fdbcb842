//! Where machines stand, as numbers. They take less memory than a position.

ghost use Rattle.std.specs.Prelude.{◌≡◌, ◌%◌, ◌<◌, drop, length, map, take, All, IfOk, OnErr, OnOk};
ghost use Rattle.lu_machine.specs.declared.thread.Activity.TheVariants.{Open};
ghost use Rattle.lu_conform.specs.Packing as spec;
ghost use Rattle.lu_conform.specs.Packing.{AddsOwners, AddsThread, AddsThreads, AreReadBack, CanStandWith, IsActivityReadBack, IsOwnerReadBack, IsThreadReadBack, numbers_at, standing_with};

use lu_machine::{Activity, Frame, Machine, Thread};
use std::alloc::{AllocError, Global};

/// The number of a lock's owner.
fn owner_number(owner: Option<u8>) -> u32
    ensures number { result ≡ spec.owner_number owner }
    ensures back { IsOwnerReadBack owner }
{
    match owner {
        None => 0,
        Some(thread) => u32::from(thread) + 1,
    }
}

/// Adds the number of each owner.
fn add_owners(numbers: &mut Vec<u32>, owners: &[Option<u8>]) -> Result<(), AllocError>
    ensures added { OnOk result (AddsOwners numbers.old.items owners.now numbers.new.items) }
    ensures back { OnOk result (All IsOwnerReadBack owners.now) }
{
    match owners {
        [] => Ok(()),
        [owner, rest @ ..] => {
            numbers.push(owner_number(*owner))?;
            add_owners(numbers, rest)
        }
    }
}

/// A byte as a number of 32 bits.
fn byte_number(byte: u8) -> u32
    ensures number { result ≡ byte }
    ensures small { byte < 256 }
{
    u32::from(byte)
}

/// The number of an open operation's place.
fn open_number(frame: Frame) -> u32
    ensures number { result ≡ spec.activity_number (Open frame) }
    ensures back { IsActivityReadBack (Open frame) }
{
    byte_number(frame.op) * 256 + byte_number(frame.place) + 1
}

/// The number of what a thread is at.
fn activity_number(activity: Activity) -> u32
    ensures number { result ≡ spec.activity_number activity }
    ensures back { IsActivityReadBack activity }
{
    match activity {
        Activity::Idle => 0,
        Activity::Open(frame) => open_number(frame),
    }
}

/// The registers of a thread, each 0 where it is idle.
fn registers_of(activity: Activity) -> [u32; 8]
    ensures registers { result ≡ spec.registers_of activity }
    ensures size { length result ≡ 8 }
{
    match activity {
        Activity::Idle => [0; 8],
        Activity::Open(frame) => frame.registers,
    }
}

/// Adds the numbers of a thread.
fn add_thread(numbers: &mut Vec<u32>, thread: Thread) -> Result<(), AllocError>
    ensures added { OnOk result (AddsThread numbers.old.items thread numbers.new.items) }
    ensures back { OnOk result (IsThreadReadBack thread) }
{
    numbers.push(byte_number(thread.done))?;
    numbers.push(activity_number(thread.activity))?;
    numbers.extend_from_slice(&registers_of(thread.activity))
}

/// Adds the numbers of all threads.
fn add_threads(numbers: &mut Vec<u32>, machine: &Machine<'_>) -> Result<(), AllocError>
    ensures added { OnOk result (AddsThreads numbers.old.items machine.now numbers.new.items) }
    ensures back { OnOk result (All IsThreadReadBack machine.now.threads) }
{
    for thread in 0..machine.threads() {
        if let Some(standing) = machine.standing(thread) {
            add_thread(numbers, *standing)?;
        }
    }
    Ok(())
}

/// The numbers of where the machine stands.
pub(crate) fn numbers_at(alloc: Global, machine: &Machine<'_>) -> Result<Vec<u32>, AllocError>
    ensures numbers { IfOk result (λ numbers. numbers.items ≡ numbers_at machine.now) }
    ensures back { IfOk result (λ numbers. AreReadBack machine.now) }
{
    let mut numbers = Vec::new(alloc);
    add_owners(&mut numbers, machine.locks())?;
    add_threads(&mut numbers, machine)?;
    numbers.extend_from_slice(machine.cells())?;
    Vec::from_slice(alloc, &numbers)
}

/// The low byte of a number.
fn low_byte(number: u32) -> u8
    ensures { result ≡ number % 256 }
{
    (number % 256) as u8
}

/// The owner of a lock with this number.
fn owner_in(number: u32) -> Option<u8>
    ensures { result ≡ spec.owner_in number }
{
    if number == 0 {
        return None;
    }
    Some(low_byte(number - 1))
}

/// What a thread is at that has this number and these registers.
fn activity_in(number: u32, registers: [u32; 8]) -> Activity
    ensures { result ≡ spec.activity_in number registers }
{
    if number == 0 {
        return Activity::Idle;
    }
    Activity::Open(Frame {
        registers,
        op: low_byte((number - 1) / 256),
        place: low_byte(number - 1),
    })
}

/// The number at this place, or 0.
fn number_at(numbers: &[u32], place: usize) -> u32
    ensures { result ≡ spec.number_at numbers.now place }
{
    match numbers.get(place) {
        None => 0,
        Some(number) => *number,
    }
}

/// The numbers after this many.
fn after(numbers: &[u32], count: usize) -> &[u32]
    ensures { result.now ≡ drop count numbers.now }
{
    match numbers.get(count..) {
        None => &[],
        Some(rest) => rest,
    }
}

/// The registers of the first thread.
fn registers_in(numbers: &[u32]) -> [u32; 8]
    ensures { result ≡ spec.registers_in numbers.now }
{
    [
        number_at(numbers, 2),
        number_at(numbers, 3),
        number_at(numbers, 4),
        number_at(numbers, 5),
        number_at(numbers, 6),
        number_at(numbers, 7),
        number_at(numbers, 8),
        number_at(numbers, 9),
    ]
}

/// The first thread.
fn thread_in(numbers: &[u32]) -> Thread
    ensures { result ≡ spec.thread_in numbers.now }
{
    Thread {
        done: low_byte(number_at(numbers, 0)),
        activity: activity_in(number_at(numbers, 1), registers_in(numbers)),
    }
}

/// This many threads.
fn threads_in(alloc: Global, numbers: &[u32], count: u8) -> Result<Vec<Thread>, AllocError>
    ensures { IfOk result (λ threads. threads.items ≡ spec.threads_in count numbers.now) }
{
    let mut threads = Vec::with_capacity(alloc, usize::from(count))?;
    let mut rest = numbers;
    for _read in 0..count {
        threads.push(thread_in(rest))?;
        rest = after(rest, 10);
    }
    Ok(threads)
}

/// The owners of these numbers.
fn owners_in(alloc: Global, numbers: &[u32]) -> Result<Vec<Option<u8>>, AllocError>
    ensures { IfOk result (λ owners. owners.items ≡ map spec.owner_in numbers.now) }
{
    numbers
        .iter()
        .map(|number| owner_in(*number))
        .collect(alloc)
}

/// The first numbers, this many.
fn first(numbers: &[u32], count: usize) -> &[u32]
    ensures { result.now ≡ take count numbers.now }
{
    match numbers.get(..count) {
        None => numbers,
        Some(first) => first,
    }
}

/// Stands where these numbers say. A machine of the component and the matrix is asked to be able
/// to.
///
/// # Errors
///
/// Memory was refused. The machine then stands where it did.
pub(crate) fn stand_at(
    alloc: Global,
    machine: &mut Machine<'_>,
    numbers: &[u32],
) -> Result<(), AllocError>
    requires { CanStandWith machine.old.component machine.old.matrix numbers.now }
    ensures stands { OnOk result (machine.new ≡ standing_with machine.old numbers.now) }
    ensures kept { OnErr result (machine.new ≡ machine.old) }
{
    let locks = machine.component().locks().len();
    let count = machine.matrix().threads();
    let owners = owners_in(alloc, first(numbers, locks))?;
    let threads = threads_in(alloc, after(numbers, locks), count)?;
    let cells = after(after(numbers, locks), usize::from(count) * 10);
    machine.stand_with(cells, &owners, &threads);
    Ok(())
}
