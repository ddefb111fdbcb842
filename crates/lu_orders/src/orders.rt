//! In how many orders moves can be made.

ghost use Rattle.std.specs.Prelude.{◌≡◌, ◌+◌, ◌<◌, ◌≤◌, ◌^◌, ℕ, suc, IfOk, IfSome, IsSome, List, length, slice_set, vec_len};
ghost use Rattle.lu_machine.specs.Sums.{capped};
ghost use Rattle.lu_machine.specs.declared.TheConstants.{MOST_MOVES};
ghost use Rattle.lu_orders.specs.Orders.{AreRows, AreWithOne, IsNumberOf, IsRow, IsWithOne, CountsUpTo, all_moves, interleavings, orders, orders_within};

use lu_machine::MOST_MOVES;
use std::alloc::{AllocError, Global};
use std::marker::Model;

/// The numbers for this many moves of one thread, and each number of moves of another.
#[derive(Debug, Drop)]
struct Row {
    numbers: Vec<u64>,
}

impl Model for Row {
    ghost use Rattle.std.specs.Prelude.{ℕ, List};

    ghost Value = { List ℕ };

    ghost view = { λ r. r.numbers.items };
}

/// In how many orders the moves of two threads can be made, each number up to 2^64 - 1.
#[derive(Debug, Drop)]
pub struct Orders {
    rows: Vec<Row>,
}

impl Model for Orders {
    ghost use Rattle.std.specs.Prelude.{ℕ, List};
    ghost use Rattle.lu_orders.specs.Orders.{AreRows, IsSquare};

    ghost Value = { List (List ℕ) };

    ghost view = { λ o. o.rows.items };

    ghost invariant = { λ o. AreRows 0 o.rows.items × IsSquare o.rows.items };
}

/// The numbers for no move of the one thread.
fn first_row(alloc: Global, most: u16) -> Result<Vec<u64>, AllocError>
    ensures row { IfOk result (λ row. IsRow 0 row.items) }
    ensures many { IfOk result (λ row. vec_len row ≡ most + 1) }
{
    Ok(vec![in alloc; 1; usize::from(most) + 1]?)
}

/// The numbers for one move more than those of `row`.
fn next_row(alloc: Global, row: &[u64]) -> Result<Vec<u64>, AllocError>
    requires some { 0 < length row.now }
    ensures next { (a : ℕ) → IsRow a row.now → IfOk result (λ r. IsRow (suc a) r.items) }
    ensures many { IfOk result (λ next. vec_len next ≡ length row.now) }
{
    let mut next = Vec::new(alloc);
    let mut number: u64 = 1;
    next.push(number)?;
    for b in 1..row.len() {
        number = number.saturating_add(row[b]);
        next.push(number)?;
    }
    Ok(next)
}

/// Without a thread there is one order of no move.
fn start(row: &mut [u64])
    requires { 0 < length row.old }
    ensures { row.new ≡ slice_set row.old 0 1 }
{
    row[0] = 1;
}

impl Row {
    /// The number for `b` moves: none where the row is too short.
    fn at(&self, b: usize) -> Option<u64>
        ensures number { (a : ℕ) → IsRow a self.now → IfSome result (IsNumberOf a b) }
        ensures answers { b < length self.now → IsSome result }
    {
        match self.numbers.get(b) {
            None => None,
            Some(number) => Some(*number),
        }
    }
}

impl Orders {
    /// The numbers for at most this many moves of each of two threads.
    ///
    /// # Errors
    ///
    /// `AllocError` where memory was refused.
    pub fn new(alloc: Global, most: u16) -> Result<Orders, AllocError>
        ensures { IfOk result (λ table. length table ≡ most + 1) }
    {
        let mut rows = Vec::new(alloc);
        let mut row = first_row(alloc, most)?;
        for _moves in 0..most {
            let next = next_row(alloc, &row)?;
            rows.push(Row { numbers: row })?;
            row = next;
        }
        rows.push(Row { numbers: row })?;
        Ok(Orders { rows })
    }

    /// In how many orders `a` moves of one thread and `b` of another can be made: none where the
    /// table is too small.
    fn of(&self, a: usize, b: usize) -> Option<u64>
        ensures number { IfSome result (λ number. number ≡ capped (orders a b)) }
        ensures answers { CountsUpTo self.now a → CountsUpTo self.now b → IsSome result }
        ensures few { length self.now < 2 ^ 64 }
    {
        match self.rows.get(a) {
            None => None,
            Some(row) => row.at(b),
        }
    }

    /// In how many orders threads can make this many moves each. Where all their moves together are
    /// no more than the table is for, their number is returned; else it may be none.
    pub fn interleavings(&self, lengths: &[usize]) -> Option<u64>
        ensures number { IfSome result (λ number. number ≡ capped (interleavings lengths.now)) }
        ensures answers { CountsUpTo self.now (all_moves lengths.now) → IsSome result }
    {
        let mut all: usize = 0;
        let mut number: u64 = 1;
        for i in 0..lengths.len() {
            let moves = lengths[lengths.len() - 1 - i];
            number = self.of(moves, all)?.saturating_mul(number);
            all = all.checked_add(moves)?;
        }
        Some(number)
    }

    /// One thread more, that makes at most `cap` of `left` moves, where `row` has the numbers of
    /// the others: none where the table is too small.
    fn with_one(&self, cap: usize, left: usize, row: &[u64]) -> Option<u64>
        requires { left < length row.now }
        ensures number { IfSome result (IsWithOne row.now cap left) }
        ensures answers { CountsUpTo self.now left → IsSome result }
    {
        let mut number: u64 = 0;
        for moves in 0..cap.min(left) + 1 {
            let others = left - moves;
            number = number.saturating_add(self.of(moves, others)?.saturating_mul(row[others]));
        }
        Some(number)
    }

    /// Puts one thread more to the numbers for up to `left` moves, that makes at most `cap` of
    /// them: none where the table is too small.
    fn add_thread(&self, cap: usize, left: usize, row: &mut [u64]) -> Option<()>
        requires { left < length row.old }
        ensures many { length row.new ≡ length row.old }
        ensures numbers { IsSome result → AreWithOne row.old cap left row.new }
        ensures answers { CountsUpTo self.now left → IsSome result }
    {
        for back in 0..left + 1 {
            let moves = left - back;
            row[moves] = self.with_one(cap, moves, row)?;
        }
        Some(())
    }

    /// In how many orders `left` moves can be made, of which each thread makes no more than its
    /// cap. Where they are no more than 256, nor than the table is for, their number is
    /// returned; else it may be none.
    pub fn orders_within(&self, left: usize, caps: &[u16]) -> Option<u64>
        ensures number { IfSome result (λ n. n ≡ capped (orders_within left caps.now)) }
        ensures answers { left ≤ MOST_MOVES → CountsUpTo self.now left → IsSome result }
    {
        if left > usize::from(MOST_MOVES) {
            return None;
        }
        let mut row = [0; MOST_MOVES as usize + 1];
        start(&mut row);
        for back in 0..caps.len() {
            let cap = usize::from(caps[caps.len() - 1 - back]);
            self.add_thread(cap, left, &mut row)?;
        }
        Some(row[left])
    }
}
