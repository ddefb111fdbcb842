//! A table of rows that several threads can fill.

ghost use Rattle.std.specs.Prelude.{◌≡◌, ◌<◌, [], ◌∷◌, ◌^◌, length, not, slice_get, sum, IfOk, OnErr, OnOk};
ghost use Rattle.std.specs.List.{IsDistinct, list_any};
ghost use Rattle.indexmap.specs.IndexSet.{insert_key};
ghost use Rattle.lu_graph.specs.InTables.{AreCounts, AreLengths, AreOrdered, HasTaken, HasShare, HaveNext, HaveTaken, IsShare, Orders, PutsEach, has_row, is_row, row_eq, rows_at, rows_in, rows_of, with_own};
ghost use Rattle.lu_graph.specs.InTables.{table_of as number_of_table};
ghost use Rattle.lu_graph.specs.Putting.{Puts};

use crate::row::Row;
use indexmap::IndexSet;
use std::alloc::{AllocError, Global};
use std::marker::Model;
use std::snapshot::Snapshot;
use std::sync::Wait;
use std::thread;
use std::thread::{Promise, PromisedHandle, Scope, Threads};

/// How many tables there are.
const TABLES: usize = 4;

/// Where a row stands: in which table, and at which index of that.
#[derive(Clone, Copy)]
struct RowIndex {
    table: u8,
    index: u32,
}

/// Some of the rows, each once.
#[derive(Drop)]
struct Table {
    rows: IndexSet<Row>,

    /// Whether memory was refused when rows were put in.
    is_refused: bool,
}

/// Rows, each once, in the order in which they came. They stand in several tables: the sum of a
/// row's numbers says in which, so that several threads can put rows in, each into tables of its
/// own.
#[derive(Drop)]
pub struct RowTable {
    tables: [Table; TABLES],
    order: Vec<RowIndex>,
}

impl Model for RowTable {
    ghost use Rattle.lu_graph.specs.AllRows.{AllRows};

    ghost Value = { AllRows };

    ghost use Rattle.lu_graph.specs.InTables.{HaveAll, rows_at, rows_in};

    ghost view = { λ a. record { keys = rows_at (rows_in a.tables) a.order.items } };

    ghost invariant = { λ a. HaveAll (rows_in a.tables) a.order.items };
}

impl Table {
    /// No rows.
    fn new(alloc: Global) -> Table
        ensures { result.rows.keys ≡ [] }
    {
        Table {
            rows: IndexSet::new(alloc),
            is_refused: false,
        }
    }

    /// Puts in those of the rows that are of the table with this number.
    fn fill(&mut self, number: usize, rows: &[Row])
        ensures { HasTaken number rows.now self.old self.new }
    {
        self.is_refused = put_own(&mut self.rows, number, rows).is_err();
    }

    /// The table with those of the rows that are of the table with this number.
    fn filled(mut self, number: usize, rows: &[Row]) -> Table
        ensures { HasTaken number rows.now self result }
    {
        self.fill(number, rows);
        self
    }
}

/// The sum of these numbers.
fn sum_of(numbers: &[u32; 8]) -> u64
    ensures value { result ≡ sum numbers.now }
    ensures small { result < 2 ^ 40 }
{
    let mut total = 0;
    for number in numbers {
        total += u64::from(*number);
    }
    total
}

/// The number of the row's table: the sum of its numbers modulo the number of tables.
fn table_of(row: &Row) -> u8
    ensures value { result ≡ number_of_table row.now }
    ensures small { result < 4 }
{
    let sum = u64::from(row.cells)
        + u64::from(row.locks)
        + sum_of(&row.threads)
        + u64::from(row.alive);
    (sum % TABLES as u64) as u8
}

/// Puts those of the rows in that are of the table with this number.
fn put_own(table: &mut IndexSet<Row>, number: usize, rows: &[Row]) -> Result<(), AllocError>
    ensures { OnOk result (table.new.keys ≡ with_own number rows.now table.old.keys) }
{
    for row in rows {
        if usize::from(table_of(row)) == number {
            table.insert(*row)?;
        }
    }
    Ok(())
}

/// The row that stands there, if there is one.
fn row_at(tables: &[Table], at: RowIndex) -> Option<Row>
    ensures { result ≡ slice_get (rows_of (rows_in tables.now) at.table) at.index }
{
    let table = tables.get(usize::from(at.table))?;
    table.rows.get_index(at.index as usize).copied()
}

/// Whether the table of this number has the row.
fn has(tables: &[Table], number: u8, row: &Row) -> bool
    ensures { result ≡ has_row (rows_in tables.now) number row.now }
{
    match tables.get(usize::from(number)) {
        None => false,
        Some(table) => table.rows.contains(row),
    }
}

/// Where the row of this index stands in the table of this number. More than 4,294,967,296 stand
/// nowhere: that is reported as refused memory.
fn row_index(table: u8, index: usize) -> Result<RowIndex, AllocError>
    ensures table { IfOk result (λ at. at.table ≡ table) }
    ensures index { IfOk result (λ at. at.index ≡ index) }
{
    let index = u32::try_from(index).map_err(|_| AllocError)?;
    Ok(RowIndex { table, index })
}

/// Where the next row stands in the table of this number.
fn next_index(tables: &[Table], number: u8) -> Result<RowIndex, AllocError>
    requires { number < length tables.now }
    ensures table { IfOk result (λ at. at.table ≡ number) }
    ensures index { IfOk result (λ p. p.index ≡ length (rows_of (rows_in tables.now) number)) }
{
    row_index(number, tables[usize::from(number)].rows.len())
}

/// Puts the row into its table, of this number, if it is not there, and says whether it was new.
fn put(tables: &mut [Table], number: u8, row: Row) -> Result<bool, AllocError>
    requires within { number < length tables.old }
    requires own { number ≡ number_of_table row }
    ensures added { IfOk result (λ new. new ≡ not (has_row (rows_in tables.old) number row)) }
    ensures put { OnOk result (PutsEach (row ∷ []) (rows_in tables.old) (rows_in tables.new)) }
    ensures kept { OnErr result (rows_in tables.new ≡ rows_in tables.old) }
{
    let table = &mut tables[usize::from(number)];
    let added = table.rows.insert(row)?;
    Ok(added)
}

/// What a thread hands back: the table of this number with its own of the rows, and what it had
/// before.
#[derive(Drop)]
struct Filling<'a> {
    number: usize,
    rows: &'a [Row],
    before: Snapshot<Table>,
}

impl<'a> Promise<Table> for Filling<'a> {
    ghost kept_by = { λ filling table.
        HasTaken filling.number filling.rows.now filling.before.value table };
}

/// A table that a thread fills, or that is filled.
enum Share<'a> {
    Started(PromisedHandle<Table, Filling<'a>>),
    Filled(Table),
}

impl<'a> Share<'a> {
    /// The table, once it is filled.
    fn finish<R: Threads>(self, rt: &R) -> Table
        ensures { HasShare self.entry result }
    {
        match self {
            Share::Started(handle) => handle.join(rt),
            Share::Filled(table) => table,
        }
    }
}

/// Starts a thread of this scope that fills the table of this number. Where the start is refused,
/// it is filled here.
fn start_share<'s, E>(
    scope: &Scope<'s, E>,
    table: Table,
    number: usize,
    rows: &'s [Row],
) -> Share<'s>
    ensures { IsShare number rows.now table result }
{
    let filling = Filling {
        number,
        rows,
        before: Snapshot::of(&table),
    };
    match scope.spawn_with(filling, move || table.filled(number, rows)) {
        Ok(handle) => Share::Started(handle),
        Err(refused) => Share::Filled((refused.value)()),
    }
}

/// Puts the rows into their tables, each but the last by a thread of this scope.
fn fill_in<'s, E, R: Threads>(
    scope: &Scope<'s, E>,
    rt: &R,
    tables: [Table; TABLES],
    rows: &'s [Row],
) -> [Table; TABLES]
    ensures { HaveTaken rows.now tables result }
{
    let [first, second, third, last] = tables;
    let first = start_share(scope, first, 0, rows);
    let second = start_share(scope, second, 1, rows);
    let third = start_share(scope, third, 2, rows);
    let last = last.filled(3, rows);
    [first.finish(rt), second.finish(rt), third.finish(rt), last]
}

/// Puts the rows into their tables, each by a thread of its own.
fn fill_each<R: Threads + Wait>(rt: &R, tables: [Table; TABLES], rows: &[Row]) -> [Table; TABLES]
    ensures { HaveTaken rows.now tables result }
{
    thread::scope(
        thread::scope_env(),
        rt,
        |scope| -> [Table; TABLES]
            ensures { HaveTaken rows.entry.now tables result }
        { fill_in(scope, rt, tables, rows) },
    )
}

/// Whether memory was refused.
fn is_any_refused(tables: &[Table]) -> bool
    ensures { result ≡ list_any (λ t. t.is_refused) tables.now }
{
    tables.iter().any(|table| table.is_refused)
}

/// Puts the rows into their tables, each by a thread of its own.
fn put_all<R: Threads + Wait>(
    rt: &R,
    tables: [Table; TABLES],
    rows: &[Row],
) -> Result<[Table; TABLES], AllocError>
    ensures { IfOk result (λ new. PutsEach rows.now (rows_in tables) (rows_in new)) }
{
    let filled = fill_each(rt, tables, rows);
    if is_any_refused(&filled) {
        return Err(AllocError);
    }
    Ok(filled)
}

/// How many rows each table has.
fn lengths(tables: &[Table; TABLES]) -> [usize; TABLES]
    ensures { AreLengths result (rows_in tables.now) }
{
    let mut counts = [0; TABLES];
    for number in 0..TABLES {
        counts[number] = tables[number].rows.len();
    }
    counts
}

/// Whether the row stands there in the table of this number.
fn is_at(tables: &[Table], number: usize, index: usize, row: &Row) -> bool
    requires { number < length tables.now }
    ensures at { result ≡ is_row row.now (slice_get (rows_of (rows_in tables.now) number) index) }
    ensures unique { IsDistinct row_eq (rows_of (rows_in tables.now) number) }
{
    match tables[number].rows.as_slice().get(index) {
        None => false,
        Some(other) => row == other,
    }
}

/// Puts the row next in order, where it stands after those of its table that have one.
fn order_next(
    tables: &[Table; TABLES],
    row: &Row,
    counts: &mut [usize; TABLES],
    order: &mut Vec<RowIndex>,
) -> Result<(), AllocError>
    ensures { OnOk result (Orders tables.now row.now counts.old counts.new order.old order.new) }
{
    let number = table_of(row);
    let count = counts[usize::from(number)];
    if is_at(tables, usize::from(number), count, row) {
        order.push(row_index(number, count)?)?;
        counts[usize::from(number)] = count + 1;
    }
    Ok(())
}

/// Puts all rows that are new in order. The tables have them, after this many others.
fn order_all(
    tables: &[Table; TABLES],
    rows: &[Row],
    mut counts: [usize; TABLES],
    mut order: Vec<RowIndex>,
) -> Result<Vec<RowIndex>, AllocError>
    requires have { HaveNext (rows_in tables.now) order.items rows.now }
    requires counts { AreCounts counts (rows_at (rows_in tables.now) order.items) }
    ensures { IfOk result (λ new. AreOrdered (rows_in tables.now) rows.now order.items new.items) }
{
    for row in rows {
        order_next(tables, row, &mut counts, &mut order)?;
    }
    Ok(order)
}

impl RowTable {
    /// No rows.
    pub(crate) fn new(alloc: Global) -> RowTable
        ensures { result.keys ≡ [] }
    {
        RowTable {
            tables: [
                Table::new(alloc),
                Table::new(alloc),
                Table::new(alloc),
                Table::new(alloc),
            ],
            order: Vec::new(alloc),
        }
    }

    /// How many rows there are.
    pub(crate) fn len(&self) -> usize
        ensures len { result ≡ length self.now.keys }
        ensures unique { IsDistinct row_eq self.now.keys }
    {
        self.order.len()
    }

    /// The row of this number, if there is one.
    pub(crate) fn row(&self, number: usize) -> Option<Row>
        ensures { result ≡ slice_get self.now.keys number }
    {
        let at = self.order.get(number)?;
        row_at(&self.tables, *at)
    }

    /// Whether the row is there.
    pub(crate) fn contains(&self, row: &Row) -> bool
        ensures { result ≡ list_any (row_eq row.now) self.now.keys }
    {
        has(&self.tables, table_of(row), row)
    }

    /// Puts the row in as the last, if it is not there, and says whether it was new.
    pub(crate) fn insert(&mut self, row: Row) -> Result<bool, AllocError>
        ensures added { IfOk result (λ new. new ≡ not (list_any (row_eq row) self.old.keys)) }
        ensures keys { OnOk result (self.new.keys ≡ insert_key row_eq self.old.keys row) }
    {
        let number = table_of(&row);
        let at = next_index(&self.tables, number)?;
        self.order.reserve(1)?;
        let added = put(&mut self.tables, number, row)?;
        if added {
            self.order.push_reserved(at);
        }
        Ok(added)
    }
    /// The table with these rows, put in one after the other where they are not there: by several
    /// threads, each of which fills a table of its own. The rows stand in the same order as if one
    /// thread had put them in.
    pub(crate) fn with_all<R: Threads + Wait>(
        self,
        rt: &R,
        rows: &[Row],
    ) -> Result<RowTable, AllocError>
        ensures { IfOk result (λ new. Puts self.keys rows.now new.keys) }
    {
        let RowTable { tables, order } = self;
        let counts = lengths(&tables);
        let tables = put_all(rt, tables, rows)?;
        let order = order_all(&tables, rows, counts, order)?;
        Ok(RowTable { tables, order })
    }
}
