//! Who finds where nodes lead, before they are gone through.

ghost use Rattle.std.specs.Prelude.{◌≡◌, ◌≤◌, All, IfOk};
ghost use Rattle.lu_machine.specs.Starts.{CanRun};
ghost use Rattle.lu_graph.specs.declared.expanders.TheConstants.{MOST_SHARED};
ghost use Rattle.lu_graph.specs.Expanding.{AllCanStand, AreExpanded, IsFrontier, Joins};
ghost use Rattle.lu_graph.specs.Guards.{TellsGuarded};
ghost use Rattle.lu_graph.specs.Putting.{Puts};

use crate::expanding::{Expansions, Frontier, expand_range};
use crate::row::Row;
use crate::row_table::RowTable;
use std::alloc::AllocError;
use std::sync::Wait;
use std::thread;
use std::thread::{Promise, PromisedHandle, Scope, Threads, join_promised};

/// The least nodes to go through of which several threads find where they lead: for fewer, a start
/// of threads takes longer than it saves.
const LEAST_SHARED: usize = 256;

/// The most of them at once. What is found of each is kept until it is gone through.
const MOST_SHARED: usize = 16_384;

/// Who finds, for a search, where some of the nodes lead, before it goes through them, and puts the
/// rows in that were found.
pub trait Expanders {
    /// What is found of some of the nodes, in their order.
    ///
    /// # Errors
    ///
    /// Memory was refused.
    fn expand(&self, frontier: Frontier<'_>) -> Result<Expansions, AllocError>
        requires { IsFrontier frontier }
        ensures { IfOk result (AreExpanded frontier.entry) };

    /// The table with these rows, put in one after the other where they are not there.
    ///
    /// # Errors
    ///
    /// Memory was refused.
    fn put_in(&self, table: RowTable, rows: &[Row]) -> Result<RowTable, AllocError>
        ensures { IfOk result (λ new. Puts table.keys rows.now new.keys) };
}

/// The table with these rows, put in one after the other where they are not there.
fn put_each(mut table: RowTable, rows: &[Row]) -> Result<RowTable, AllocError>
    ensures { IfOk result (λ new. Puts table.keys rows.now new.keys) }
{
    for row in rows {
        table.insert(*row)?;
    }
    Ok(table)
}

/// Nobody: the search is on its own.
pub struct Alone;

impl Expanders for Alone {
    fn expand(&self, frontier: Frontier<'_>) -> Result<Expansions, AllocError> {
        Ok(Expansions::new(frontier.alloc))
    }

    fn put_in(&self, table: RowTable, rows: &[Row]) -> Result<RowTable, AllocError> {
        put_each(table, rows)
    }
}

/// How many threads may help a search.
pub trait Helpers {
    /// How many may be started beside the calling thread now. It is asked anew for each share of
    /// the nodes.
    fn count(&self) -> u8;
}

/// Threads of their own, beside the one that searches.
#[derive(Drop)]
pub struct ByThreads<'a, R, H> {
    /// What starts the threads.
    pub rt: &'a R,

    /// How many there may be.
    pub helpers: &'a H,
}

/// What a thread hands back is what it found of its share of the nodes.
impl<'a> Promise<Expansions> for Frontier<'a> {
    ghost kept_by = { λ frontier found. AreExpanded frontier found };
}

/// Joins each of these threads, and lets go of what it found.
fn join_each<R: Threads>(rt: &R, children: Vec<PromisedHandle<Expansions, Frontier<'_>>>) {
    for child in children {
        drop(child.join(rt));
    }
}

/// All that was found, in order.
fn gather(mut first: Expansions, others: Vec<Expansions>) -> Result<Expansions, AllocError>
    ensures { IfOk result (Joins first others.items) }
{
    for mut found in others {
        first.nodes.append(&mut found.nodes)?;
        first.rows.append(&mut found.rows)?;
    }
    Ok(first)
}

/// Runs this many helpers in threads of this scope, each with a share of this many nodes; the
/// calling thread takes the first share. Where the start of one is refused, nothing is found.
fn run_in<'s, E, R: Threads>(
    scope: &Scope<'s, E>,
    rt: &R,
    frontier: Frontier<'s>,
    helpers: u8,
    share: usize,
) -> Result<Expansions, AllocError>
    requires frontier { IsFrontier frontier }
    requires few { share ≤ MOST_SHARED }
    ensures { IfOk result (AreExpanded frontier.entry) }
{
    let Frontier {
        alloc,
        component,
        matrix,
        members,
        guards,
        nodes,
        visited,
        end,
    } = frontier;
    let mut children = Vec::with_capacity(alloc, usize::from(helpers))?;
    for number in 0..helpers {
        let from = visited.saturating_add(share * (usize::from(number) + 1));
        let started = scope.spawn_with(
            frontier,
            move || -> Expansions
                requires runs { CanRun component.now matrix.now }
                requires stand { AllCanStand component.now matrix.now nodes.now }
                requires guards { TellsGuarded component.now guards.now }
            {
                let frontier = Frontier {
                    alloc,
                    component,
                    matrix,
                    members,
                    guards,
                    nodes,
                    visited,
                    end,
                };
                expand_range(frontier, from, share)
            },
        );
        match started {
            Ok(child) => children.push_reserved(child),
            Err(_) => {
                join_each(rt, children);
                return Ok(Expansions::new(alloc));
            }
        }
    }
    let mine = expand_range(frontier, visited, share);
    match join_promised(rt, children) {
        Ok(others) => gather(mine, others),
        Err(failed) => {
            join_each(rt, failed.value);
            Err(AllocError)
        }
    }
}

impl<'a, R: Threads + Wait, H: Helpers> Expanders for ByThreads<'a, R, H> {
    fn expand(&self, frontier: Frontier<'_>) -> Result<Expansions, AllocError> {
        let helpers = self.helpers.count();
        let known = frontier.nodes.rows.len();
        let many = known.min(frontier.end).saturating_sub(frontier.visited);
        if helpers == 0 || many < LEAST_SHARED {
            return Ok(Expansions::new(frontier.alloc));
        }
        let share = many.min(MOST_SHARED) / (usize::from(helpers) + 1);
        let Frontier {
            alloc,
            component,
            matrix,
            members,
            guards,
            nodes,
            visited,
            end,
        } = frontier;
        let rt = self.rt;
        thread::scope(
            thread::scope_env(),
            rt,
            |scope| -> Result<Expansions, AllocError>
                requires runs { CanRun component.now matrix.now }
                requires stand { AllCanStand component.now matrix.now nodes.now }
                requires guards { TellsGuarded component.now guards.now }
                requires few { share ≤ MOST_SHARED }
            {
                let frontier = Frontier {
                    alloc,
                    component,
                    matrix,
                    members,
                    guards,
                    nodes,
                    visited,
                    end,
                };
                run_in(scope, rt, frontier, helpers, share)
            },
        )
    }

    fn put_in(&self, table: RowTable, rows: &[Row]) -> Result<RowTable, AllocError> {
        table.with_all(self.rt, rows)
    }
}
