//! The life of a worker.

ghost use Rattle.std.specs.Prelude.{◌≡◌, ◌<◌, ◌≤◌, ◌∷◌, [], List, length};
ghost use Rattle.lu_machine.specs.Starts.{CanRun};
ghost use Rattle.lu_history.specs.declared.serial.SerialOp.{SerialOp};
ghost use Rattle.lu_witness.specs.Caches.{SameButEntries};
ghost use Rattle.lu_report.specs.Limits.{most_moves};
ghost use Rattle.lu_tree.specs.Searchers.{tree_of};
ghost use Rattle.lu_tree.specs.Trees.{is_abandoned};
ghost use Rattle.lu_parallel.specs.Watches.{held_piece};
ghost use Rattle.lu_parallel.specs.Works.{ArePieces, IsNoted, IsFresh, IsLent, IsSearcherFor, IsWorkFor, Worked, PutsAway, Tallied};

use crate::gate::Gate;
use crate::seat_watch::SeatWatch;
use crate::works::{FoundPiece, Work};
use lu_board::{Board, Kind, Look, Seat};
use lu_component::Component;
use lu_machine::{Counts, Test};
use lu_test::{Matrix, Schedule};
use lu_tree::{Found, SearchSpace, Searcher};
use lu_trie::SerialTree;
use lu_witness::Cache;
use std::alloc::{AllocError, Global};

/// How many verdicts a worker remembers.
pub(crate) const REMEMBERED: usize = 1024;

/// What all workers are lent.
#[derive(Drop)]
#[derive_where(Clone, Copy)]
pub(crate) struct Job<'a, T, G> {
    pub(crate) space: SearchSpace<'a>,
    pub(crate) tree: &'a T,
    pub(crate) pieces: &'a [Schedule],
    pub(crate) board: &'a Board,
    pub(crate) gate: &'a G,
}

/// A worker, and what it has done so far.
#[derive(Drop)]
struct Worker {
    /// Its number, from 0.
    number: u8,

    /// How many schedules of its clean pieces are complete, stuck and cut.
    counts: Counts,

    /// Its bad pieces.
    found: Vec<FoundPiece>,

    /// Whether memory was refused. The worker then gives up all that it claims.
    starved: bool,
}

impl Worker {
    fn new(alloc: Global, number: u8) -> Worker
        ensures counts { result.counts ≡ record { complete = 0; stuck = 0; cut = 0 } }
        ensures found { result.found.items ≡ [] }
    {
        Worker {
            number,
            counts: Counts::NONE,
            found: Vec::new(alloc),
            starved: false,
        }
    }

    /// Takes down what the search of a piece came to, and tells the board.
    fn note<T, G>(
        &mut self,
        job: &Job<'_, T, G>,
        found: Result<Found, AllocError>,
        seat: Seat,
        piece: u64,
    ) -> Seat
        requires board { seat.board ≡ job.now.board.now.board }
        requires held { seat.view.held ≡ held_piece (is_abandoned found) piece }
        ensures board { result.board ≡ seat.board }
        ensures pieces { result.view.pieces ≡ seat.view.pieces }
        ensures past { result.view.past ≡ seat.view.past }
        ensures held { result.view.held ≡ [] }
        ensures holds { IsNoted job.now piece found seat self.old result self.new }
    {
        let mut seat = seat;
        match found {
            Ok(Found::Clean(counts)) => {
                self.counts = self.counts.plus(counts);
                job.board.settle(&mut seat, piece, Kind::Clean);
                seat
            }
            Ok(Found::Bad { schedule, why }) => {
                if self.found.reserve(1).is_err() {
                    self.starved = true;
                    job.board.settle(&mut seat, piece, Kind::GivenUp);
                    return seat;
                }
                self.found.push_reserved(FoundPiece {
                    piece,
                    schedule,
                    why,
                });
                job.board.lower(&mut seat, piece);
                seat
            }
            Ok(Found::Abandoned) => seat,
            Err(_) => {
                self.starved = true;
                job.board.settle(&mut seat, piece, Kind::GivenUp);
                seat
            }
        }
    }

    /// Goes with a piece that the seat holds from the gate to the end: it is searched until a
    /// lesser piece was found bad, and is then skipped, or found bad, found clean or given up.
    fn serve<'t, T: SerialTree, G: Gate>(
        &mut self,
        job: &Job<'_, T, G>,
        searcher: &mut Searcher<'_, 't, T>,
        cache: &mut Cache<'t, T>,
        seat: Seat,
        piece: u64,
    ) -> Seat
        requires job { IsLent job.now }
        requires searcher { IsSearcherFor job.now searcher.old }
        requires tree { cache.old.tree ≡ tree_of searcher.old }
        requires board { seat.board ≡ job.now.board.now.board }
        requires piece { piece < length job.now.pieces.now }
        requires held { seat.view.held ≡ piece ∷ [] }
        ensures searcher { IsSearcherFor job.now searcher.new }
        ensures tree { tree_of searcher.new ≡ tree_of searcher.old }
        ensures cache { SameButEntries cache.old cache.new }
        ensures board { result.board ≡ seat.board }
        ensures away { PutsAway piece seat.view result.view }
        ensures holds { Tallied job.now (T.members cache.old.tree) seat self.old result self.new }
    {
        let mut seat = seat;
        if self.starved {
            job.board.settle(&mut seat, piece, Kind::GivenUp);
            return seat;
        }
        job.gate.pass(self.number, piece);
        match job.board.look(&mut seat, piece) {
            Look::Skip(_) => {
                job.gate.done(self.number, piece);
                seat
            }
            Look::Go(_) => {
                let from = &job.pieces[piece as usize];
                let mut watch = SeatWatch::new(job.board, job.gate, seat, piece);
                let found = searcher.search(cache, from, &mut watch);
                let seat = self.note(job, found, watch.into_seat(), piece);
                job.gate.done(self.number, piece);
                seat
            }
        }
    }
}

/// The life of a worker that found no memory before its first claim.
fn give_up_all<T, G>(job: &Job<'_, T, G>, mut seat: Seat) -> Work
    requires job { IsLent job.now }
    requires fresh { IsFresh job.now.board.now.board seat }
    ensures { (members : List (List SerialOp)) → IsWorkFor job.now members result }
{
    while let Some(piece) = job.board.claim(&mut seat) {
        job.board.settle(&mut seat, piece, Kind::GivenUp);
    }
    Work {
        seat,
        counts: Counts::NONE,
        found: Vec::new(job.space.alloc),
    }
}

/// The life of one worker, on the calling thread: it claims pieces with its seat until none is
/// left. It passes the gate with each, looks whether the piece is still worth its work, and
/// searches it for bad schedules, those that end within `bound` moves, 0 to 256, and are not good
/// for the set of the tree (Burckhardt, Dern, Musuvathi and Tan, 2010). Pieces are schedules of no
/// more moves than that. The search of a piece stops where a lesser one was found bad meanwhile. A
/// piece is given up where memory is refused, and from then on each that is claimed, without gate
/// and search.
pub fn work<T: SerialTree, G: Gate>(
    alloc: Global,
    component: &Component,
    matrix: &Matrix,
    tree: &T,
    pieces: &[Schedule],
    bound: u16,
    board: &Board,
    mut seat: Seat,
    gate: &G,
    worker: u8,
) -> Work
    requires of { CanRun component.now matrix.now }
    requires bound { bound ≤ most_moves }
    requires pieces { ArePieces component.now matrix.now bound pieces.now }
    requires board { board.now.pieces ≡ length pieces.now }
    requires fresh { IsFresh board.now.board seat }
    ensures { Worked component.now matrix.now T.members tree.now bound pieces.now board.now result }
{
    let space = SearchSpace {
        alloc,
        test: Test { component, matrix },
        bound,
    };
    let job = Job {
        space,
        tree,
        pieces,
        board,
        gate,
    };
    let (Ok(mut cache), Ok(mut searcher)) = (
        Cache::new(alloc, tree, REMEMBERED),
        Searcher::new(space, tree),
    ) else {
        return give_up_all(&job, seat);
    };
    let mut worker = Worker::new(alloc, worker);
    while let Some(piece) = board.claim(&mut seat) {
        seat = worker.serve(&job, &mut searcher, &mut cache, seat, piece);
    }
    Work {
        seat,
        counts: worker.counts,
        found: worker.found,
    }
}
