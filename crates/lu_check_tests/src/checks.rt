//! Checks of one component by one worker and by many, some of which are held at a gate.

ghost use Rattle.std.specs.Prelude.{◌≡◌, ◌≤◌, IfOk, IfSome, All, length, vec_len};
ghost use Rattle.lu_machine.specs.Starts.{CanRun};
ghost use Rattle.lu_parallel.specs.Works.{ArePieces, IsFresh, IsSpentWork};

use lu_board::{Board, Kind, Seat};
use lu_fixtures::{Fixture, ROWS, fixture_of};
use lu_machine::Counts;
use lu_parallel::{CheckFault, Gate, OpenGate, Options, Work, check, conclude, work};
use lu_report::{Finding, Report};
use lu_serial::{Learnt, learn};
use lu_test::{Schedule, write_schedule};
use lu_tree::{Found, frontier};
use lu_trie::{SerialTree, Trie};
use lu_witness::Why;
use std::alloc::Global;
use std::process::Abort;
use std::sync::Wait;
use std::sync::atomic::{AtomicU64, Ordering};
use std::test::Fail;
use std::thread;
use std::thread::Threads;

/// The options, which are within their ranges.
fn options(rt: &impl Abort, workers: u8, depth: u8) -> Options {
    match Options::new(40, 40, workers, depth) {
        Some(options) => options,
        None => panic!(rt; "no options"),
    }
}

/// The report of a matrix, by as many workers as the options say.
fn report<R: AllocGlobal + Abort + Threads + Wait, G: Gate>(
    rt: &R,
    matrix: &[u8],
    gate: &G,
    options: Options,
) -> Result<Report, Fail> {
    let case = fixture_of(rt, ROWS.as_bytes(), matrix)?;
    Ok(check(rt, rt.alloc(), gate, &case.component, &case.matrix, options)?)
}

fn is_text(rt: &impl AllocGlobal, schedule: &Schedule, text: &str) -> Result<bool, Fail> {
    Ok(write_schedule(rt.alloc(), schedule)?.as_str() == text)
}

/// The report is a fail with this schedule, which is complete.
fn is_failure(rt: &impl AllocGlobal, report: &Report, text: &str) -> Result<bool, Fail> {
    match report.finding() {
        Finding::Fail { schedule, why } => Ok(
            *why == Why::Complete && is_text(rt, schedule, text)?,
        ),
        _ => Ok(false),
    }
}

/// The report is a pass with this many complete schedules, and none that is stuck or cut.
fn is_pass(report: &Report, complete: u64) -> bool {
    match report.finding() {
        Finding::Pass(counts) => {
            *counts
                == Counts {
                    complete,
                    stuck: 0,
                    cut: 0,
                }
        }
        _ => false,
    }
}

const TWO_INCREMENTS: &[u8] = b"thread inc\nthread inc\n";

const TWO_READS: &[u8] = b"thread get\nthread get\n";

const TWO_EXCHANGES: &[u8] = b"thread cinc\nthread cinc\n";

/// The least schedule in which one increment is lost.
const LOST_INCREMENT: &str = "schedule 0 0 0 1 1 0 0 1 1 1\n";

/// Options outside their ranges are refused.
#[test]
fn options_have_ranges(rt: HostRuntime) {
    for (bound, serial, workers, depth) in [
        (257, 1, 1, 0),
        (0, 0, 1, 0),
        (0, 257, 1, 0),
        (0, 1, 0, 0),
        (0, 1, 17, 0),
        (0, 1, 1, 9),
    ] {
        assert!(rt; Options::new(bound, serial, workers, depth).is_none());
    }
    assert!(rt; Options::new(0, 1, 1, 0).is_some());
    let Some(most) = Options::new(256, 255, 16, 8) else {
        panic!(&rt; "no options")
    };
    assert!(rt; (most.bound(), most.serial()) == (256, 255));
    assert!(rt; (most.workers(), most.depth()) == (16, 8));
}

#[test]
fn faults_have_codes(rt: HostRuntime) {
    assert!(rt; CheckFault::Memory.code() == "memory" && CheckFault::Worker.code() == "K2");
}

/// The number of a worker, from 1, once one has left it: waits for that, at most a million
/// turns. 0 where none came.
fn worker_in(left: &AtomicU64) -> u64 {
    for _ in 0..1_000_000 {
        let number = left.load(Ordering::SeqCst);
        if number > 0 {
            return number;
        }
        thread::yield_now();
    }
    0
}

/// A gate that holds a piece until a worker comes to another one, or is done with one.
#[derive(Drop)]
struct Holding {
    piece: u64,

    /// The piece to which a worker has to come; `NONE` where none has to.
    comes: u64,

    /// The piece with which a worker has to be done; `NONE` where none has to.
    done: u64,

    /// The worker that came with the held piece, from 1.
    held: AtomicU64,

    /// The worker for which it waits, from 1, as soon as it may go on.
    awaited: AtomicU64,

    /// The same when it went on.
    seen: AtomicU64,
}

/// No piece.
const NONE: u64 = u64::MAX;

impl Holding {
    fn new(piece: u64, comes: u64, done: u64) -> Holding {
        Holding {
            piece,
            comes,
            done,
            held: AtomicU64::new(0),
            awaited: AtomicU64::new(0),
            seen: AtomicU64::new(0),
        }
    }

    /// Whether the piece went on after another worker had done what it waits for.
    fn went_on_after_another(&self) -> bool {
        let seen = self.seen.load(Ordering::SeqCst);
        seen > 0 && seen != self.held.load(Ordering::SeqCst)
    }
}

impl Gate for Holding {
    fn pass(&self, worker: u8, piece: u64) {
        if piece == self.comes {
            self.awaited.store(u64::from(worker) + 1, Ordering::SeqCst);
        }
        if piece == self.done {
            worker_in(&self.held);
        }
        if piece == self.piece {
            self.held.store(u64::from(worker) + 1, Ordering::SeqCst);
            self.seen.store(worker_in(&self.awaited), Ordering::SeqCst);
        }
    }

    fn done(&self, worker: u8, piece: u64) {
        if piece == self.done {
            self.awaited.store(u64::from(worker) + 1, Ordering::SeqCst);
        }
    }
}

/// A piece is held while another worker goes through the next one, which waits until the first is
/// held.
#[test]
fn two_workers_work_at_once(rt: HostRuntime) -> Result<(), Fail> {
    let gate = Holding::new(0, NONE, 1);
    let reads = report(&rt, TWO_READS, &gate, options(&rt, 2, 4))?;
    assert!(rt; is_pass(&reads, 20));
    assert!(rt; gate.went_on_after_another());
    Ok(())
}

/// The least failure is reported, though its piece is held until another worker has come to the
/// last one.
#[test]
fn the_least_failure_comes_last(rt: HostRuntime) -> Result<(), Fail> {
    let gate = Holding::new(1, 15, NONE);
    let lost = report(&rt, TWO_INCREMENTS, &gate, options(&rt, 2, 4))?;
    assert!(rt; is_failure(&rt, &lost, LOST_INCREMENT)?);
    assert!(rt; gate.went_on_after_another());
    Ok(())
}

/// A gate that holds each worker's first piece until this many workers have come, at most a million
/// turns, and counts its calls.
#[derive(Drop)]
struct Meeting {
    wanted: u64,
    came: AtomicU64,
    met: AtomicU64,
    ends: AtomicU64,

    /// A bit for the number of each worker that came.
    workers: AtomicU64,
}

impl Meeting {
    fn new(wanted: u64) -> Meeting {
        Meeting {
            wanted,
            came: AtomicU64::new(0),
            met: AtomicU64::new(0),
            ends: AtomicU64::new(0),
            workers: AtomicU64::new(0),
        }
    }
}

impl Gate for Meeting {
    fn pass(&self, worker: u8, _piece: u64) {
        let bit = 1u64.wrapping_shl(u32::from(worker));
        self.workers.fetch_or(bit, Ordering::SeqCst);
        let before = self.came.fetch_add(1, Ordering::SeqCst);
        if before >= self.wanted {
            return;
        }
        for _ in 0..1_000_000 {
            if self.came.load(Ordering::SeqCst) >= self.wanted {
                self.met.fetch_add(1, Ordering::SeqCst);
                return;
            }
            thread::yield_now();
        }
    }

    fn done(&self, _worker: u8, _piece: u64) {
        self.ends.fetch_add(1, Ordering::SeqCst);
    }
}

/// A matrix and how many schedules it has, the number of workers, the looks of their head start,
/// and how many pieces they come to. After 64 schedules there is a look.
const PASSES: &[(&[u8], u64, u8, u64, u64)] = &[
    (TWO_READS, 20, 1, 0, 0),
    (TWO_READS, 20, 2, 0, 14),
    (TWO_READS, 20, 2, 1, 0),
    (TWO_EXCHANGES, 2564, 2, 1, 16),
    (TWO_EXCHANGES, 2564, 2, 1000, 0),
];

/// One worker calls no gate. Two call it for each piece, where their head start is over before the
/// search of the calling thread.
#[test]
fn pieces_pass_the_gate(rt: HostRuntime) -> Result<(), Fail> {
    for (matrix, schedules, workers, looks, pieces) in PASSES {
        let gate = Meeting::new(0);
        let options = options(&rt, *workers, 4).with_head_start(*looks);
        let found = report(&rt, matrix, &gate, options)?;
        assert!(rt; is_pass(&found, *schedules));
        assert!(rt; gate.came.load(Ordering::SeqCst) == *pieces, "{pieces}");
        assert!(rt; gate.ends.load(Ordering::SeqCst) == *pieces, "{pieces}");
    }
    Ok(())
}

/// Sixteen workers are held at one time.
#[test]
fn sixteen_workers_meet(rt: HostRuntime) -> Result<(), Fail> {
    let gate = Meeting::new(16);
    let reads = report(&rt, TWO_READS, &gate, options(&rt, 16, 8))?;
    assert!(rt; is_pass(&reads, 20));
    assert!(rt; gate.met.load(Ordering::SeqCst) == 16);
    assert!(rt; gate.workers.load(Ordering::SeqCst) == 0xffff);
    Ok(())
}

/// The pieces of a case: the schedules of four moves, and the ended ones of fewer.
fn four_moves(rt: &impl AllocGlobal, case: &Fixture) -> Result<Vec<Schedule>, Fail>
    requires { CanRun case.now.component case.now.matrix }
    ensures few { IfOk result (λ pieces. vec_len pieces ≤ 65536) }
    ensures pieces { IfOk result (λ p. ArePieces case.now.component case.now.matrix 40 p.items) }
{
    Ok(frontier(rt.alloc(), &case.component, &case.matrix, 40, 4)?)
}

/// The works of the seats, one after another on this thread.
fn work_in_turn<R: AllocGlobal, T: SerialTree>(
    rt: &R,
    case: &Fixture,
    tree: &T,
    pieces: &[Schedule],
    board: &Board,
    seats: Vec<Seat>,
) -> Result<Vec<Work>, Fail>
    requires of { CanRun case.now.component case.now.matrix }
    requires pieces { ArePieces case.now.component case.now.matrix 40 pieces.now }
    requires board { board.now.pieces ≡ length pieces.now }
    requires fresh { All (IsFresh board.now.board) seats.items }
    ensures all { IfOk result (λ works. length works.items ≡ length seats.items) }
    ensures over { IfOk result (λ works. All (IsSpentWork board.now.board) works.items) }
{
    let mut works = Vec::new(rt.alloc());
    for seat in seats {
        works.push(work(
            rt.alloc(),
            &case.component,
            &case.matrix,
            tree,
            pieces,
            40,
            board,
            seat,
            &OpenGate,
            0,
        ))?;
    }
    Ok(works)
}

/// One of the seats.
fn take_seat(seats: &mut Vec<Seat>, board: &Board) -> Option<Seat>
    requires { All (IsFresh board.now.board) seats.old.items }
    ensures seat { IfSome result (λ seat. IsFresh board.now.board seat) }
    ensures rest { All (IsFresh board.now.board) seats.new.items }
{
    seats.pop()
}

/// The seat claims a piece and settles it clean, and claims the next one and says that it is bad.
fn settle_and_lower(rt: &impl Abort, board: &Board, seat: &mut Seat)
    requires { seat.old.board ≡ board.now.board }
{
    match board.claim(seat) {
        Some(first) => board.settle(seat, first, Kind::Clean),
        None => panic!(rt; "no piece"),
    }
    match board.claim(seat) {
        Some(second) => board.lower(seat, second),
        None => panic!(rt; "no second piece"),
    }
}

/// The works of the other seat, after one seat settled the first piece clean and lowered the
/// second.
fn works_above<R: AllocGlobal + Abort, T: SerialTree>(
    rt: &R,
    case: &Fixture,
    tree: &T,
    pieces: &[Schedule],
) -> Result<Vec<Work>, Fail>
    requires of { CanRun case.now.component case.now.matrix }
    requires few { length pieces.now ≤ 65536 }
    requires pieces { ArePieces case.now.component case.now.matrix 40 pieces.now }
{
    let (board, mut seats) = Board::new(rt.alloc(), pieces.len() as u64, 2)?;
    match take_seat(&mut seats, &board) {
        Some(mut seat) => settle_and_lower(rt, &board, &mut seat),
        None => panic!(rt; "no seat"),
    }
    work_in_turn(rt, case, tree, pieces, &board, seats)
}

/// What two workers conclude that work one after the other on this thread.
fn concluded_in_turn<R: AllocGlobal, T: SerialTree>(
    rt: &R,
    case: &Fixture,
    tree: &T,
    pieces: &[Schedule],
) -> Result<Option<Found>, Fail>
    requires of { CanRun case.now.component case.now.matrix }
    requires few { length pieces.now ≤ 65536 }
    requires pieces { ArePieces case.now.component case.now.matrix 40 pieces.now }
{
    let (board, seats) = Board::new(rt.alloc(), pieces.len() as u64, 2)?;
    let works = work_in_turn(rt, case, tree, pieces, &board, seats)?;
    Ok(conclude(rt.alloc(), board, works)?)
}

fn is_bad(rt: &impl AllocGlobal, found: &Option<Found>, text: &str) -> Result<bool, Fail> {
    match found {
        Some(Found::Bad { schedule, why }) => {
            Ok(*why == Why::Complete && is_text(rt, schedule, text)?)
        }
        _ => Ok(false),
    }
}

/// What is found is clean, with this many complete schedules, and none that is stuck.
fn is_clean(found: &Option<Found>, complete: u64) -> bool {
    match found {
        Some(Found::Clean(counts)) => counts.complete == complete && counts.stuck == 0,
        _ => false,
    }
}

/// There is one work, which has searched nothing.
fn is_idle(works: &[Work]) -> bool {
    works.len() == 1
        && works.iter().all(|work| work.counts == Counts::NONE && work.found.is_empty())
}

/// The serial histories of the case.
fn serial_histories(rt: &(impl AllocGlobal + Abort), case: &Fixture) -> Result<Trie<Global>, Fail>
    requires { CanRun case.now.component case.now.matrix }
{
    match learn(rt.alloc(), rt.alloc(), &case.component, &case.matrix, 40)? {
        Learnt::Set(set) => Ok(set),
        Learnt::Cut(_) | Learnt::Conflict { .. } => panic!(rt; "a serial offence"),
    }
}

/// What two workers conclude that take turns on the pieces of the case.
fn concluded(rt: &(impl AllocGlobal + Abort), case: &Fixture) -> Result<Option<Found>, Fail>
    requires { CanRun case.now.component case.now.matrix }
{
    let set = serial_histories(rt, case)?;
    let pieces = four_moves(rt, case)?;
    concluded_in_turn(rt, case, &&set, &pieces)
}

/// The work of a worker above a lesser failure, on the pieces of the case.
fn above(rt: &(impl AllocGlobal + Abort), case: &Fixture) -> Result<Vec<Work>, Fail>
    requires { CanRun case.now.component case.now.matrix }
{
    let set = serial_histories(rt, case)?;
    let pieces = four_moves(rt, case)?;
    works_above(rt, case, &&set, &pieces)
}

/// Where no piece is bad, the numbers are concluded.
#[test]
fn clean_works_are_added(rt: HostRuntime) -> Result<(), Fail> {
    let case = fixture_of(&rt, ROWS.as_bytes(), TWO_READS)?;
    assert!(rt; is_clean(&concluded(&rt, &case)?, 20));
    Ok(())
}

/// A worker above a lesser failure searches none of 16 pieces, and two workers in turn find the
/// least failure.
fn assert_turns(rt: &(impl AllocGlobal + Abort), case: &Fixture) -> Result<(), Fail>
    requires { CanRun case.now.component case.now.matrix }
{
    assert!(rt; four_moves(rt, case)?.len() == 16);
    assert!(rt; is_idle(&above(rt, case)?));
    assert!(rt; is_bad(rt, &concluded(rt, case)?, LOST_INCREMENT)?);
    Ok(())
}

#[test]
fn workers_take_turns(rt: HostRuntime) -> Result<(), Fail> {
    let case = fixture_of(&rt, ROWS.as_bytes(), TWO_INCREMENTS)?;
    assert_turns(&rt, &case)
}
