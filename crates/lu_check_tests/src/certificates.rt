//! How far a certificate has come, as it is reported.

ghost use Rattle.std.specs.Prelude.{◌≡◌};

use lu_certify::{Certificate, DEFAULT_NODES, Progress, certify_with_progress};
use lu_fixtures::{ROWS, fixture_of};
use lu_parallel::{OpenGate, Options};
use std::process::Abort;
use std::sync::Wait;
use std::sync::atomic::{AtomicBool, AtomicU64, Ordering};
use std::test::Fail;
use std::thread::Threads;

/// Counts what is reported to it.
#[derive(Drop)]
struct Tally {
    cuts: AtomicU64,
    done: AtomicU64,

    /// How many nodes were kept, and let go of.
    kept: AtomicU64,
    left: AtomicU64,

    ended: AtomicBool,
    is_undecided: AtomicBool,
}

impl Tally {
    fn new() -> Tally {
        Tally {
            cuts: AtomicU64::new(0),
            done: AtomicU64::new(0),
            kept: AtomicU64::new(0),
            left: AtomicU64::new(0),
            ended: AtomicBool::new(false),
            is_undecided: AtomicBool::new(false),
        }
    }
}

impl Progress for Tally {
    fn begin(&self, cuts: u64) {
        self.cuts.store(cuts, Ordering::SeqCst);
    }

    fn keep(&self) {
        self.kept.fetch_add(1, Ordering::SeqCst);
    }

    fn done(&self, nodes: u64) {
        self.done.fetch_add(1, Ordering::SeqCst);
        self.left.fetch_add(nodes, Ordering::SeqCst);
    }

    fn end(&self, is_undecided: bool) {
        self.ended.store(true, Ordering::SeqCst);
        self.is_undecided.store(is_undecided, Ordering::SeqCst);
    }
}

/// The certificate of the matrix by this many workers. All nodes that were kept are let go of at
/// the end, which is reported.
fn certified<R: AllocGlobal + Abort + Threads + Wait>(
    rt: &R,
    matrix: &[u8],
    workers: u8,
    nodes: u32,
    tally: &Tally,
) -> Result<Certificate, Fail> {
    let case = fixture_of(rt, ROWS.as_bytes(), matrix)?;
    let options = Options::new(40, 40, workers, 4).expect(rt, "options");
    let (component, matrix) = (&case.component, &case.matrix);
    let certificate = certify_with_progress(
        rt,
        rt.alloc(),
        &OpenGate,
        tally,
        component,
        matrix,
        options,
        nodes,
    )?;
    assert!(rt; tally.ended.load(Ordering::SeqCst));
    assert!(rt; tally.kept.load(Ordering::SeqCst) == tally.left.load(Ordering::SeqCst));
    Ok(certificate)
}

const EXCHANGES: &[u8] = b"thread cinc\nthread cinc\n";

/// Two threads with a call each have four cuts.
#[test]
fn each_cut_is_reported(rt: HostRuntime) -> Result<(), Fail> {
    for workers in [1, 2, 5] {
        let tally = Tally::new();
        let certificate = certified(&rt, EXCHANGES, workers, DEFAULT_NODES, &tally)?;
        assert!(&rt; matches!(certificate, Certificate::Linearizable(_)));
        assert!(&rt; tally.cuts.load(Ordering::SeqCst) == 4);
        assert!(&rt; tally.done.load(Ordering::SeqCst) >= 4);
        assert!(&rt; tally.kept.load(Ordering::SeqCst) > 20);
        assert!(&rt; !tally.is_undecided.load(Ordering::SeqCst));
    }
    Ok(())
}

/// The whole matrix has more nodes than three.
#[test]
fn undecided_is_reported(rt: HostRuntime) -> Result<(), Fail> {
    for workers in [1, 3] {
        let tally = Tally::new();
        let certificate = certified(&rt, b"thread spin\nthread spin\n", workers, 3, &tally)?;
        assert!(&rt; matches!(certificate, Certificate::Undecided { .. }));
        assert!(&rt; tally.is_undecided.load(Ordering::SeqCst));
    }
    Ok(())
}
