//! The options of a check.

ghost use Rattle.std.specs.Prelude.{◌≡◌, ◌≤◌, ◌↔◌, IsSome, IfSome};
ghost use Rattle.lu_board.specs.declared.view.TheConstants.{MAX_WORKERS};
ghost use Rattle.lu_report.specs.Limits.{IsSerialBound, most_moves};
ghost use Rattle.lu_pieces.specs.declared.pieces.TheConstants.{MOST_DEPTH};
ghost use Rattle.lu_parallel.specs.Ranges.{IsInRange, choice, with_head_start};

use lu_board::view::MAX_WORKERS;
use lu_report::Bounds;
use lu_tree::MOST_DEPTH;
use std::marker::Model;

/// The options of a check.
#[derive(Clone, Copy, Debug, PartialEq, Eq)]
pub struct Options {
    bounds: Bounds,

    /// The number of workers, 1 to 16.
    workers: u8,

    /// The most moves of a piece, 0 to 8.
    depth: u8,

    /// How many looks of its watch a search by the calling thread alone lasts.
    head_start: u64,
}

impl Model for Options {
    ghost use Rattle.lu_parallel.specs.Ranges.{Options as AnOptions, IsInRange, choice, with_head_start};

    ghost Value = { AnOptions };

    ghost view = { λ o. with_head_start o.head_start
        (choice o.bounds.bound o.bounds.serial o.workers o.depth) };

    ghost inverse = { λ c. record {
      bounds = record { bound = c.bound; serial = c.serial };
      workers = c.workers;
      depth = c.depth;
      head_start = c.head_start;
    } };

    ghost invariant = { λ o. IsInRange (choice o.bounds.bound o.bounds.serial o.workers o.depth) };
}

impl Options {
    /// These options: the most moves of a schedule, 0 to 256; the most moves of an operation after
    /// its call in a serial run, 1 to 256; the number of workers, 1 to 16; and the most moves of a
    /// piece, 0 to 8. There is no head start. `None` where a number is outside.
    pub fn new(bound: u16, serial: u16, workers: u8, depth: u8) -> Option<Options>
        ensures range { IsSome result ↔ IsInRange (choice bound serial workers depth) }
        ensures choice { IfSome result (λ o. o ≡ choice bound serial workers depth) }
    {
        let bounds = Bounds::new(bound, serial)?;
        if workers < 1 || u64::from(workers) > MAX_WORKERS || depth > MOST_DEPTH {
            return None;
        }
        Some(Options {
            bounds,
            workers,
            depth,
            head_start: 0,
        })
    }

    /// These options, where the calling thread first searches alone, in order, and workers are
    /// started only where that search has not come to its end after this many looks of its watch.
    /// There is one look for each 64 further schedules, or for more of them that were counted
    /// together. With 0 the workers start at once, and one worker needs no head start.
    ///
    /// A walk in order knows of all that was walked before which moves commute, and counts most
    /// schedules by that. A worker knows nothing of other pieces. So a search that is short in
    /// order takes workers many times as long, all of them together.
    pub fn with_head_start(self, looks: u64) -> Options
        ensures { result ≡ with_head_start looks self }
    {
        Options {
            head_start: looks,
            ..self
        }
    }

    /// The most moves of a schedule, 0 to 256.
    pub fn bound(&self) -> u16
        ensures bound { result ≡ self.now.bound }
        ensures range { result ≤ most_moves }
    {
        self.bounds.bound()
    }

    /// The most moves of an operation after its call in a serial run, 1 to 256.
    pub fn serial(&self) -> u16
        ensures serial { result ≡ self.now.serial }
        ensures range { IsSerialBound result }
    {
        self.bounds.serial()
    }

    /// The number of workers, 1 to 16.
    pub fn workers(&self) -> u8
        ensures workers { result ≡ self.now.workers }
        ensures range { (1 ≤ result) × (result ≤ MAX_WORKERS) }
    {
        self.workers
    }

    /// The most moves of a piece, 0 to 8.
    pub fn depth(&self) -> u8
        ensures depth { result ≡ self.now.depth }
        ensures range { result ≤ MOST_DEPTH }
    {
        self.depth
    }

    /// How many looks of its watch a search by the calling thread alone lasts.
    pub fn head_start(&self) -> u64
        ensures { result ≡ self.now.head_start }
    {
        self.head_start
    }
}
