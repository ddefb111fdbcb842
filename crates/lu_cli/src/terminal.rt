//! How far a command has come, on standard error.

use lu_certify::Progress;
use std::sync::atomic::{AtomicBool, AtomicU64, Ordering};
use std::time::Clock;

/// Where it is shown how far a command has come.
#[derive(Clone, Copy, PartialEq, Eq)]
pub enum Display {
    /// Nowhere.
    Nothing,

    /// On a terminal, in one line, which is gone at the end.
    OneLine,

    /// In a line of its own each time.
    Lines,
}

/// What is shown of a command.
#[derive(Clone, Copy, PartialEq, Eq)]
pub enum Measure {
    /// Which matrix is tried.
    Matrices,

    /// How many schedules are judged.
    Schedules,

    /// How many states are found.
    States,
}

/// Shows on standard error how far a command has come: which matrix a campaign tries, how many
/// schedules a check has judged, how many states a certificate has found, or the time alone. Whoever
/// made it calls [`Terminal::show`] from time to time, and [`Terminal::erase`] at the end. If a
/// component is undecided, a line stays that says how many nodes the largest cut had.
#[derive(Drop)]
pub struct Terminal<'a, R> {
    rt: &'a R,
    display: Display,
    measure: Measure,

    /// How many matrices, cuts or pieces there are, and how many of them are done.
    parts: AtomicU64,
    done: AtomicU64,

    /// How many schedules are judged.
    schedules: AtomicU64,

    /// How many states are found, and how many of them were looked at. Of a cut, only how many are
    /// found is known.
    found: AtomicU64,
    looked_at: AtomicU64,

    /// How many nodes of cuts are kept now, and the most of a cut that is done.
    kept: AtomicU64,
    most: AtomicU64,

    /// The second in which it began.
    began: AtomicU64,
    is_line_there: AtomicBool,
}

/// The second now, or 0 if there is no clock.
fn second_now(rt: &impl Clock) -> u64 {
    match rt.monotonic() {
        Ok(time) => time.as_secs(),
        Err(_) => 0,
    }
}

impl<'a, R: Clock + Eprint> Terminal<'a, R> {
    /// Shows how far a command has come, by this measure.
    pub fn new(rt: &'a R, display: Display, measure: Measure) -> Terminal<'a, R> {
        Terminal {
            rt,
            display,
            measure,
            parts: AtomicU64::new(0),
            done: AtomicU64::new(0),
            schedules: AtomicU64::new(0),
            found: AtomicU64::new(0),
            looked_at: AtomicU64::new(0),
            kept: AtomicU64::new(0),
            most: AtomicU64::new(0),
            began: AtomicU64::new(second_now(rt)),
            is_line_there: AtomicBool::new(false),
        }
    }

    /// Where it is shown.
    pub fn display(&self) -> Display {
        self.display
    }

    /// How many seconds have passed.
    fn seconds(&self) -> u64 {
        second_now(self.rt).saturating_sub(self.began.load(Ordering::Relaxed))
    }

    /// Shows the line. What can't be shown is left out.
    pub fn show(&self) {
        match self.display {
            Display::Nothing => {}
            Display::OneLine => {
                self.is_line_there.store(true, Ordering::Relaxed);
                drop(eprint!(self.rt; "\r"));
                self.show_words();
                drop(eprint!(self.rt; "\x1b[K"));
            }
            Display::Lines => {
                self.show_words();
                drop(eprint!(self.rt; "\n"));
            }
        }
    }

    /// Shows the measure, if there is anything to count yet, and the time.
    fn show_words(&self) {
        match self.measure {
            Measure::Matrices => self.show_matrix(),
            Measure::Schedules => self.show_schedules(),
            Measure::States => self.show_states(),
        }
    }

    /// Shows the time alone.
    fn show_seconds(&self) {
        let seconds = self.seconds();
        drop(eprint!(self.rt; "{seconds} s"));
    }

    /// Shows how many schedules are judged, and, once workers search them in pieces, how many of
    /// these are done.
    fn show_schedules(&self) {
        let schedules = self.schedules.load(Ordering::Relaxed);
        let pieces = self.parts.load(Ordering::Relaxed);
        if schedules > 0 {
            drop(eprint!(self.rt; "{schedules} schedules judged, "));
        }
        if pieces > 0 {
            let done = self.done.load(Ordering::Relaxed);
            drop(eprint!(self.rt; "{done} of {pieces} pieces done, "));
        }
        self.show_seconds();
    }

    /// Shows how many states are found, and how many of them are still to be looked at, if that is
    /// known.
    fn show_states(&self) {
        let found = self.found.load(Ordering::Relaxed);
        if found > 0 {
            drop(eprint!(self.rt; "{found} states found, "));
            let left = found.saturating_sub(self.looked_at.load(Ordering::Relaxed));
            if self.parts.load(Ordering::Relaxed) == 0 && left > 0 {
                drop(eprint!(self.rt; "{left} still to be looked at, "));
            }
        }
        self.show_seconds();
    }

    /// Shows which matrix a campaign tries, with the rate and the time left once one is done.
    fn show_matrix(&self) {
        let matrices = self.parts.load(Ordering::Relaxed);
        if matrices == 0 {
            self.show_seconds();
            return;
        }
        let done = self.done.load(Ordering::Relaxed);
        let number = done.saturating_add(1).min(matrices);
        drop(eprint!(self.rt; "matrix {number} of {matrices}"));
        let seconds = self.seconds();
        if done > 0 && seconds > 0 {
            let rate = done.saturating_mul(60) / seconds;
            let left = matrices.saturating_sub(done).saturating_mul(seconds) / done;
            drop(eprint!(self.rt; ", {rate} a minute, "));
            self.show_left(left);
        }
    }

    /// Shows that this many seconds are left.
    fn show_left(&self, seconds: u64) {
        if seconds < 60 {
            drop(eprint!(self.rt; "{seconds} s left"));
        } else if seconds < 3600 {
            drop(eprint!(self.rt; "{} min left", seconds / 60));
        } else {
            drop(eprint!(self.rt; "{} h {} min left", seconds / 3600, seconds / 60 % 60));
        }
    }

    /// Erases the line, if there is one.
    pub fn erase(&self) {
        if self.is_line_there.swap(false, Ordering::Relaxed) {
            drop(eprint!(self.rt; "\r\x1b[K"));
        }
    }
}

impl<'a, R: Clock + Eprint + Sync> Progress for Terminal<'a, R> {
    /// What was counted before is counted anew.
    fn begin(&self, parts: u64) {
        self.schedules.store(0, Ordering::Relaxed);
        self.found.store(0, Ordering::Relaxed);
        self.parts.store(parts, Ordering::Relaxed);
    }

    fn keep(&self) {
        if self.display != Display::Nothing {
            self.found.fetch_add(1, Ordering::Relaxed);
            self.kept.fetch_add(1, Ordering::Relaxed);
        }
    }

    fn done(&self, nodes: u64) {
        if self.display == Display::Nothing {
            return;
        }
        self.done.fetch_add(1, Ordering::Relaxed);
        self.kept.fetch_sub(nodes, Ordering::Relaxed);
        if nodes > self.most.load(Ordering::Relaxed) {
            self.most.store(nodes, Ordering::Relaxed);
        }
    }

    fn nodes(&self, looked_at: u64, found: u64) {
        if self.display != Display::Nothing {
            self.looked_at.store(looked_at, Ordering::Relaxed);
            self.found.store(found, Ordering::Relaxed);
        }
    }

    fn judge(&self, schedules: u64) {
        if self.display != Display::Nothing {
            self.schedules.fetch_add(schedules, Ordering::Relaxed);
        }
    }

    fn end(&self, is_undecided: bool) {
        if is_undecided && self.display == Display::OneLine {
            self.erase();
            let most = self.most.load(Ordering::Relaxed);
            drop(eprintln!(self.rt; "undecided: the largest cut had {most} nodes"));
        }
    }
}
