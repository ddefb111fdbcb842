//! A line on standard error that is renewed once a second.

use lu_cli::{Display, Terminal};
use std::sync::{Condvar, Mutex, Wait};
use std::time::{Clock, Duration};

/// Whether the work is over.
#[derive(Drop)]
pub(crate) struct Ticker {
    is_over: Mutex<bool>,
    ended: Condvar,
}

impl Ticker {
    pub(crate) fn new() -> Ticker {
        Ticker {
            is_over: Mutex::new(false),
            ended: Condvar::new(),
        }
    }

    /// Says that the work is over.
    pub(crate) fn end(&self, rt: &impl Wait) {
        *self.is_over.lock(rt) = true;
        self.ended.notify_all();
    }

    /// Waits until the work is over, or for this many seconds. Whether it is over.
    fn wait<R: Wait + Clock>(&self, rt: &R, seconds: u64) -> bool {
        let wait = Duration::from_secs(seconds);
        let (is_over, _) = self
            .ended
            .wait_timeout_while(rt, self.is_over.lock(rt), wait, |is_over| !*is_over);
        *is_over
    }
}

/// After how many seconds the line is renewed.
fn interval(display: Display) -> u64 {
    match display {
        Display::Nothing | Display::OneLine => 1,
        Display::Lines => 10,
    }
}

/// Shows how far the work has come until it is over.
pub(crate) fn watch<R: Wait + Clock + Eprint>(rt: &R, ticker: &Ticker, terminal: &Terminal<'_, R>) {
    let seconds = interval(terminal.display());
    for _ in rt.forever() {
        if ticker.wait(rt, seconds) {
            break;
        }
        terminal.show();
    }
    terminal.erase();
}
