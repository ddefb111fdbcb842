//! Searches that can be called off.

ghost use Rattle.std.specs.Prelude.{◌≡◌, Bool, false};

/// What a search asks, now and then, whether it is to stop.
///
/// A search of schedules asks after each 64 further ones: by `stop`, or by `stop_within` where many
/// were counted together. A search of states, or of nodes, asks before each. An implementor's
/// `stop` may expect a watch that has not stopped, and owes that `stopped` then says what it
/// returned; after a yes no more is asked. How often it is asked is tested and not proved, and
/// where an implementor has a `stop_within` of its own, that alone says how often it asks.
pub trait Watch {
    /// What stays as it is when the watch is asked. No value of it needs to be made.
    type Base;

    ghost base: { Self → Self.Base };

    ghost is_stopped: { Self → Bool };

    /// Whether the search is to stop. A watch that has stopped is not asked again.
    fn stop(&mut self) -> bool
        requires { is_stopped self.old ≡ false }
        ensures base { base self.new ≡ base self.old }
        ensures stopped { is_stopped self.new ≡ result };

    /// Whether the watch has stopped.
    fn stopped(&self) -> bool
        ensures { result ≡ is_stopped self.now };

    /// Whether the search is to stop, asked this many times in a row, until it is. A watch that
    /// gives one answer all the while may be asked once.
    fn stop_within(&mut self, times: u64) -> bool
        requires { is_stopped self.old ≡ false }
        ensures base { base self.new ≡ base self.old }
        ensures stopped { is_stopped self.new ≡ result }
    {
        for _ in 0..times {
            if self.stop() {
                return true;
            }
        }
        false
    }
}

/// A watch that never stops.
#[derive(Clone, Copy, Debug)]
pub struct Unwatched;

impl Watch for Unwatched {
    ghost use Rattle.std.specs.Prelude.{false};

    type Base = ();

    ghost base = { λ _. tt };

    ghost is_stopped = { λ _. false };

    #[inline(always)]
    fn stop(&mut self) -> bool {
        false
    }

    fn stopped(&self) -> bool {
        false
    }

    #[inline(always)]
    fn stop_within(&mut self, _times: u64) -> bool {
        false
    }
}
