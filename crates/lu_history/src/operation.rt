//! The names of operations.

ghost use Rattle.std.specs.Prelude.{◌≡◌, ◌+◌, ◌*◌};
ghost use Rattle.lu_test.specs.declared.matrix.TheConstants.{MOST_CALLS_OF_THREAD};

use lu_test::MOST_CALLS_OF_THREAD;

/// An operation: call number `k` of thread `t`, both from 0 to 7.
#[derive(Clone, Copy, Debug, PartialEq, Eq, Hash)]
pub struct OpId {
    pub t: u8,
    pub k: u8,
}

impl OpId {
    /// The operation's row in a table with one for each operation, thread by thread.
    pub(crate) fn row(self) -> usize
        ensures { result ≡ self.t * MOST_CALLS_OF_THREAD + self.k }
    {
        usize::from(self.t) * MOST_CALLS_OF_THREAD + usize::from(self.k)
    }
}
