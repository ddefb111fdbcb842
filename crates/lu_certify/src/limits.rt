//! How far the cuts of a certificate are gone through.

ghost use Rattle.std.specs.Prelude.{◌≡◌, ◌≤◌};
ghost use Rattle.lu_report.specs.Limits.{IsSerialBound, most_moves};

use lu_parallel::Options;

/// How far the cuts of a certificate are gone through.
#[derive(Clone, Copy, Debug, PartialEq, Eq)]
pub struct Limits {
    /// The most moves of a schedule, 0 to 256.
    pub bound: u16,

    /// The most moves of an operation after its call in a serial run, 1 to 256.
    pub serial: u16,

    /// The most nodes of a cut: states, each with the serial histories that can still become
    /// witnesses; and the most states, where a livelock is sought. Any number;
    /// [`DEFAULT_NODES`](lu_graph::DEFAULT_NODES) mostly.
    pub nodes: u32,
}

impl Limits {
    ghost use Rattle.lu_certify.specs.Certificates.{limits_of};

    /// The bounds of a check's options, and this many nodes.
    pub fn of(options: Options, nodes: u32) -> Limits
        ensures limits { result ≡ limits_of options nodes }
        ensures bound { result.bound ≤ most_moves }
        ensures serial { IsSerialBound result.serial }
    {
        Limits {
            bound: options.bound(),
            serial: options.serial(),
            nodes,
        }
    }
}
