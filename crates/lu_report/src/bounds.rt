//! How far runs go.

ghost use Rattle.std.specs.Prelude.{◌≡◌, ◌≤◌};
ghost use Rattle.lu_report.specs.Limits.{limits_of, most_moves};

use lu_machine::MOST_MOVES;
use std::marker::Model;

/// How far schedules and serial runs go.
#[derive(Clone, Copy, Debug, PartialEq, Eq)]
pub struct Bounds {
    /// The most moves of a schedule, 0 to 256.
    bound: u16,

    /// The most moves of an operation after its call in a serial run, 1 to 256.
    serial: u16,
}

impl Model for Bounds {
    ghost use Rattle.lu_report.specs.Limits.{Bounds as ABounds, AreInRange};

    ghost Value = { ABounds };

    ghost view = { λ b. record { bound = b.bound; serial = b.serial } };

    ghost inverse = { λ l. record { bound = l.bound; serial = l.serial } };

    ghost invariant = { λ b. AreInRange (record { bound = b.bound; serial = b.serial }) };
}

impl Bounds {
    /// These bounds: the most moves of a schedule, 0 to 256, and the most moves of an operation
    /// after its call in a serial run, 1 to 256. `None` where one is outside.
    pub fn new(bound: u16, serial: u16) -> Option<Bounds>
        ensures { result ≡ limits_of bound serial }
    {
        if bound <= MOST_MOVES && 1 <= serial && serial <= MOST_MOVES {
            Some(Bounds { bound, serial })
        } else {
            None
        }
    }

    /// The most moves of a schedule, 0 to 256.
    pub fn bound(&self) -> u16
        ensures bound { result ≡ self.now.bound }
        ensures most { result ≤ most_moves }
    {
        self.bound
    }

    /// The most moves of an operation after its call in a serial run, 1 to 256.
    pub fn serial(&self) -> u16
        ensures serial { result ≡ self.now.serial }
        ensures some { 1 ≤ result }
        ensures most { result ≤ most_moves }
    {
        self.serial
    }
}
