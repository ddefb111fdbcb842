//! What is known of the moves ahead of a thread.

ghost use Rattle.std.specs.Prelude.{◌≡◌};
ghost use Rattle.lu_horizon.specs.Outlooks.{IsWeaker, either, one_before};

/// What is known of the moves ahead of a thread, whatever the threads do.
#[derive(Clone, Copy, Debug)]
pub(crate) struct Outlook {
    /// This many moves are certain: each of them is there, and leaves no choice.
    pub(crate) moves: u16,

    /// The thread has no move after them.
    pub(crate) over: bool,
}

impl Outlook {
    /// Nothing is known.
    pub(crate) const NOTHING: Outlook = Outlook {
        moves: 0,
        over: false,
    };

    /// No move is left.
    pub(crate) const NO_MOVE: Outlook = Outlook {
        moves: 0,
        over: true,
    };

    /// One move before.
    pub(crate) fn one_before(self) -> Outlook
        ensures { IsWeaker result (one_before self) }
    {
        match self.moves.checked_add(1) {
            Some(moves) => Outlook {
                moves,
                over: self.over,
            },
            None => Outlook {
                moves: self.moves,
                over: false,
            },
        }
    }

    /// Where either may come.
    pub(crate) fn either(self, other: Outlook) -> Outlook
        ensures { result ≡ either self other }
    {
        Outlook {
            moves: self.moves.min(other.moves),
            over: self.over && other.over && self.moves == other.moves,
        }
    }

    /// As far as `most` moves.
    pub(crate) fn up_to(self, most: u16) -> Outlook
        ensures { IsWeaker result self }
    {
        if self.moves <= most {
            return self;
        }
        Outlook {
            moves: most,
            over: false,
        }
    }
}
