//! Versions of the text of reports.

ghost use Rattle.std.specs.Prelude.{◌≡◌};
ghost use Rattle.lu_report.specs.Text.{version_line, version_of};

/// A version of the text of reports.
#[derive(Clone, Copy, Drop)]
pub(crate) enum Version {
    /// Of a check against the serial runs of a component whose moves are one call or instruction
    /// each.
    One,

    /// Of such a check of a component whose local instructions run with a move. It says how many at
    /// most.
    Two,

    /// Of a check against a specification. It says how many local instructions run with a move at
    /// most.
    Three,
}

impl Version {
    /// The version of a report, by its bound of serial runs and by how many local instructions run
    /// with one move at most.
    pub(crate) fn of(serial: Option<u16>, local: u8) -> Version
        ensures { result ≡ version_of serial local }
    {
        match serial {
            None => Version::Three,
            Some(_) => {
                if local == 0 {
                    Version::One
                } else {
                    Version::Two
                }
            }
        }
    }

    /// The first line of a report.
    pub(crate) fn line(self) -> &'static str
        ensures { result.now ≡ version_line self }
    {
        match self {
            Version::One => "lineup report 1\n",
            Version::Two => "lineup report 2\n",
            Version::Three => "lineup report 3\n",
        }
    }
}
