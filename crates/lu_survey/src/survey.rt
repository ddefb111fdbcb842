//! What is certified of all matrices of a slice, by kinds of certificates.

ghost use Rattle.std.specs.Prelude.{◌≡◌, ◌<◌, ◌^◌, ◌-◌, []};

use lu_certify::Certificate;
use lu_test::Matrix;

/// A matrix of a campaign, with its certificate.
#[derive(Drop)]
pub struct CertifiedMatrix {
    pub matrix: Matrix,
    pub certificate: Certificate,
}

/// The matrices whose certificates are of one kind.
#[derive(Drop)]
pub struct Tally {
    /// How many they are.
    pub count: u64,

    /// The first of them, if there is one.
    pub first: Option<CertifiedMatrix>,
}

/// The matrices of a slice, by the kinds of their certificates.
#[derive(Drop)]
pub struct Survey {
    pub linearizable: Tally,
    pub not_linearizable: Tally,
    pub livelock: Tally,
    pub undecided: Tally,
}

impl Tally {
    ghost use Rattle.lu_survey.specs.Surveys.{tally_none, tally_with};

    /// None.
    fn none() -> Tally
        ensures { result ≡ tally_none }
    {
        Tally {
            count: 0,
            first: None,
        }
    }

    /// These and one more, which stands after them.
    fn with(self, one: CertifiedMatrix) -> Tally
        requires { self.count < 2 ^ 64 - 1 }
        ensures { result ≡ tally_with self one }
    {
        let Tally { count, first } = self;
        Tally {
            count: count + 1,
            first: first.or(Some(one)),
        }
    }
}

impl Survey {
    ghost use Rattle.lu_survey.specs.Surveys.{HasRoom, IsSurveyOf, survey_by};

    /// That of no matrices.
    pub(crate) fn none() -> Survey
        ensures { IsSurveyOf [] result }
    {
        Survey {
            linearizable: Tally::none(),
            not_linearizable: Tally::none(),
            livelock: Tally::none(),
            undecided: Tally::none(),
        }
    }

    /// The same with one more matrix, which stands after the others.
    pub(crate) fn with(self, one: CertifiedMatrix) -> Survey
        requires { HasRoom self }
        ensures { result ≡ survey_by one.certificate self one }
    {
        match one.certificate {
            Certificate::Linearizable(_) => Survey {
                linearizable: self.linearizable.with(one),
                ..self
            },
            Certificate::NotLinearizable { .. } => Survey {
                not_linearizable: self.not_linearizable.with(one),
                ..self
            },
            Certificate::Livelock { .. } => Survey {
                livelock: self.livelock.with(one),
                ..self
            },
            Certificate::Undecided { .. } => Survey {
                undecided: self.undecided.with(one),
                ..self
            },
        }
    }
}
