//! What campaigns find.

ghost use Rattle.std.specs.Prelude.{◌≡◌};
ghost use Rattle.lu_refine.specs.declared.campaigns.CampaignFault.TheVariants.{Memory};
ghost use Rattle.lu_refine.specs.Codes.{campaign_code_of};

use lu_report::Report;
use lu_test::Matrix;
use std::alloc::AllocError;
use thiserror::Error;

/// What a campaign finds.
#[derive(Debug, Drop)]
pub enum Campaign {
    /// Every matrix passes: how many there are.
    AllPass(u64),

    /// The first matrix that does not pass, with its report.
    First { matrix: Matrix, report: Report },
}

/// Why there is no campaign. Shown, it is `G2`, `G3` or `memory`.
#[derive(Clone, Copy, Debug, PartialEq, Eq, Error)]
#[error("{}", self.code())]
pub enum CampaignFault {
    /// `G2`: not 1 to 8 candidates.
    Candidates,

    /// `G3`: not 1 to 8 threads, not 1 to 8 calls, or more than 16 positions.
    Limit,

    /// Memory was refused.
    Memory,
}

impl CampaignFault {
    /// The code: `G2`, `G3` or `memory`.
    pub fn code(self) -> &'static str
        ensures { result.now ≡ campaign_code_of self }
    {
        match self {
            CampaignFault::Candidates => "G2",
            CampaignFault::Limit => "G3",
            CampaignFault::Memory => "memory",
        }
    }
}

impl From<AllocError> for CampaignFault {
    ghost from_gives = { λ _ fault. fault ≡ Memory };

    fn from(_refused: AllocError) -> CampaignFault {
        CampaignFault::Memory
    }
}
