//! Campaigns of sizes that no command line has.

ghost use Rattle.lu_machine.specs.Starts.{CanRun};

use lu_fixtures::{Fixture, ROWS, fixture_of};
use lu_refine::{Campaign, CampaignFault, campaign};
use std::process::Abort;
use std::test::Fail;

/// What a campaign of this size finds over the calls of the matrix's first thread.
fn campaign_over(
    rt: &impl AllocGlobal,
    case: &Fixture,
    threads: u8,
    calls: u8,
) -> Result<Campaign, CampaignFault>
    requires { CanRun case.now.component case.now.matrix }
{
    let (alloc, component, listed) = (rt.alloc(), &case.component, &case.matrix);
    let setup = listed.setup();
    match listed.as_slice() {
        [first, ..] => {
            let candidates = first.as_slice();
            campaign(alloc, component, setup, candidates, threads, calls, 40, 40)
        }
        [] => campaign(alloc, component, setup, &[], threads, calls, 40, 40),
    }
}

/// The code of the refusal of a campaign of this size, if it is refused.
fn refusal(
    rt: &(impl AllocGlobal + Abort),
    matrix: &[u8],
    threads: u8,
    calls: u8,
) -> Result<Option<&'static str>, Fail> {
    let case = fixture_of(rt, ROWS.as_bytes(), matrix)?;
    Ok(
        campaign_over(rt, &case, threads, calls)
            .err()
            .map(|fault| fault.code()),
    )
}

/// The candidates are looked at before the size.
#[test]
fn a_size_past_its_limits_is_refused(rt: HostRuntime) -> Result<(), Fail> {
    let sizes: [(&[u8], u8, u8, &str); 7] = [
        (b"thread\n", 2, 1, "G2"),
        (b"thread\n", 9, 9, "G2"),
        (b"thread get\n", 8, 8, "G3"),
        (b"thread get\n", 0, 1, "G3"),
        (b"thread get\n", 1, 0, "G3"),
        (b"thread get\n", 9, 1, "G3"),
        (b"thread get\n", 1, 9, "G3"),
    ];
    for (matrix, threads, calls, code) in &sizes {
        assert!(rt;
            refusal(&rt, matrix, *threads, *calls)? == Some(*code),
            "{code}"
        );
    }
    Ok(())
}
