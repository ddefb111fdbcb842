//! Why a command is refused, and what is said of it.

ghost use Rattle.std.specs.Prelude.{◌≡◌, IfOk, Some};
ghost use Rattle.lu_cli.specs.Outcomes as outcomes;
ghost use Rattle.lu_cli.specs.Refusals.{SaysResult, refusal_answer, refused_in_history, refused_in_run};
ghost use Rattle.lu_cli.specs.declared.refusal.Refusal.TheVariants.{Memory};

use crate::answer::{Answer, refused};
use crate::texts::Fault as TextsFault;
use lu_parallel::CheckFault;
use lu_recorded::PartFault;
use lu_refine::CampaignFault;
use lu_refute::RefuteFault;
use lu_report::ReportFault;
use lu_run::RunPartFault;
use lu_source_text::SourceFault;
use lu_spec::SpecFault;
use lu_test::ScheduleFault;
use lu_text::Fault;
use std::alloc::{AllocError, Global};

/// Why there is no other answer to a command.
#[derive(Clone, Copy)]
pub(crate) enum Refusal {
    /// `B1`: the bundle has another number of parts.
    Parts,

    /// What is wrong with the text of the component, the matrix or the specification, or with the
    /// setup, or a worker's thread that could not start.
    Texts(TextsFault),

    /// What is wrong with the text of the schedule.
    Schedule(ScheduleFault),

    /// What is wrong with the text of the report.
    Report(ReportFault),

    /// That the report shows nothing.
    Refute(RefuteFault),

    /// What is wrong with the calls or the size of a campaign.
    Campaign(CampaignFault),

    /// What is wrong with the text of a source.
    Source(SourceFault),

    /// `G4`: the trusted component has other operations.
    Operations,

    /// `S4`: there are this many serial histories, too many to list.
    Histories(u64),

    /// What is wrong with the text of a recorded history.
    Recorded(PartFault),

    /// What is wrong with the text of a run.
    Run(RunPartFault),

    /// Memory was refused.
    Memory,
}

impl From<TextsFault> for Refusal {
    ghost use Rattle.lu_cli.specs.declared.refusal.Refusal.TheVariants.{Texts};

    ghost from_gives = { λ fault e. e ≡ Texts fault };

    fn from(fault: TextsFault) -> Refusal {
        Refusal::Texts(fault)
    }
}

impl From<ScheduleFault> for Refusal {
    ghost use Rattle.lu_cli.specs.declared.refusal.Refusal.TheVariants.{Schedule};

    ghost from_gives = { λ fault e. e ≡ Schedule fault };

    fn from(fault: ScheduleFault) -> Refusal {
        Refusal::Schedule(fault)
    }
}

impl From<ReportFault> for Refusal {
    ghost use Rattle.lu_cli.specs.declared.refusal.Refusal.TheVariants.{Report};

    ghost from_gives = { λ fault e. e ≡ Report fault };

    fn from(fault: ReportFault) -> Refusal {
        Refusal::Report(fault)
    }
}

impl From<SpecFault> for Refusal {
    ghost use Rattle.lu_cli.specs.declared.texts.Fault.TheVariants.{Spec};
    ghost use Rattle.lu_cli.specs.declared.refusal.Refusal.TheVariants.{Texts};

    ghost from_gives = { λ fault e. e ≡ Texts (Spec fault) };

    fn from(fault: SpecFault) -> Refusal {
        Refusal::Texts(TextsFault::Spec(fault))
    }
}

impl From<CheckFault> for Refusal {
    ghost use Rattle.lu_cli.specs.declared.texts.Fault.TheVariants.{Check};
    ghost use Rattle.lu_cli.specs.declared.refusal.Refusal.TheVariants.{Texts};

    ghost from_gives = { λ fault e. e ≡ Texts (Check fault) };

    fn from(fault: CheckFault) -> Refusal {
        Refusal::Texts(TextsFault::Check(fault))
    }
}

impl From<RefuteFault> for Refusal {
    ghost use Rattle.lu_cli.specs.declared.refusal.Refusal.TheVariants.{Refute};

    ghost from_gives = { λ fault e. e ≡ Refute fault };

    fn from(fault: RefuteFault) -> Refusal {
        Refusal::Refute(fault)
    }
}

impl From<CampaignFault> for Refusal {
    ghost use Rattle.lu_cli.specs.declared.refusal.Refusal.TheVariants.{Campaign};

    ghost from_gives = { λ fault e. e ≡ Campaign fault };

    fn from(fault: CampaignFault) -> Refusal {
        Refusal::Campaign(fault)
    }
}

impl From<PartFault> for Refusal {
    ghost use Rattle.lu_cli.specs.declared.refusal.Refusal.TheVariants.{Recorded};

    ghost from_gives = { λ fault e. e ≡ Recorded fault };

    fn from(fault: PartFault) -> Refusal {
        Refusal::Recorded(fault)
    }
}

impl From<RunPartFault> for Refusal {
    ghost use Rattle.lu_cli.specs.declared.refusal.Refusal.TheVariants.{Run};

    ghost from_gives = { λ fault e. e ≡ Run fault };

    fn from(fault: RunPartFault) -> Refusal {
        Refusal::Run(fault)
    }
}

impl From<AllocError> for Refusal {
    ghost from_gives = { λ _ e. e ≡ Memory };

    fn from(_refused: AllocError) -> Refusal {
        Refusal::Memory
    }
}

/// A refusal for a fault of this code, on this line.
fn refused_on_line(alloc: Global, code: &str, line: usize) -> Result<Answer, AllocError>
    ensures { IfOk result (λ answer. answer ≡ outcomes.refused_on_line code.now line) }
{
    Ok(Answer {
        text: format!(in alloc; "refused {code} line {line}\n")?,
        status: 2,
    })
}

/// A refusal for a fault of this code in the text of history `number`, on this line.
fn refused_in_history(
    alloc: Global,
    code: &str,
    number: usize,
    line: usize,
) -> Result<Answer, AllocError>
    ensures { IfOk result (λ answer. answer ≡ refused_in_history code.now number line) }
{
    Ok(Answer {
        text: format!(in alloc; "refused {code} history {number} line {line}\n")?,
        status: 2,
    })
}

/// A refusal for a fault of this code in the text of run `number`, on this line.
fn refused_in_run(
    alloc: Global,
    code: &str,
    number: usize,
    line: usize,
) -> Result<Answer, AllocError>
    ensures { IfOk result (λ answer. answer ≡ refused_in_run code.now number line) }
{
    Ok(Answer {
        text: format!(in alloc; "refused {code} run {number} line {line}\n")?,
        status: 2,
    })
}

/// That call number `call` of the setup does not end.
fn answer_unsettled(alloc: Global, call: u8) -> Result<Answer, AllocError>
    ensures { IfOk result (λ answer. answer ≡ outcomes.unsettled call) }
{
    Ok(Answer {
        text: format!(in alloc; "refused U1 call {call}\n")?,
        status: 2,
    })
}

/// That there are this many serial histories, too many to list.
fn too_many(alloc: Global, count: u64) -> Result<Answer, AllocError>
    ensures { IfOk result (λ answer. answer ≡ outcomes.too_many count) }
{
    Ok(Answer {
        text: format!(in alloc; "refused S4 histories {count}\n")?,
        status: 2,
    })
}

/// That the start of a worker's thread was refused.
fn no_worker(alloc: Global) -> Result<Answer, AllocError>
    ensures { IfOk result (λ answer. answer ≡ outcomes.no_worker) }
{
    Ok(Answer {
        text: String::from_str(alloc, "refused K2\n")?,
        status: 4,
    })
}

/// The line of a refusal, and its status.
///
/// # Errors
///
/// `AllocError` where memory was refused, now or before.
pub(crate) fn show_refusal(alloc: Global, refusal: Refusal) -> Result<Answer, AllocError>
    ensures { IfOk result (λ answer. refusal_answer refusal ≡ Some answer) }
{
    match refusal {
        Refusal::Parts => refused(alloc, "B1"),
        Refusal::Texts(TextsFault::Component(Fault::At(kind, line))) => {
            refused_on_line(alloc, kind.code(), line)
        }
        Refusal::Texts(TextsFault::Matrix(Fault::At(kind, line))) => {
            refused_on_line(alloc, kind.code(), line)
        }
        Refusal::Texts(TextsFault::Spec(Fault::At(kind, line))) => {
            refused_on_line(alloc, kind.code(), line)
        }
        Refusal::Texts(TextsFault::Setup(call)) => answer_unsettled(alloc, call),
        Refusal::Texts(TextsFault::Check(CheckFault::Worker)) => no_worker(alloc),
        Refusal::Schedule(ScheduleFault::Form) => refused(alloc, "C1"),
        Refusal::Schedule(ScheduleFault::Number) => refused(alloc, "C2"),
        Refusal::Schedule(ScheduleFault::Limit) => refused(alloc, "C3"),
        Refusal::Report(Fault::At(kind, line)) => refused_on_line(alloc, kind.code(), line),
        Refusal::Refute(RefuteFault::NotShown) => refused(alloc, "F2"),
        Refusal::Campaign(CampaignFault::Candidates) => refused(alloc, "G2"),
        Refusal::Campaign(CampaignFault::Limit) => refused(alloc, "G3"),
        Refusal::Source(Fault::At(kind, line)) => refused_on_line(alloc, kind.code(), line),
        Refusal::Operations => refused(alloc, "G4"),
        Refusal::Histories(count) => too_many(alloc, count),
        Refusal::Recorded(
            PartFault {
                number,
                fault: Fault::At(kind, line),
            },
        ) => refused_in_history(alloc, kind.code(), number, line),
        Refusal::Run(
            RunPartFault {
                number,
                fault: Fault::At(kind, line),
            },
        ) => refused_in_run(alloc, kind.code(), number, line),
        Refusal::Texts(TextsFault::Component(Fault::Memory))
        | Refusal::Texts(TextsFault::Matrix(Fault::Memory))
        | Refusal::Texts(TextsFault::Spec(Fault::Memory))
        | Refusal::Texts(TextsFault::Check(CheckFault::Memory))
        | Refusal::Schedule(ScheduleFault::Memory)
        | Refusal::Source(Fault::Memory)
        | Refusal::Report(Fault::Memory)
        | Refusal::Refute(RefuteFault::Memory)
        | Refusal::Campaign(CampaignFault::Memory)
        | Refusal::Recorded(
            PartFault {
                fault: Fault::Memory,
                ..
            },
        )
        | Refusal::Run(
            RunPartFault {
                fault: Fault::Memory,
                ..
            },
        )
        | Refusal::Memory => Err(AllocError),
    }
}

/// The answer, or what is said of the refusal.
///
/// # Errors
///
/// `AllocError` where memory was refused, now or before.
pub(crate) fn or_refusal(
    alloc: Global,
    carried: Result<Answer, Refusal>,
) -> Result<Answer, AllocError>
    ensures { IfOk result (SaysResult carried) }
{
    match carried {
        Ok(answer) => Ok(answer),
        Err(refusal) => show_refusal(alloc, refusal),
    }
}
