//! Reading of runs from the parts of a bundle.

ghost use Rattle.std.specs.Prelude.{All, IfErr, IfOk};
ghost use Rattle.lu_text.specs.Lines.{texts};
ghost use Rattle.lu_run.specs.Bundled.{AreRead, IsFirstRefused, IsRunOf};

use crate::fault::RunFault;
use crate::reading::read_run;
use crate::run::Run;
use lu_component::Component;
use lu_text::Fault;
use std::alloc::Global;

/// Why parts are no runs: the number of the first that is none, from 0, and its fault; or refused
/// memory, which came at this part.
#[derive(Clone, Copy, Debug, Drop, PartialEq, Eq)]
pub struct RunPartFault {
    pub number: usize,
    pub fault: RunFault,
}

/// Reads runs of a component, each from its text.
///
/// # Errors
///
/// The first text that is refused, or that there is no memory for the runs.
pub fn read_runs(
    alloc: Global,
    component: &Component,
    parts: &[&[u8]],
) -> Result<Vec<Run>, RunPartFault>
    ensures read { IfOk result (λ runs. AreRead component.now (texts parts.now) runs.items) }
    // The runs can be judged.
    ensures runs { IfOk result (λ runs. All (IsRunOf component.now) runs.items) }
    ensures refused { IfErr result (IsFirstRefused component.now (texts parts.now)) }
{
    let mut runs = Vec::new(alloc);
    for (number, text) in parts.iter().enumerate() {
        let run = match read_run(alloc, component, text) {
            Ok(run) => run,
            Err(fault) => return Err(RunPartFault { number, fault }),
        };
        match runs.push(run) {
            Ok(()) => {}
            Err(_) => {
                return Err(RunPartFault {
                    number,
                    fault: Fault::Memory,
                });
            }
        }
    }
    Ok(runs)
}
