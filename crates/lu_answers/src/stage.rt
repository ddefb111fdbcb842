//! Stages as they are stored, and numbered.

ghost use Rattle.std.specs.Prelude.{IfOk, IfSome, OnOk};
ghost use Rattle.lu_machine.specs.Starts.{IsStart};
ghost use Rattle.lu_answers.specs.Stored.{HasStage, IsFirstFor, IsNumbered, IsStored, Keeps};

use indexmap::IndexSet;
use lu_machine::{Machine, Position};
use std::alloc::{AllocError, Global};

/// A stage: the place of each thread in its line, and the positions at the rests. There all threads
/// are idle, at these places.
#[derive(PartialEq, Eq, Hash, Drop)]
pub(crate) struct StoredStage {
    pub(crate) places: Vec<u8>,
    pub(crate) rests: Vec<Position>,
}

/// The stages that have come up, numbered in this order.
pub(crate) type Stages = IndexSet<StoredStage>;

/// The stage before any call. The machine is asked to be at the start of a run.
pub(crate) fn first_stage(alloc: Global, machine: &Machine<'_>) -> Result<StoredStage, AllocError>
    requires { IsStart machine.now.component machine.now.matrix machine.now }
    ensures first { IfOk result (IsFirstFor machine.now) }
    ensures stored { IfOk result (IsStored machine.now.component machine.now.matrix) }
{
    let places = vec![in alloc; 0; usize::from(machine.threads())]?;
    let mut rests = Vec::new(alloc);
    rests.push(machine.position(alloc)?)?;
    Ok(StoredStage { places, rests })
}

/// The number of the stage, which is added at the end unless it is there already. None where the
/// numbers don't suffice.
pub(crate) fn number_of(stages: &mut Stages, stage: StoredStage) -> Result<Option<u32>, AllocError>
    ensures keeps { OnOk result (Keeps stages.old.keys stage stages.new.keys) }
    ensures there { OnOk result (HasStage stages.new.keys stage) }
    ensures number { IfOk result (λ n. IfSome n (IsNumbered stages.new.keys stage)) }
{
    let (place, _) = stages.insert_full(stage)?;
    Ok(u32::try_from(place).ok())
}
