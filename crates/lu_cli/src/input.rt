//! All that a reader gives, up to a limit.

ghost use Rattle.std.specs.Prelude.{◌≡◌, ◌⊎◌, ◌<◌, ◌≤◌, ◌-◌, ◌^◌, length, IfOk, IsErrOf};
ghost use Rattle.lu_cli.specs.Counted.{IsUnfailed};
ghost use Rattle.lu_cli.specs.Inputs.{IsTooLong, IsWholeInput, most_bytes};
ghost use Rattle.lu_cli.specs.declared.input.InputFault.TheVariants.{Memory};

use crate::counted::Counted;
use std::alloc::{AllocError, Global};
use std::io::Read;

/// The most bytes that are read.
pub(crate) const MOST_BYTES: usize = 1_048_576;

/// Why there is no input.
#[derive(Clone, Copy, Debug, PartialEq, Eq)]
pub enum InputFault {
    TooLong,
    Device,
    Memory,
}

impl From<AllocError> for InputFault {
    ghost from_gives = { λ _ e. e ≡ Memory };

    fn from(_e: AllocError) -> InputFault {
        InputFault::Memory
    }
}

/// All that the reader gives. A read that failed is not tried again.
pub fn read_input<R: Read>(alloc: Global, input: &mut Counted<R>) -> Result<Vec<u8>, InputFault>
    requires { input.old.failures < 2 ^ 64 - 1 }
    ensures all { IfOk result (λ bytes. IsWholeInput (R.remaining input.old.inner) bytes.items) }
    ensures short { IfOk result (λ bytes. length bytes.items ≤ most_bytes) }
    ensures long { IsErrOf result InputFault.TooLong → IsTooLong (R.remaining input.old.inner) }
    ensures device { IsErrOf result InputFault.Device → input.old.failures < input.new.failures }
    ensures unfailed { IsErrOf result InputFault.Device ⊎ IsUnfailed input.old input.new }
{
    let mut bytes = Vec::new(alloc);
    let mut piece = [0; 4096];
    for _ in 0..MOST_BYTES + 1 {
        let Ok(taken) = input.read(&mut piece) else {
            return Err(InputFault::Device);
        };
        if taken == 0 {
            return Ok(bytes);
        }
        if taken > MOST_BYTES - bytes.len() {
            return Err(InputFault::TooLong);
        }
        bytes.extend_from_slice(&piece[..taken])?;
    }
    Err(InputFault::TooLong)
}
