//! Reading of a schedule that goes on after a fault.

ghost use Rattle.std.specs.Prelude.{Some};
ghost use Rattle.lu_test.specs.Results.{HasWords};
ghost use Rattle.lu_test.specs.ScheduleGoing as spec;

use crate::schedule_text::{has_form, line_in};
use lu_text::parts_of;
use std::alloc::{AllocError, Global};

/// The words after `schedule`, where the text has the form of a schedule: `schedule` and words,
/// each after one space, in one line with its LF.
///
/// # Errors
///
/// There is no memory for the words.
pub fn schedule_words(alloc: Global, text: &[u8]) -> Result<Option<Vec<&[u8]>>, AllocError>
    ensures { HasWords result (spec.schedule_words text.now) }
{
    let Some(line) = line_in(text) else {
        return Ok(None);
    };
    let mut words = parts_of(alloc, b' ', line)?;
    if !has_form(&words) {
        return Ok(None);
    }
    words.remove(0);
    Ok(Some(words))
}
