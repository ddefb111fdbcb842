//! The words for the lines between the parts of a bundle.

use std::alloc::{AllocError, Global};

/// The words for a line that is nearly `---`.
pub(crate) fn separator_wording(alloc: Global, line: &[u8]) -> Result<String, AllocError> {
    let after = if line.contains(&b'\r') {
        "a carriage return"
    } else {
        "whitespace"
    };
    format!(in alloc;
        "{after} after `---`; help: parts are separated by lines that are exactly `---`"
    )
}

/// The words for a part after the fourth.
pub(crate) fn fifth_part_wording(alloc: Global) -> Result<String, AllocError> {
    String::from_str(
        alloc,
        "unexpected part after this line; help: only recorded histories may follow",
    )
}
