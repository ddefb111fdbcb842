//! How much memory a certificate may take if nobody says so.

use std::alloc::AllocError;
use std::fs;
use std::rt::Files;

/// The most MiB that a certificate takes if nobody says so.
const MOST_MIB: u64 = 4096;

/// How many KiB a text of `/proc/meminfo` says are free.
fn free_in(text: &str) -> Option<u64> {
    let line = text.lines().find(|line| line.starts_with("MemAvailable:"))?;
    line.split_whitespace().nth(1)?.parse::<u64>().ok()
}

/// Half of what the machine has free, in MiB, where that is known.
fn half_of_free(rt: &(impl Files + AllocGlobal)) -> Option<u64> {
    let text = fs::read_to_string(rt, "/proc/meminfo").ok()?;
    free_in(&text).map(|kibibytes| kibibytes / 2048)
}

/// Whether the words are a `certify` that does not say how much memory it may take.
fn wants_memory(words: &[String]) -> bool {
    words.first().is_some_and(|word| word.as_str() == "certify")
        && !words.iter().any(|word| word.starts_with("--memory"))
}

/// The words; of a `certify` that does not say how much memory it may take, with half of what the
/// machine has free, at most 4096 MiB.
///
/// # Errors
///
/// `AllocError` where memory was refused.
pub(crate) fn with_memory(
    rt: &(impl Files + AllocGlobal),
    words: &[String],
) -> Result<Vec<String>, AllocError> {
    let mut asked = Vec::new(rt.alloc());
    for (position, word) in words.iter().enumerate() {
        asked.push(word.clone()?)?;
        if position == 0 && wants_memory(words) {
            if let Some(mebibytes) = half_of_free(rt) {
                let mebibytes = mebibytes.clamp(1, MOST_MIB);
                asked.push(format!(in rt.alloc(); "--memory={mebibytes}")?)?;
            }
        }
    }
    Ok(asked)
}
