//! For which name a word may be a slip.

/// How many bytes two words have in common before they differ, capitals apart.
fn common_front(left: &[u8], right: &[u8]) -> usize {
    left.iter()
        .zip(right.iter())
        .position(|(one, other)| !one.eq_ignore_ascii_case(other))
        .unwrap_or(left.len().min(right.len()))
}

/// How many bytes two words have in common at their ends, capitals apart.
fn common_back(left: &[u8], right: &[u8]) -> usize {
    left.iter()
        .rev()
        .zip(right.iter().rev())
        .position(|(one, other)| !one.eq_ignore_ascii_case(other))
        .unwrap_or(left.len().min(right.len()))
}

/// Whether two words have the same two bytes here in the other order, capitals apart.
fn are_swapped(left: &[u8], right: &[u8], position: usize) -> bool {
    let next = position.saturating_add(1);
    match (
        left.get(position),
        left.get(next),
        right.get(position),
        right.get(next),
    ) {
        (Some(a), Some(b), Some(c), Some(d)) => {
            a.eq_ignore_ascii_case(d) && b.eq_ignore_ascii_case(c)
        }
        _ => false,
    }
}

/// Whether one word may be a slip for the other: capitals apart, one byte more, less or different,
/// or two neighbours in the wrong order.
pub fn is_near(word: &[u8], meant: &[u8]) -> bool {
    if word.eq_ignore_ascii_case(meant) {
        return true;
    }
    let most = word.len().max(meant.len());
    let front = common_front(word, meant);
    let left = most.saturating_sub(front);
    let different = left.saturating_sub(common_back(word, meant));
    if word.len() != meant.len() {
        return most > 1 && different <= 1;
    }
    most > 2 && (different <= 1 || (different == 2 && are_swapped(word, meant, front)))
}
