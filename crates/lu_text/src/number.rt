//! Numbers as they are written.

ghost use Rattle.std.specs.Prelude.{◌≡◌, ◌+◌};
ghost use Rattle.std.specs.List.{list_all};
ghost use Rattle.std.specs.Char.{is_ascii_digit};
ghost use Rattle.lu_text.specs.Numbers.{below, number_in};
ghost use Rattle.lu_text.specs.Numbers as spec;

fn are_digits(bytes: &[u8]) -> bool
    ensures { result ≡ list_all is_ascii_digit bytes.now }
{
    bytes.iter().all(|byte| byte.is_ascii_digit())
}

/// Whether a word is a number: `0`, or a digit 1 to 9 followed by digits.
#[tactic(auto, using(crate::proofs::Grown::digit_each))]
pub fn is_number(word: &[u8]) -> bool
    ensures { result ≡ spec.is_number word.now }
{
    match word {
        [] => false,
        [first, rest @ ..] => are_digits(word) && (*first != b'0' || rest.is_empty()),
    }
}

/// The number that the word is, where it is one and at most `most`.
pub fn number_up_to(word: &[u8], most: u64) -> Option<u64>
    ensures { result ≡ below (most + 1) (number_in word.now) }
{
    if !is_number(word) {
        return None;
    }
    let mut number: u128 = 0;
    for digit in word {
        number = 10 * number + (*digit - b'0') as u128;
        if number > most as u128 {
            return None;
        }
    }
    Some(number as u64)
}

/// The number that a word is, where it is one of at most 4294967295.
pub fn value_in(word: &[u8]) -> Option<u32>
    ensures { result ≡ spec.value_in word.now }
{
    Some(number_up_to(word, u32::MAX as u64)? as u32)
}
