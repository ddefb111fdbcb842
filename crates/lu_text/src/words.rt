//! Words in a row.

ghost use Rattle.std.specs.Prelude.{◌≡◌, ◌==◌};
ghost use Rattle.std.specs.List.{position};
ghost use Rattle.std.specs.Option.{option_map};
ghost use Rattle.lu_text.specs.Lines.{texts};
ghost use Rattle.lu_text.specs.Words as spec;

/// Where a byte first stands in a text.
pub fn position_of(byte: u8, text: &[u8]) -> Option<usize>
    ensures { result ≡ position (λ b. b == byte) text.now }
{
    text.iter().position(|other| *other == byte)
}

/// The word, where there is one and no more.
#[tactic(auto, using(crate::proofs::Arity::is_one, crate::proofs::Arity::is_not_one))]
pub fn exactly_one<'a>(words: &[&'a [u8]]) -> Option<&'a [u8]>
    ensures { option_map (λ a. a.now) result ≡ spec.exactly_one (texts words.now) }
{
    if words.len() != 1 {
        return None;
    }
    Some(words[0])
}

/// The two words, where there are this many and no more.
#[tactic(auto, using(crate::proofs::Arity::are_two, crate::proofs::Arity::are_not_two))]
pub fn exactly_two<'a>(words: &[&'a [u8]]) -> Option<(&'a [u8], &'a [u8])>
    ensures { option_map spec.two_texts result ≡ spec.exactly_two (texts words.now) }
{
    if words.len() != 2 {
        return None;
    }
    Some((words[0], words[1]))
}

/// The three words, where there are this many and no more.
#[tactic(auto, using(crate::proofs::Arity::are_three, crate::proofs::Arity::are_not_three))]
pub fn exactly_three<'a>(words: &[&'a [u8]]) -> Option<(&'a [u8], &'a [u8], &'a [u8])>
    ensures { option_map spec.three_texts result ≡ spec.exactly_three (texts words.now) }
{
    if words.len() != 3 {
        return None;
    }
    Some((words[0], words[1], words[2]))
}

/// The four words, where there are this many and no more.
#[tactic(auto, using(crate::proofs::Arity::are_four, crate::proofs::Arity::are_not_four))]
pub fn exactly_four<'a>(words: &[&'a [u8]]) -> Option<(&'a [u8], &'a [u8], &'a [u8], &'a [u8])>
    ensures { option_map spec.four_texts result ≡ spec.exactly_four (texts words.now) }
{
    if words.len() != 4 {
        return None;
    }
    Some((words[0], words[1], words[2], words[3]))
}

/// The five words, where there are this many and no more.
#[tactic(auto, using(crate::proofs::Arity::are_five, crate::proofs::Arity::are_not_five))]
pub fn exactly_five<'a>(
    words: &[&'a [u8]],
) -> Option<(&'a [u8], &'a [u8], &'a [u8], &'a [u8], &'a [u8])>
    ensures { option_map spec.five_texts result ≡ spec.exactly_five (texts words.now) }
{
    if words.len() != 5 {
        return None;
    }
    Some((words[0], words[1], words[2], words[3], words[4]))
}
