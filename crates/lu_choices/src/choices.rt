//! How many choices there are, and the one with a number.

ghost use Rattle.std.specs.Prelude.{◌≡◌, ◌<◌};
ghost use Rattle.lu_choices.specs.Choices.{AreBases, IsChoiceIn, choice_count, number_in};

use arrayvec::ArrayVec;

/// The most bases.
pub const MOST_BASES: usize = 16;

/// A number below each base.
pub type Choice = ArrayVec<u8, MOST_BASES>;

/// How many choices there are. Asks for at most 16 bases, each 1 to 9.
pub fn count_choices(bases: &[u8]) -> u64
    requires { AreBases bases.now }
    ensures { result ≡ choice_count bases.now }
{
    let mut count: u64 = 1;
    for base in bases {
        count *= u64::from(*base);
    }
    count
}

/// The choice with this number in lexicographic order, from 0. Asks for at most 16 bases, each 1 to
/// 9, and for a number below that of the choices ([`count_choices`]).
pub fn choice_at(bases: &[u8], number: u64) -> Choice
    requires bases { AreBases bases.now }
    requires number { number < choice_count bases.now }
    ensures choice { IsChoiceIn bases.now result.items }
    ensures number { number_in bases.now result.items ≡ number }
{
    let mut choice = Choice::new();
    let mut round = count_choices(bases);
    let mut rest = number;
    for base in bases {
        round /= u64::from(*base);
        choice.push((rest / round) as u8);
        rest %= round;
    }
    choice
}
