//! Laws of specifications, for the crates above.

ghost use Rattle.lu_spec.specs.EveryFreeFault.{GivenListedAsRead};
ghost use Rattle.lu_spec.specs.FreeLaws.{FirmIsPlain, ReadAlike, RefusedAlike};
ghost use Rattle.lu_spec.specs.Laws.{NoFault, NoneListed, OneSpelling, ReadAgain, ListedAsRead};

/// What is read of a text is written as that text: a specification has one spelling. The function
/// does nothing.
pub fn one_spelling()
    ensures { OneSpelling }
{}

/// A text that lists histories of the matrix has no fault: so it is read, unless memory is refused.
/// The function does nothing.
pub fn no_fault()
    ensures { NoFault }
{}

/// The text that is written of a specification of a matrix lists its histories: so, by
/// [`no_fault`], it is read as that specification, unless memory is refused. The function does
/// nothing.
pub fn read_again()
    ensures { ReadAgain }
{}

/// [`crate::spec_faults`] agrees with [`crate::read_spec`]: it tells no fault exactly of a text
/// that lists histories of the matrix, and of any other the reader's fault first. The function does
/// nothing.
pub fn listed_as_read()
    ensures first { ListedAsRead }
    ensures none { NoneListed }
{}

/// Without marks a specification that may leave outcomes free is a specification: histories
/// conflict firmly where they conflict, and [`crate::collect_free_spec`] reads and refuses such a
/// text as [`crate::collect_spec`] does. The function does nothing.
pub fn free_without_marks()
    ensures conflicts { FirmIsPlain }
    ensures read { ReadAlike }
    ensures refused { RefusedAlike }
{}

/// [`crate::given_spec_faults`] agrees with [`crate::read_given_spec`]: where it tells no fault the
/// text lists histories of the matrix, and else its first fault is the reader's. The function does
/// nothing.
pub fn given_listed_as_read()
    ensures { GivenListedAsRead }
{}
