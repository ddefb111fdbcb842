//! Laws of slices. Their functions do nothing.

ghost use Rattle.lu_survey.specs.Laws.{CertifiedJoin, ComparedJoin, OneCertifiedAnswer, OneSurvey, SurveyCountsAll, SurveysJoin, WholeSlices};

/// A slice from the first matrix to a number that is no less than theirs has all of them. Within
/// the limits there are fewer than 2 to the power of 64, so `u64::MAX` is such a number.
pub fn whole_slices()
    ensures { WholeSlices }
{}

/// Slices that follow one another give together what one slice gives: the first answer that names a
/// matrix, or, where none does, the sum of the counts. A slice has one answer, so it does not
/// matter who tries it.
pub fn certified_join()
    ensures join { CertifiedJoin }
    ensures one_answer { OneCertifiedAnswer }
{}

/// The surveys of slices that follow one another give together that of one slice: the sums of the
/// counts, and the first matrices of the earlier one, where it has some. The four counts of a
/// survey make up the number of matrices of its slice, and a slice has one survey.
pub fn surveys_join()
    ensures join { SurveysJoin }
    ensures all { SurveyCountsAll }
    ensures one_survey { OneSurvey }
{}

/// Slices of a comparison that follow one another give together what one slice gives: the first
/// answer that names a matrix, or, where none does, the sum of the counts.
pub fn compared_join()
    ensures { ComparedJoin }
{}
