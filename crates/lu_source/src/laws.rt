//! What a component keeps of its source.

ghost use Rattle.lu_source.specs.Expressions.{DifferenceTells, ExpressionsDone};
ghost use Rattle.lu_source.specs.Runs.{CompilesRightly};
ghost use Rattle.lu_source.specs.Sound.{CodeSound, CodedSound};

/// Of each source and each matrix: a schedule of the source is one of its component, with the same
/// history, and leads to a state that stands so too; and the other way round. And the code of an
/// expression does what the expression means; a difference tells whether two values differ; and
/// the code of a statement that names what is there is code of a component, and so is that of an
/// expression. The function does nothing.
pub fn compiler_laws()
    ensures compiles { CompilesRightly }
    ensures expressions { ExpressionsDone }
    ensures tests { DifferenceTells }
    ensures sound { CodeSound }
    ensures values { CodedSound }
{}
