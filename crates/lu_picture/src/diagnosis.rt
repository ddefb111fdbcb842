//! What a picture shows of why a run fails.

use lu_explain::{Explanation, Precedence};

/// What a picture shows of why a run fails, beside the run.
#[derive(Clone, Copy)]
pub struct Diagnosis<'a> {
    /// Which operations a serial history explains, and why the others are left.
    pub explanation: Option<&'a Explanation>,

    /// A precedence that every order of the calls with these outcomes breaks.
    pub broken: Option<Precedence>,
}
