//! Laws of the language of components.

ghost use Rattle.lu_lang.specs.Labels.{JumpsLeadToLabels};
ghost use Rattle.lu_lang.specs.Laws.{ComponentsReadAgain};

/// What is written of a component is read as it was. The function does nothing.
pub fn round_trip()
    ensures { ComponentsReadAgain }
{}

/// In a text that is read, each jump leads to the place of the label that it names. The function
/// does nothing.
pub fn labels_law()
    ensures { JumpsLeadToLabels }
{}
