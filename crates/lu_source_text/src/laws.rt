//! What the texts of sources keep to.

ghost use Rattle.lu_source_text.specs.Readers.{SourceSound};

/// Each source that a text spells is compiled to a component. The function does nothing.
pub fn reader_laws()
    ensures { SourceSound }
{}
