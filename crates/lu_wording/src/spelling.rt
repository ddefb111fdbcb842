//! For which name a word may be a slip.

use lu_component::{Array, Op};
use lu_lang::Label;
use lu_source_lint::is_near;
use lu_test::Signature;
use lu_text::Name;

/// What has a name for which a word may be a slip.
pub(crate) trait HasName {
    fn name(&self) -> &str;
}

impl HasName for Name {
    fn name(&self) -> &str {
        self.as_str()
    }
}

impl HasName for Array {
    fn name(&self) -> &str {
        self.name.as_str()
    }
}

impl HasName for Op {
    fn name(&self) -> &str {
        self.name.as_str()
    }
}

impl HasName for Signature<'_> {
    fn name(&self) -> &str {
        self.name.as_str()
    }
}

impl HasName for Label {
    fn name(&self) -> &str {
        self.name.as_str()
    }
}

/// The name of the first of these for which the word may be a slip.
pub(crate) fn near<'a, T: HasName>(items: &'a [T], word: &[u8]) -> Option<&'a str> {
    match items
        .iter()
        .find(|item| is_near(word, item.name().as_bytes()))
    {
        None => None,
        Some(item) => Some(item.name()),
    }
}
