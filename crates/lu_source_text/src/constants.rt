//! The constants of a source.

ghost use Rattle.std.specs.Prelude.{◌≡◌, [], ◌∷◌, ◌++◌, None, OnOk};
ghost use Rattle.lu_source_text.specs.Constants.{constant_from};

use indexmap::IndexMap;
use lu_text::Name;
use std::alloc::{AllocError, Global};
use std::marker::Model;

/// Names for numbers, in the order in which they are declared.
#[derive(Debug, Drop)]
pub(crate) struct Constants {
    values: IndexMap<Vec<u8>, u32>,
}

impl Model for Constants {
    ghost use Rattle.std.specs.Prelude.{List, map};
    ghost use Rattle.lu_source_text.specs.Constants.{Constant, constant_of};

    ghost Value = { List Constant };

    ghost view = { λ c. map constant_of c.values.entries };
}

impl Constants {
    /// No constant is declared.
    pub(crate) fn new(alloc: Global) -> Constants
        ensures { result ≡ [] }
    {
        Constants {
            values: IndexMap::new(alloc),
        }
    }

    /// The value of the constant of this name.
    pub(crate) fn get(&self, word: &[u8]) -> Option<u32>
        ensures { result ≡ constant_from self.now word.now }
    {
        self.values.get(word).copied()
    }

    /// Declares one more constant, last. Asks for a name that no constant has.
    ///
    /// # Errors
    ///
    /// There is no memory for it.
    pub(crate) fn declare(
        &mut self,
        alloc: Global,
        name: &Name,
        value: u32,
    ) -> Result<(), AllocError>
        requires { constant_from self.old name.now ≡ None }
        ensures { OnOk result
            (self.new ≡ self.old ++ record { name = name.now; value = value } ∷ []) }
    {
        let name = Vec::from_slice(alloc, name.as_bytes())?;
        self.values.insert(name, value)?;
        Ok(())
    }
}
