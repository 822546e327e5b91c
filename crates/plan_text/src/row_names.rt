//! The names of the directories of a problem's rows.
ghost use Rattle.std.specs.Prelude.{◌≡◌};
ghost use Rattle.plan_text.specs.RowNames.{is_row_name};

use dirtree::{Name, is_name};
use std::alloc::{AllocError, Global};
use std::marker::Model;

/// Whether a text may name the directory of a row: a directory's name, or `/` for the root.
#[tactic(auto, unfolding(crate::specs::RowNames::is_row_name))]
pub fn is_row_name(text: &str) -> bool
    ensures { result ≡ is_row_name text.now }
{
    text == "/" || is_name(text)
}

/// The names of the directories of rows, in the order of the rows. To a contract it is the list of them.
#[derive(Drop)]
pub struct RowNames {
    names: Vec<Name>,
}

impl Model for RowNames {
    ghost use Rattle.std.specs.Prelude.{All, List, ℕ};
    ghost use Rattle.plan_text.specs.RowNames.{IsRowName};

    ghost Value = { List (List ℕ) };

    ghost view = { λ names. names.names.items };

    ghost invariant = { λ names. All IsRowName names.names.items };
}

impl RowNames {
    ghost use Rattle.std.specs.Prelude.{◌≡◌, ◌++◌, ◌∷◌, [], All, OnErr, OnOk};
    ghost use Rattle.plan_text.specs.RowNames.{IsRowName};

    /// No name.
    pub fn new(alloc: Global) -> RowNames
        ensures { result ≡ [] }
    {
        RowNames {
            names: Vec::new(alloc),
        }
    }

    /// Adds the name of the next row's directory.
    pub fn push(&mut self, alloc: Global, name: &str) -> Result<(), AllocError>
        requires { IsRowName name.now }
        ensures pushed { OnOk result (self.new ≡ self.old ++ name.now ∷ []) }
        ensures unchanged { OnErr result (self.new ≡ self.old) }
    {
        let name = Name::new(alloc, name)?;
        self.names.push(name)?;
        Ok(())
    }

    /// The names.
    pub fn as_slice(&self) -> &[Name]
        ensures same { result.now ≡ self.now }
        ensures names { All IsRowName self.now }
    {
        self.names.as_slice()
    }
}
