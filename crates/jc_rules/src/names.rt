//! A list of names of keys, as a variable may hold it. Contracts see the list.

ghost use Rattle.std.specs.Prelude.{◌≡◌, IfOk};

use crate::text::Text;
use std::alloc::AllocError;
use std::marker::Model;

/// Names of keys, seen as the list of them.
#[derive(Drop)]
pub struct Names {
    names: Vec<Text>,
}

impl Model for Names {
    ghost use Rattle.std.specs.Prelude.{List, ℕ};

    ghost Value = { List (List ℕ) };

    ghost view = { λ a. a.names.items };
}

impl Names {
    pub fn new(names: Vec<Text>) -> Self
        ensures { result ≡ names.items }
    {
        Names { names }
    }

    pub fn as_slice(&self) -> &[Text]
        ensures { result.now ≡ self.now }
    {
        self.names.as_slice()
    }

    /// The same names once more.
    pub fn copy(&self) -> Result<Self, AllocError>
        ensures { IfOk result (λ names. names ≡ self.now) }
    {
        let mut names = Vec::new(*self.names.allocator());
        for name in self.names.as_slice() {
            names.push(name.copy()?)?;
        }
        Ok(Names { names })
    }
}
