//! The values of a register with their identifiers, as a variable may hold them. Contracts see the list.

ghost use Rattle.std.specs.Prelude.{◌≡◌, IfOk};

use crate::id::Id;
use crate::value::Value;
use std::alloc::{AllocError, Global};
use std::marker::Model;

/// The values of a register, each with the identifier of its operation, seen as the list of them.
#[derive(Drop)]
pub struct Pairs {
    pairs: Vec<(Id, Value)>,
}

impl Model for Pairs {
    ghost use Rattle.jc_rules.specs.Context.{Register};

    ghost Value = { Register };

    ghost view = { λ a. a.pairs.items };
}

impl Pairs {
    /// Copies of these pairs.
    pub fn from_slice(alloc: Global, pairs: &[(Id, Value)]) -> Result<Self, AllocError>
        ensures { IfOk result (λ copies. copies ≡ pairs.now) }
    {
        let mut copies = Vec::new(alloc);
        for (id, value) in pairs {
            copies.push((*id, value.copy()?))?;
        }
        Ok(Pairs { pairs: copies })
    }

    pub fn as_slice(&self) -> &[(Id, Value)]
        ensures { result.now ≡ self.now }
    {
        self.pairs.as_slice()
    }

    /// The same pairs once more.
    pub fn copy(&self) -> Result<Self, AllocError>
        ensures { IfOk result (λ copies. copies ≡ self.now) }
    {
        Pairs::from_slice(*self.pairs.allocator(), self.pairs.as_slice())
    }
}
