//! What variables are bound to, and what expressions evaluate to; replicas keep their variables so.

ghost use Rattle.std.specs.Prelude.{◌≡◌, IfOk, option_copied};
ghost use Rattle.jc_cursor.specs.Bounds.{bound_of, vars_in, FoundAs};

use jc_rules::{Cursor, Names, Pairs, Text};
use std::alloc::AllocError;
use std::collections::BTreeMap;

/// What an expression evaluates to, and what a variable is bound to.
#[derive(Drop)]
pub enum Bound {
    /// A place in the document.
    Cursor(Cursor),
    /// The names in a map, by their bytes.
    Keys(Names),
    /// The values of a register, by identifier.
    Values(Pairs),
}

impl Bound {
    /// An equal value.
    pub fn copy(&self) -> Result<Self, AllocError>
        ensures { IfOk result (λ bound. bound_of bound ≡ bound_of self.now) }
    {
        match self {
            Bound::Cursor(cursor) => Ok(Bound::Cursor(cursor.copy()?)),
            Bound::Keys(names) => Ok(Bound::Keys(names.copy()?)),
            Bound::Values(pairs) => Ok(Bound::Values(pairs.copy()?)),
        }
    }
}

/// What the variable is bound to: the first of its name, found by a walk.
fn bound_first<'a>(vars: &'a [(Text, Bound)], name: &Text) -> Option<&'a Bound>
    ensures { FoundAs name.now vars.now (option_copied result) }
{
    for (bound_name, bound) in vars {
        if name.cmp(bound_name).is_eq() {
            return Some(bound);
        }
    }
    None
}

/// Variables and what they are bound to: a list, or a map by name.
#[derive(Clone, Copy)]
pub enum Variables<'a> {
    List(&'a [(Text, Bound)]),
    Map(&'a BTreeMap<Text, Bound>),
}

/// What the variable is bound to.
pub fn bound_to<'a>(vars: Variables<'a>, name: &Text) -> Option<&'a Bound>
    ensures { FoundAs name.now (vars_in vars.entry) (option_copied result) }
{
    match vars {
        Variables::List(list) => bound_first(list, name),
        Variables::Map(map) => map.get(name),
    }
}
