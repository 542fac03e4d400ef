//! The variables of a replica, by name: they are bound by commands, and unbound by `undo`.

ghost use Rattle.std.specs.Prelude.{◌≡◌, IfOk, OnErr};
ghost use Rattle.jc_cursor.specs.Bounds.{bound_of, vars_of};
ghost use Rattle.jc_replica.specs.Undo.{unbound, was_bound};
ghost use Rattle.jc_replica.specs.Variables.{IsBound};

use jc_cursor::Bound;
use jc_rules::Text;
use std::alloc::{AllocError, Global};
use std::collections::BTreeMap;
use std::mem;

/// Binds the variable, and returns what it was bound to. After a refusal all is as it was.
pub fn bind_var(
    alloc: Global,
    vars: &mut BTreeMap<Text, Bound>,
    name: &Text,
    bound: Bound,
) -> Result<Option<Box<Bound>>, AllocError>
    ensures ok { IfOk result (λ before. IsBound name.now (bound_of bound) (was_bound before)
        (vars_of vars.old.entries) (vars_of vars.new.entries)) }
    ensures err { OnErr result (vars.new.entries ≡ vars.old.entries) }
{
    if let Some(there) = vars.get_mut(name) {
        let mut before = Box::new(alloc, bound)?;
        mem::swap(&mut *before, there);
        return Ok(Some(before));
    }
    vars.insert(name.copy()?, bound)?;
    Ok(None)
}

/// Binds the variable to what it was bound to before, or removes it where it wasn't bound. It takes no memory.
pub fn unbind_var(vars: &mut BTreeMap<Text, Bound>, name: &Text, before: Option<Box<Bound>>)
    ensures { vars_of vars.new.entries ≡ unbound name.now (was_bound before) (vars_of vars.old.entries) }
{
    let Some(bound) = before else {
        vars.remove(name);
        return;
    };
    if let Some(there) = vars.get_mut(name) {
        *there = Box::into_inner(bound);
    }
}
