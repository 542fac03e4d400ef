//! Rising lists of identifiers, united and lessened: clearing collects in them what is left.

ghost use Rattle.std.specs.Prelude.{◌≡◌, IfOk};
ghost use Rattle.jc_rules.specs.Entries.{keys_of};
ghost use Rattle.jc_rules.specs.Ids.{AreRising, union, without};

use jc_rules::{Id, IdSet, Value, insert_id};
use std::alloc::{AllocError, Global};

/// What is in either list.
pub fn united(ids: Vec<Id>, more: &[Id]) -> Result<Vec<Id>, AllocError>
    requires { AreRising ids.items }
    ensures { IfOk result (λ v. v.items ≡ union ids.items more.now) }
{
    let mut all = ids;
    for id in more {
        insert_id(&mut all, *id)?;
    }
    Ok(all)
}

/// What is in the list and not in the set.
pub fn left_out(alloc: Global, ids: &[Id], deps: &IdSet) -> Result<Vec<Id>, AllocError>
    ensures { IfOk result (λ v. v.items ≡ without ids.now deps.now) }
{
    let mut left = Vec::new(alloc);
    for id in ids {
        if !deps.contains(*id) {
            left.push(*id)?;
        }
    }
    Ok(left)
}

/// The identifiers of the pairs.
pub fn ids_of(alloc: Global, pairs: &[(Id, Value)]) -> Result<Vec<Id>, AllocError>
    ensures { IfOk result (λ v. v.items ≡ keys_of pairs.now) }
{
    let mut ids = Vec::new(alloc);
    for (id, _) in pairs {
        ids.push(*id)?;
    }
    Ok(ids)
}
