//! A map of the document, made by the store's own calls.

ghost use Rattle.std.specs.Prelude.{OnOk};
ghost use Rattle.jc_rules.specs.Ids.{AreRising};
ghost use Rattle.jc_rules.specs.WellFormed.{IsChained};
ghost use Rattle.jc_tree.specs.Tree.{HasPlace};

use jc_rules::{Id, Key, Tagged, Value};
use jc_tree::TreeStore;
use std::alloc::{AllocError, Global};
use std::process::Abort;

/// Makes a map under the document.
pub fn make_map<S: TreeStore>(
    rt: &impl Abort,
    store: &mut S,
    map: &Tagged,
) -> Result<(), AllocError>
    requires { IsChained (S.tree store.old).now }
    ensures { OnOk result (IsChained (S.tree store.new).now) }
{
    assert!(rt; !store.has(&[], map));
    store.make_child(&[], map)?;
    Ok(())
}

/// Gives the key a register with one value.
#[tactic(auto, using(jc_tree::proofs::TreeLemmas::still_place, jc_tree::proofs::ChainedLemmas::chained_register))]
pub fn put_true<S: TreeStore>(
    alloc: Global,
    store: &mut S,
    at: &[Tagged],
    key: &Key,
    id: Id,
) -> Result<(), AllocError>
    requires there { HasPlace at.now (S.tree store.old) }
    requires chained { IsChained (S.tree store.old).now }
    ensures there { OnOk result (HasPlace at.now (S.tree store.new)) }
    ensures chained { OnOk result (IsChained (S.tree store.new).now) }
{
    let pairs = vec![in alloc; (id, Value::True)]?;
    store.set_register(at, key, pairs)
}

/// Gives the key a presence set.
#[tactic(auto, using(jc_tree::proofs::TreeLemmas::still_place, jc_tree::proofs::ChainedLemmas::chained_presence))]
pub fn put_ids<S: TreeStore>(
    store: &mut S,
    at: &[Tagged],
    key: &Key,
    ids: &[Id],
) -> Result<(), AllocError>
    requires there { HasPlace at.now (S.tree store.old) }
    requires chained { IsChained (S.tree store.old).now }
    requires rising { AreRising ids.now }
    ensures there { OnOk result (HasPlace at.now (S.tree store.new)) }
    ensures chained { OnOk result (IsChained (S.tree store.new).now) }
{
    store.set_presence(at, key, ids)
}
