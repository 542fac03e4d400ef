//! A key that was cleared before and has got nothing since: clearing it again changes nothing.

ghost use Rattle.std.specs.Prelude.{◌≡◌, [], List, Some, IsTrue, OnOk, option_copied};
ghost use Rattle.jc_rules.specs.declared.id.Id.{Id as AnyId};
ghost use Rattle.jc_rules.specs.declared.key.Key.{Key as AnyKey};
ghost use Rattle.jc_rules.specs.declared.key.Tagged.{Tagged as AnyTagged};
ghost use Rattle.jc_rules.specs.Derivation.{ClearElem};
ghost use Rattle.jc_tree.specs.CanGoBack.{TreeCanGoBack};
ghost use Rattle.jc_tree.specs.Tree.{Tree, HasPlace, here};
ghost use Rattle.jc_clear.specs.Cleared.{IsCleared};
ghost use Rattle.jc_clear.specs.Clears.{Clears};

use jc_rules::{Rule, Trace};
use jc_tree::{KeyAt, TreeStore};
use std::alloc::AllocError;

/// Whether there is a list, with nothing in it.
fn is_empty<X>(items: Option<&[X]>) -> bool
    ensures { IsTrue result → option_copied items.entry ≡ Some [] }
{
    match items {
        Some(items) => items.is_empty(),
        None => false,
    }
}

/// Whether the key has an empty presence set and an empty register, and nothing else.
pub(crate) fn is_cleared<S: TreeStore>(store: &S, key: KeyAt<'_>) -> bool
    requires { (at : List AnyTagged) × S.names store.now key.place at }
    ensures { (at : List AnyTagged) → S.names store.now key.entry.place at
        → IsTrue result → IsCleared key.entry.key.now (here at (S.tree store.now)) }
{
    is_empty(store.presence_by(key.place, key.key, key.hint))
        && is_empty(store.register_by(key.place, key.key, key.hint))
        && store.map_by(key.place, key.key, key.hint).is_none()
        && store.list_by(key.place, key.key, key.hint).is_none()
}

/// Adds the rules by which such a key is cleared.
pub(crate) fn push_cleared(trace: &mut Trace) -> Result<(), AllocError>
    ensures ok { OnOk result ((at : List AnyTagged) (a : Tree) (deps : List AnyId) (k : AnyKey)
        → HasPlace at a → IsCleared k (here at a)
        → Clears (λ c. ClearElem c deps k) at a a [] trace.old trace.new) }
    ensures kept { (a : Tree) → TreeCanGoBack a a trace.old trace.new }
{
    let depth = trace.depth();
    trace.open(Rule::ClearElem)?;
    let below = trace.depth();
    trace.open(Rule::ClearAny)?;
    trace.push(Rule::ClearNone)?;
    trace.push(Rule::ClearNone)?;
    trace.push(Rule::ClearReg)?;
    trace.close(below);
    trace.push(Rule::Presence1)?;
    trace.close(depth);
    Ok(())
}
