//! Clearing a register, and reading a presence set: steps of clearing.

ghost use Rattle.std.specs.Prelude.{◌≡◌, ◌↔◌, List, Some, IsTrue, IfOk, OnOk, OnErr, option_copied};
ghost use Rattle.jc_rules.specs.declared.key.Tagged.{Tagged as AnyTagged};
ghost use Rattle.jc_rules.specs.declared.key.Tagged.TheVariants.{RegT};
ghost use Rattle.jc_rules.specs.Ids.{AreRising};
ghost use Rattle.jc_rules.specs.Context.{with_presence};
ghost use Rattle.jc_rules.specs.ContextsAt.{with_node_at};
ghost use Rattle.jc_rules.specs.History.{IsLater};
ghost use Rattle.jc_rules.specs.Derivation.{Presence, Clear, ToIds};
ghost use Rattle.jc_rules.specs.Derives.{Derives};
ghost use Rattle.jc_rules.specs.Trace.{IsLonger};
ghost use Rattle.jc_rules.specs.Table.{kept};
ghost use Rattle.jc_tree.specs.CanGoBack.{TreeCanGoBack};
ghost use Rattle.jc_tree.specs.Tree.{NamesStay, here};
ghost use Rattle.jc_clear.specs.Clears.{Clears};

use crate::sets::ids_of;
use jc_rules::{Id, IdSet, Rule, Trace, Value};
use jc_tree::{KeyAt, TreeStore};
use std::alloc::{AllocError, Global};

/// Returns the presence set of the key, rising; the empty set where there is none.
///
/// The rule is added to the trace at its depth. Only memory can be refused; the trace is then as it
/// was.
pub(crate) fn presence_of<S: TreeStore>(
    alloc: Global,
    store: &S,
    key: KeyAt<'_>,
    trace: &mut Trace,
) -> Result<Vec<Id>, AllocError>
    requires { (at : List AnyTagged) × S.names store.now key.place at }
    ensures ok { (at : List AnyTagged) → S.names store.now key.entry.place at
        → IfOk result (λ ids. Derives (Presence (here at (S.tree store.now)) key.entry.key.now)
        (ToIds ids.items) trace.old trace.new) }
    ensures rises { IfOk result (λ ids. AreRising ids.items) }
    ensures err { OnErr result (trace.new ≡ trace.old) }
    ensures kept { IsLonger trace.old trace.new }
{
    match store.presence_by(key.place, key.key, key.hint) {
        Some(ids) => {
            let ids = ids.to_vec(alloc)?;
            trace.push(Rule::Presence1)?;
            Ok(ids)
        }
        None => {
            trace.push(Rule::Presence2)?;
            Ok(Vec::new(alloc))
        }
    }
}

/// Whether there is a set, and it has just these identifiers.
fn is_set(set: Option<&[Id]>, ids: &[Id]) -> bool
    ensures { IsTrue result ↔ option_copied set.entry ≡ Some ids.now }
{
    match set {
        Some(set) => set == ids,
        None => false,
    }
}

/// Sets the presence set of the key, unless it is that already.
pub(crate) fn put_presence<S: TreeStore>(
    store: &mut S,
    key: KeyAt<'_>,
    ids: &[Id],
) -> Result<(), AllocError>
    requires named { (at : List AnyTagged) × S.names store.old key.place at }
    requires rising { AreRising ids.now }
    ensures ok { (at : List AnyTagged) → S.names store.old key.entry.place at → OnOk result ((S.tree store.new).now
        ≡ with_node_at at (with_presence key.entry.key.now ids.now (here at (S.tree store.old)))
        (S.tree store.old).now) }
    ensures names_stay { NamesStay (S.names store.old) (S.names store.new) }
    ensures kept { IsLater (S.tree store.old) (S.tree store.new) }
{
    if is_set(store.presence_by(key.place, key.key, key.hint), ids) {
        return Ok(());
    }
    store.set_presence_at(key.place, key.key, ids)
}

/// The pairs whose identifier isn't in the set.
fn keep(alloc: Global, pairs: &[(Id, Value)], deps: &IdSet) -> Result<Vec<(Id, Value)>, AllocError>
    ensures { IfOk result (λ v. v.items ≡ kept deps.now pairs.now) }
{
    let mut left = Vec::new(alloc);
    for (id, value) in pairs {
        if !deps.contains(*id) {
            left.push((*id, value.copy()?))?;
        }
    }
    Ok(left)
}

/// Whether these are the same pairs.
fn is_same(pairs: &[(Id, Value)], others: &[(Id, Value)]) -> bool
    ensures { IsTrue result ↔ pairs.now ≡ others.now }
{
    pairs == others
}

/// Clears a register: only the pairs stay whose operation isn't depended on. It is set only if one goes.
pub fn clear_register<S: TreeStore>(
    alloc: Global,
    store: &mut S,
    deps: &IdSet,
    key: KeyAt<'_>,
    trace: &mut Trace,
) -> Result<Vec<Id>, AllocError>
    requires { (at : List AnyTagged) × S.names store.old key.place at }
    ensures ok { (at : List AnyTagged) → S.names store.old key.entry.place at
        → IfOk result (λ ids. Clears (λ c. Clear c deps.now (RegT key.entry.key.now))
        at (S.tree store.old) (S.tree store.new) ids.items trace.old trace.new) }
    ensures names_stay { NamesStay (S.names store.old) (S.names store.new) }
    ensures kept { TreeCanGoBack (S.tree store.old) (S.tree store.new) trace.old trace.new }
{
    match store.register_by(key.place, key.key, key.hint) {
        None => {
            trace.push(Rule::ClearNone)?;
            Ok(Vec::new(alloc))
        }
        Some(pairs) => {
            let left = keep(alloc, pairs, deps)?;
            let ids = ids_of(alloc, left.as_slice())?;
            trace.push(Rule::ClearReg)?;
            if is_same(pairs, left.as_slice()) {
                return Ok(ids);
            }
            store.set_register_at(key.place, key.key, left)?;
            Ok(ids)
        }
    }
}
