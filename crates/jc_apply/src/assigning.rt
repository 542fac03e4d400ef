//! Assigning a value to a key, and adding identifiers to presence sets: steps of `apply_op`.

ghost use Rattle.std.specs.Prelude.{◌≡◌, ◌≢◌, List, [], OnOk, is_some};
ghost use Rattle.jc_rules.specs.declared.key.Key.{Key as AnyKey};
ghost use Rattle.jc_rules.specs.declared.key.Tagged.{Tagged as AnyTagged};
ghost use Rattle.jc_rules.specs.declared.key.Tagged.TheVariants.{RegT};
ghost use Rattle.jc_rules.specs.declared.operation.Mutation.{Mutation as AnyMutation};
ghost use Rattle.jc_rules.specs.declared.operation.Mutation.TheVariants.{Assign, Delete};
ghost use Rattle.jc_rules.specs.Order.{key_cmp};
ghost use Rattle.jc_rules.specs.Entries.{find};
ghost use Rattle.jc_rules.specs.Context.{Context, Values, IsPrimitive, key_of_tagged, presence, registers};
ghost use Rattle.jc_rules.specs.Derivation.{AddId, Child, Operate, Presence, ToContent, ToIds};
ghost use Rattle.jc_rules.specs.WellFormed.{IsChained};
ghost use Rattle.jc_rules.specs.Table.{Follows, moved};
ghost use Rattle.jc_rules.specs.Trace.{IsLonger};
ghost use Rattle.jc_rules.specs.Paths.{HasContext};
ghost use Rattle.jc_tree.specs.Tree.{NamesStay, or_no_entries};
ghost use Rattle.jc_tree.specs.CanGoBack.{TreeCanGoBack};
ghost use Rattle.jc_apply.specs.Fits.{empty_of};
ghost use Rattle.jc_apply.specs.AppliesAlong.{LeadsTo, LinksNone, AssignsEmpty, TellsAdded};

use crate::entering::enter_below;
use jc_clear::{clear_at, clear_elem_at};
use jc_rules::{Id, Key, Op, Rule, Tagged, Trace, Value};
use jc_tree::{KeyAt, Place, TreeStore};
use std::alloc::{AllocError, Global};

/// The rule by which a key's presence set is found, or found absent.
fn presence_rule(was: bool) -> Rule
    ensures { (c : Context) (k : AnyKey) → was ≡ is_some (presence k c)
        → Follows result (Presence c k) (ToIds (or_no_entries (presence k c))) [] }
{
    if was {
        Rule::Presence1
    } else {
        Rule::Presence2
    }
}

/// The rule by which a key's register is found, or a new one made.
fn register_rule(was: bool) -> Rule
    ensures { (c : Context) (k : AnyKey) → was ≡ is_some (find key_cmp k (registers c))
        → Follows result (Child c (RegT k)) (ToContent (Values (or_no_entries (find key_cmp k (registers c))))) [] }
{
    if was { Rule::ChildGet } else { Rule::ChildReg }
}

/// Adds the rules to the trace by which an operation's identifier was added to a presence set. `was` is
/// whether the set was there, and `None` for a deletion, which adds no identifier.
pub fn trace_added(was: Option<bool>, trace: &mut Trace) -> Result<(), AllocError>
    ensures ok { OnOk result (TellsAdded was trace.old trace.new) }
    ensures kept { IsLonger trace.old trace.new }
{
    let Some(was) = was else {
        return trace.push(Rule::AddId2);
    };
    let depth = trace.depth();
    trace.open(Rule::AddId1)?;
    trace.push(presence_rule(was))?;
    trace.close(depth);
    Ok(())
}

/// Adds an identifier to the presence set of a key in the context at the place, for an operation that
/// doesn't delete.
fn add_id<S: TreeStore>(
    store: &mut S,
    place: Place,
    key: &Key,
    id: Id,
    trace: &mut Trace,
) -> Result<(), AllocError>
    requires { (at : List AnyTagged) × S.names store.old place at }
    ensures ok { (at : List AnyTagged) → S.names store.old place at
        → OnOk result ((k : AnyTagged) → (m : AnyMutation) → key_of_tagged k ≡ key.now → m ≢ Delete
        → LeadsTo (λ c. AddId c k id m)
        at (S.tree store.old) (S.tree store.new) trace.old trace.new) }
    ensures links { (at : List AnyTagged) → S.names store.old place at
        → OnOk result (LinksNone at (S.tree store.old) (S.tree store.new)) }
    ensures names_stay { NamesStay (S.names store.old) (S.names store.new) }
    ensures kept { TreeCanGoBack (S.tree store.old) (S.tree store.new) trace.old trace.new }
{
    let was = store.add_presence_at(place, key, id)?;
    trace_added(Some(was), trace)
}

/// Assigns a primitive value to the register of a key.
fn assign_primitive<S: TreeStore>(
    alloc: Global,
    store: &mut S,
    key: KeyAt<'_>,
    op: &Op,
    value: &Value,
    trace: &mut Trace,
) -> Result<(), AllocError>
    requires named { (at : List AnyTagged) × S.names store.old key.place at }
    requires chained { IsChained (S.tree store.old).now }
    requires primitive { IsPrimitive value.now }
    ensures ok { (at : List AnyTagged) → S.names store.old key.entry.place at
        → OnOk result (LeadsTo (λ c. Operate c (moved op.now [] key.entry.key.now (Assign value.now)))
        at (S.tree store.old) (S.tree store.new) trace.old trace.new) }
    ensures links { (at : List AnyTagged) → S.names store.old key.entry.place at
        → OnOk result (LinksNone at (S.tree store.old) (S.tree store.new)) }
    ensures names_stay { NamesStay (S.names store.old) (S.names store.new) }
    ensures kept { TreeCanGoBack (S.tree store.old) (S.tree store.new) trace.old trace.new }
{
    let depth = trace.depth();
    trace.open(Rule::Assign)?;
    let register = Tagged::RegT(key.key.copy()?);
    clear_at(alloc, store, &op.deps, key.place, &register, trace)?;
    add_id(store, key.place, key.key, op.id, trace)?;
    let was = store.put_value_at(key.place, key.key, op.id, value.copy()?)?;
    trace.push(register_rule(was))?;
    trace.close(depth);
    Ok(())
}

/// The rule that assigns an empty map or an empty list under the tagged key.
fn empty_rule(key: &Tagged) -> Rule
    requires { HasContext key.now }
    ensures { AssignsEmpty result key.now }
{
    match key {
        Tagged::MapT(_) => Rule::EmptyMap,
        Tagged::ListT(_) => Rule::EmptyList,
        Tagged::RegT(_) => unreachable!(),
    }
}

/// Assigns an empty map or an empty list to a key, in the context at the place: what is under the key is
/// cleared, and the map or the list is made where there is none.
fn assign_empty<S: TreeStore>(
    alloc: Global,
    store: &mut S,
    place: Place,
    key: &Tagged,
    op: &Op,
    trace: &mut Trace,
) -> Result<(), AllocError>
    requires named { (at : List AnyTagged) × S.names store.old place at }
    requires chained { IsChained (S.tree store.old).now }
    requires context { HasContext key.now }
    ensures ok { (at : List AnyTagged) → S.names store.old place at → OnOk result (LeadsTo
        (λ c. Operate c (moved op.now [] (key_of_tagged key.now) (Assign (empty_of key.now))))
        at (S.tree store.old) (S.tree store.new) trace.old trace.new) }
    ensures links { (at : List AnyTagged) → S.names store.old place at
        → OnOk result (LinksNone at (S.tree store.old) (S.tree store.new)) }
    ensures names_stay { NamesStay (S.names store.old) (S.names store.new) }
    ensures kept { TreeCanGoBack (S.tree store.old) (S.tree store.new) trace.old trace.new }
{
    let depth = trace.depth();
    trace.open(empty_rule(key))?;
    clear_elem_at(alloc, store, &op.deps, place, key.key(), trace)?;
    add_id(store, place, key.key(), op.id, trace)?;
    enter_below(store, place, key, trace)?;
    trace.close(depth);
    Ok(())
}

/// Assigns a value to a key.
pub fn assign<S: TreeStore>(
    alloc: Global,
    store: &mut S,
    key: KeyAt<'_>,
    op: &Op,
    value: &Value,
    trace: &mut Trace,
) -> Result<(), AllocError>
    requires named { (at : List AnyTagged) × S.names store.old key.place at }
    requires chained { IsChained (S.tree store.old).now }
    ensures ok { (at : List AnyTagged) → S.names store.old key.entry.place at
        → OnOk result (LeadsTo (λ c. Operate c (moved op.now [] key.entry.key.now (Assign value.now)))
        at (S.tree store.old) (S.tree store.new) trace.old trace.new) }
    ensures links { (at : List AnyTagged) → S.names store.old key.entry.place at
        → OnOk result (LinksNone at (S.tree store.old) (S.tree store.new)) }
    ensures names_stay { NamesStay (S.names store.old) (S.names store.new) }
    ensures kept { TreeCanGoBack (S.tree store.old) (S.tree store.new) trace.old trace.new }
{
    match value {
        Value::EmptyMap => {
            let map = Tagged::MapT(key.key.copy()?);
            assign_empty(alloc, store, key.place, &map, op, trace)
        }
        Value::EmptyList => {
            let list = Tagged::ListT(key.key.copy()?);
            assign_empty(alloc, store, key.place, &list, op, trace)
        }
        _ => assign_primitive(alloc, store, key, op, value, trace),
    }
}
