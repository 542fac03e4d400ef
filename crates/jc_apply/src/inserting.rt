//! Inserting an element into a list: a step of `apply_op`.

ghost use Rattle.std.specs.Prelude.{◌≡◌, ◌≢◌, List, [], None, OnOk};
ghost use Rattle.jc_rules.specs.declared.key.Tagged.{Tagged as AnyTagged};
ghost use Rattle.jc_rules.specs.declared.operation.Mutation.TheVariants.{Insert};
ghost use Rattle.jc_rules.specs.Context.{next as next_of};
ghost use Rattle.jc_rules.specs.Derivation.{Operate};
ghost use Rattle.jc_rules.specs.WellFormed.{IsChained};
ghost use Rattle.jc_rules.specs.Table.{moved};
ghost use Rattle.jc_tree.specs.Tree.{NamesStay, here};
ghost use Rattle.jc_tree.specs.CanGoBack.{TreeCanGoBack};
ghost use Rattle.jc_apply.specs.Fits.{IsUnlinked};
ghost use Rattle.jc_apply.specs.AppliesAlong.{LeadsTo, LinksOnly};

use crate::assigning::assign;
use crate::passing::pass;
use jc_rules::{Key, Next, Op, Rule, Trace, Value};
use jc_tree::{ANYWHERE, KeyAt, Place, TreeStore};
use std::alloc::{AllocError, Global};

/// Inserts the value into the list at the place, behind the operation's last key and behind the elements
/// there whose identifier is greater than the operation's.
pub fn insert<S: TreeStore>(
    alloc: Global,
    store: &mut S,
    place: Place,
    op: &Op,
    value: &Value,
    trace: &mut Trace,
) -> Result<(), AllocError>
    requires chained { IsChained (S.tree store.old).now }
    requires fresh { IsUnlinked op.now.id (S.tree store.old).now }
    requires inserts { op.now.mutation ≡ Insert value.now }
    requires linked { (at : List AnyTagged) × S.names store.old place at
        × (next_of op.now.cursor.last (here at (S.tree store.old)) ≢ None) }
    ensures ok { (at : List AnyTagged) → S.names store.old place at
        → OnOk result (LeadsTo (λ c. Operate c (moved op.now [] op.now.cursor.last op.now.mutation))
        at (S.tree store.old) (S.tree store.new) trace.old trace.new) }
    ensures links { OnOk result (LinksOnly op.now.id (S.tree store.old) (S.tree store.new)) }
    ensures names_stay { NamesStay (S.names store.old) (S.names store.new) }
    ensures kept { TreeCanGoBack (S.tree store.old) (S.tree store.new) trace.old trace.new }
{
    let depth = trace.depth();
    let (key, next) = pass(store, place, op, trace)?;
    trace.open(Rule::Insert1)?;
    let element = Key::Elem(op.id);
    let at = KeyAt {
        place,
        key: &element,
        hint: ANYWHERE,
    };
    assign(alloc, store, at, op, value, trace)?;
    store.set_next_at(place, &key, Next::Elem(op.id))?;
    store.set_next_at(place, &element, next)?;
    trace.close(depth);
    Ok(())
}
