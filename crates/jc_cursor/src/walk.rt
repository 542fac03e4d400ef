//! The way down a path for the selectors, and whether a key is present. The trace is left at the depth of the
//! last rule's premises.

ghost use Rattle.std.specs.Prelude.{List, None, Some, IsTrue, IsFalse, IfOk, IfErr, IfSome, OnOk};
ghost use Rattle.std.specs.List.{AllByRecursion};
ghost use Rattle.jc_rules.specs.declared.key.Tagged.{Tagged as AnyTagged};
ghost use Rattle.jc_rules.specs.Context.{presence as presence_set};
ghost use Rattle.jc_rules.specs.Table.{IsEmptyIds};
ghost use Rattle.jc_tree.specs.Tree.{HasPlace, here};
ghost use Rattle.jc_rules.specs.Paths.{HasContext};
ghost use Rattle.jc_cursor.specs.WayDown.{IsGrown, LeadsDown, RefusesDown, RefusedOnWay};
ghost use Rattle.jc_cursor.specs.Evaluates.{eval_cause_of};

use crate::evaluating::EvalFault;
use jc_rules::{Rule, Tagged, Trace};
use jc_tree::{KeyAt, Place, TreeStore};

/// Goes down the path, by the rule for each key. Returns the store's name for the place at its end.
pub fn go_down<S: TreeStore>(
    store: &S,
    path: &[Tagged],
    rule: Rule,
    trace: &mut Trace,
) -> Result<Place, EvalFault>
    requires { AllByRecursion HasContext path.now }
    ensures place { OnOk result (HasPlace path.now (S.tree store.now)) }
    ensures leads { OnOk result (LeadsDown rule path.now (S.tree store.now).now trace.old trace.new) }
    ensures refuses { OnOk result (RefusesDown path.now (S.tree store.now).now) }
    ensures refused { IfErr result (λ f.
        IfSome (eval_cause_of f) (λ why. RefusedOnWay path.now (S.tree store.now).now why)) }
    ensures named { IfOk result (λ place. S.names store.now place path.now) }
    ensures grown { IsGrown trace.old trace.new }
{
    let mut place = store.root();
    for (depth, key) in path.iter().enumerate() {
        let Some(child) = store.below(place, key) else {
            return Err(EvalFault::NoSuchNode(key.copy()?));
        };
        place = child;
        trace.open(rule)?;
    }
    Ok(place)
}

/// Whether the key's presence set has an identifier.
pub fn is_present<S: TreeStore>(store: &S, key: KeyAt<'_>) -> bool
    requires { (at : List AnyTagged) × S.names store.now key.place at }
    ensures present { (at : List AnyTagged) → S.names store.now key.entry.place at → IsTrue result
        → IsEmptyIds (presence_set key.entry.key.now (here at (S.tree store.now))) → ⊥ }
    ensures absent { (at : List AnyTagged) → S.names store.now key.entry.place at → IsFalse result
        → IsEmptyIds (presence_set key.entry.key.now (here at (S.tree store.now))) }
{
    match store.presence_by(key.place, key.key, key.hint) {
        Some(ids) => !ids.is_empty(),
        None => false,
    }
}
