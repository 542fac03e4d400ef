//! Entering the child under a tagged key, on the way down an operation's path.

ghost use Rattle.std.specs.Prelude.{◌≡◌, List, [], ◌∷◌, ◌++◌, None, IfOk, OnOk};
ghost use Rattle.jc_rules.specs.declared.key.Tagged.{Tagged as AnyTagged};
ghost use Rattle.jc_rules.specs.Context.{Context, content, new_content};
ghost use Rattle.jc_rules.specs.Derivation.{Child, ToContent};
ghost use Rattle.jc_rules.specs.Table.{Follows};
ghost use Rattle.jc_rules.specs.Paths.{HasContext};
ghost use Rattle.jc_tree.specs.Tree.{NamesStay};
ghost use Rattle.jc_tree.specs.CanGoBack.{TreeCanGoBack};
ghost use Rattle.jc_apply.specs.AppliesAlong.{Enters, LinksNone};

use jc_rules::{Rule, Tagged, Trace};
use jc_tree::{Place, TreeStore};
use std::alloc::AllocError;

/// The rule that makes what is under a tagged key.
fn child_rule(key: &Tagged) -> Rule
    ensures { (c : Context) → content key.now c ≡ None
        → Follows result (Child c key.now) (ToContent (new_content key.now)) [] }
{
    match key {
        Tagged::MapT(_) => Rule::ChildMap,
        Tagged::ListT(_) => Rule::ChildList,
        Tagged::RegT(_) => Rule::ChildReg,
    }
}

/// Makes the context under the tagged key in the context at the place, if it isn't there already.
/// Returns its place.
pub fn enter_below<S: TreeStore>(
    store: &mut S,
    place: Place,
    key: &Tagged,
    trace: &mut Trace,
) -> Result<Place, AllocError>
    requires named { (at : List AnyTagged) × S.names store.old place at }
    requires context { HasContext key.now }
    ensures ok { (at : List AnyTagged) → S.names store.old place at
        → OnOk result (Enters key.now at (S.tree store.old) (S.tree store.new) trace.old trace.new) }
    ensures named { (at : List AnyTagged) → S.names store.old place at
        → IfOk result (λ child. S.names store.new child (at ++ key.now ∷ [])) }
    ensures names_stay { NamesStay (S.names store.old) (S.names store.new) }
    ensures links { (at : List AnyTagged) → S.names store.old place at
        → OnOk result (LinksNone at (S.tree store.old) (S.tree store.new)) }
    ensures kept { TreeCanGoBack (S.tree store.old) (S.tree store.new) trace.old trace.new }
{
    if let Some(child) = store.below(place, key) {
        trace.push(Rule::ChildGet)?;
        return Ok(child);
    }
    trace.push(child_rule(key))?;
    store.make_child_at(place, key)?;
    match store.below(place, key) {
        Some(child) => Ok(child),
        None => unreachable!(),
    }
}
