//! The selectors of expressions: what each selects from the cursor before it. The trace is left at the
//! depth of the last rule's premises.

ghost use Rattle.std.specs.Prelude.{◌≡◌, ◌≢◌, ◌↔◌, ◌<◌, ◌≤◌, [], ◌∷◌, ◌++◌, List, Some, IsTrue, IfOk, IfErr, IfSome, OnOk, length, filter_map};
ghost use Rattle.std.specs.List.{AllByRecursion};
ghost use Rattle.jc_rules.specs.declared.key.Key.TheVariants.{Head, Name as ToName};
ghost use Rattle.jc_rules.specs.declared.key.Tagged.{Tagged as AnyTagged};
ghost use Rattle.jc_rules.specs.declared.limits.TheConstants.{MAX_PATH};
ghost use Rattle.jc_rules.specs.declared.refusal.Refusal.TheVariants as F;
ghost use Rattle.jc_rules.specs.Context.{Context as AnyContext, presence as presence_set};
ghost use Rattle.jc_rules.specs.Derivation.{SelectIndex, SelectKeys, SelectValues, ToCursor, ToNames, ToPairs};
ghost use Rattle.jc_rules.specs.Derives.{Derives};
ghost use Rattle.jc_rules.specs.Refused.{Refused, because};
ghost use Rattle.jc_rules.specs.Syntax.{Expr as AnyExpr, GetKey, Index};
ghost use Rattle.jc_rules.specs.WellFormed.{IsChained};
ghost use Rattle.jc_rules.specs.Table.{cursor as cursor_at, name_in_presence, names_in};
ghost use Rattle.jc_rules.specs.Trace.{Rows, at_depth};
ghost use Rattle.jc_syntax.specs.Trees.{expr_of};
ghost use Rattle.jc_tree.specs.Tree.{here};
ghost use Rattle.jc_tree.specs.Walks.{entry_of};
ghost use Rattle.jc_rules.specs.Paths.{HasContext};
ghost use Rattle.jc_cursor.specs.Bounds.{bound_of};
ghost use Rattle.jc_cursor.specs.Evaluates.{Selects, RefusedAfter, IsSelection, eval_cause_of};
ghost use Rattle.jc_cursor.specs.WayDown.{IsGrown};

use crate::along::element_at;
use crate::bound::Bound;
use crate::evaluating::EvalFault;
use crate::walk::{go_down, is_present};
use jc_rules::limits::MAX_PATH;
use jc_rules::{Cursor, Key, Names, Pairs, Path, Rule, Tagged, Text, Trace};
use jc_syntax::Expr;
use jc_tree::{ANYWHERE, KeyAt, Place, TreeStore};
use std::alloc::{AllocError, Global};

/// The path with one key more.
fn path_below(path: Path, key: Tagged) -> Result<Path, EvalFault>
    requires { HasContext key }
    ensures ok { IfOk result (λ longer. longer ≡ path ++ key ∷ []) }
    ensures short { OnOk result (length path < MAX_PATH) }
    ensures refused { IfErr result (λ f.
        IfSome (eval_cause_of f) (λ why. (why ≡ because F.TooDeep) × (MAX_PATH ≤ length path))) }
{
    let mut longer = path;
    if longer.as_slice().len() >= MAX_PATH {
        return Err(EvalFault::TooDeep);
    }
    longer.push(key)?;
    Ok(longer)
}

fn is_head(key: &Key) -> bool
    ensures { IsTrue result ↔ (key.now ≡ Head) }
{
    matches!(key, Key::Head)
}

/// The name as a key in the map under another key.
fn name_below(last: &Key, name: &Text) -> Result<Key, EvalFault>
    ensures ok { IfOk result (λ key. key ≡ ToName name.now) }
    ensures no_head { OnOk result (last.now ≢ Head) }
    ensures refused { IfErr result (λ f.
        IfSome (eval_cause_of f) (λ why. (why ≡ because F.GetOnHead) × (last.now ≡ Head))) }
{
    if is_head(last) {
        return Err(EvalFault::GetOnHead);
    }
    Ok(Key::Name(name.copy()?))
}

/// The cursor of a name in the map at the cursor.
fn get_in(cursor: Cursor, name: &Text) -> Result<Bound, EvalFault>
    ensures ok { IfOk result (λ b.
        (from : AnyExpr) (c : AnyContext) (u : Rows) → Selects (GetKey from name.now) c cursor (bound_of b) u u) }
    ensures refused { IfErr result (λ f.
        IfSome (eval_cause_of f) (λ why.
        (from : AnyExpr) (c : AnyContext) → RefusedAfter (GetKey from name.now) c cursor why)) }
{
    let last = name_below(&cursor.last, name)?;
    let path = path_below(cursor.path, Tagged::MapT(cursor.last))?;
    Ok(Bound::Cursor(Cursor { path, last }))
}

/// The key of an element in the list below the path.
fn element_below<S: TreeStore>(
    store: &S,
    path: &[Tagged],
    index: u32,
    trace: &mut Trace,
) -> Result<Key, EvalFault>
    requires chained { IsChained (S.tree store.now).now }
    requires fit { AllByRecursion HasContext path.now }
    ensures ok { IfOk result (λ k.
        Derives (SelectIndex (S.tree store.now).now (cursor_at path.now Head) index)
        (ToCursor (cursor_at path.now k)) trace.old (at_depth trace.old.depth trace.new)) }
    ensures refused { IfErr result (λ f.
        IfSome (eval_cause_of f) (λ why.
        Refused (SelectIndex (S.tree store.now).now (cursor_at path.now Head) index) why)) }
    ensures grown { IsGrown trace.old trace.new }
{
    let place = go_down(store, path, Rule::Idx2, trace)?;
    element_at(store, place, index, trace)
}

/// The cursor of an element in the list at the cursor.
fn index_in<S: TreeStore>(
    store: &S,
    cursor: Cursor,
    index: u32,
    trace: &mut Trace,
) -> Result<Bound, EvalFault>
    requires { IsChained (S.tree store.now).now }
    ensures ok { IfOk result (λ b.
        (from : AnyExpr)
        → Selects (Index from index) (S.tree store.now).now cursor (bound_of b) trace.old trace.new) }
    ensures refused { IfErr result (λ f.
        IfSome (eval_cause_of f) (λ why.
        (from : AnyExpr) → RefusedAfter (Index from index) (S.tree store.now).now cursor why)) }
    ensures grown { IsGrown trace.old trace.new }
{
    let path = path_below(cursor.path, Tagged::ListT(cursor.last))?;
    let last = element_below(store, path.as_slice(), index, trace)?;
    Ok(Bound::Cursor(Cursor { path, last }))
}

/// Appends the key's name, if it is a name and its presence set has an identifier.
fn push_name<S: TreeStore>(
    store: &S,
    key: KeyAt<'_>,
    names: &mut Vec<Text>,
) -> Result<(), AllocError>
    requires { (at : List AnyTagged) × S.names store.now key.place at }
    ensures { (at : List AnyTagged) → S.names store.now key.entry.place at
        → OnOk result (names.new.items ≡ names.old.items ++ filter_map name_in_presence
        (entry_of key.entry.key.now (presence_set key.entry.key.now (here at (S.tree store.now))))) }
{
    if let Key::Name(name) = key.key
        && is_present(store, key)
    {
        names.push(name.copy()?)?;
    }
    Ok(())
}

/// The names in the map at the place whose presence sets have an identifier.
fn names_at<S: TreeStore>(alloc: Global, store: &S, place: Place) -> Result<Names, AllocError>
    requires { (at : List AnyTagged) × S.names store.now place at }
    ensures { (at : List AnyTagged) → S.names store.now place at
        → IfOk result (λ names. names ≡ names_in (here at (S.tree store.now))) }
{
    // Each name has such a set, so the list doesn't grow.
    let mut names = Vec::with_capacity(alloc, store.count_present_at(place))?;
    let keys = store.keys_at(alloc, place)?;
    for lent in keys.as_slice() {
        let key = KeyAt {
            place,
            key: lent.0,
            hint: lent.1,
        };
        push_name(store, key, &mut names)?;
    }
    Ok(Names::new(names))
}

/// The names in the map at the cursor.
fn names_below<S: TreeStore>(
    alloc: Global,
    store: &S,
    cursor: &Cursor,
    trace: &mut Trace,
) -> Result<Names, EvalFault>
    ensures ok { IfOk result (λ names.
        Derives (SelectKeys (S.tree store.now).now cursor.now) (ToNames names) trace.old
        (at_depth trace.old.depth trace.new)) }
    ensures refused { IfErr result (λ f.
        IfSome (eval_cause_of f) (λ why. Refused (SelectKeys (S.tree store.now).now cursor.now) why)) }
    ensures grown { IsGrown trace.old trace.new }
{
    let at = cursor.path.as_slice();
    let place = go_down(store, at, Rule::Keys3, trace)?;
    let Some(map) = store.map_by(place, &cursor.last, ANYWHERE) else {
        return Err(EvalFault::NoMap);
    };
    trace.push(Rule::Keys2)?;
    Ok(names_at(alloc, store, map)?)
}

/// The values of the register at the cursor.
fn values_below<S: TreeStore>(
    alloc: Global,
    store: &S,
    cursor: &Cursor,
    trace: &mut Trace,
) -> Result<Pairs, EvalFault>
    ensures ok { IfOk result (λ pairs.
        Derives (SelectValues (S.tree store.now).now cursor.now) (ToPairs pairs) trace.old
        (at_depth trace.old.depth trace.new)) }
    ensures refused { IfErr result (λ f.
        IfSome (eval_cause_of f) (λ why. Refused (SelectValues (S.tree store.now).now cursor.now) why)) }
    ensures grown { IsGrown trace.old trace.new }
{
    let at = cursor.path.as_slice();
    let place = go_down(store, at, Rule::Val3, trace)?;
    let Some(pairs) = store.register_by(place, &cursor.last, ANYWHERE) else {
        return Err(EvalFault::NoRegister);
    };
    trace.push(Rule::Val2)?;
    Ok(Pairs::from_slice(alloc, pairs)?)
}

/// What the expression's last selector selects from the cursor before it.
pub fn select<S: TreeStore>(
    alloc: Global,
    store: &S,
    cursor: Cursor,
    expr: &Expr,
    trace: &mut Trace,
) -> Result<Bound, EvalFault>
    requires chained { IsChained (S.tree store.now).now }
    requires selection { IsSelection (expr_of expr.now) }
    ensures ok { IfOk result (λ b.
        Selects (expr_of expr.now) (S.tree store.now).now cursor (bound_of b) trace.old trace.new) }
    ensures refused { IfErr result (λ f.
        IfSome (eval_cause_of f) (λ why. RefusedAfter (expr_of expr.now) (S.tree store.now).now cursor why)) }
    ensures grown { IsGrown trace.old trace.new }
{
    match expr {
        Expr::Get(_, name) => get_in(cursor, name),
        Expr::Idx(_, index) => index_in(store, cursor, *index, trace),
        Expr::Keys(_) => Ok(Bound::Keys(names_below(alloc, store, &cursor, trace)?)),
        Expr::Values(_) => Ok(Bound::Values(values_below(alloc, store, &cursor, trace)?)),
        Expr::Doc | Expr::Var(_) => unreachable!(),
    }
}
