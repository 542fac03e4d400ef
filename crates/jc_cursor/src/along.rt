//! The walk along a list to an element by its index: over as many elements at once as the store tells of, else over
//! one. The trace is left at the depth of the last rule's premises.

ghost use Rattle.std.specs.Prelude.{◌≡◌, ◌≢◌, ◌<◌, ◌≤◌, ◌*◌, ◌/◌, ◌%◌, ◌^◌, ℕ, Some, [], List, IfOk, IfErr, IfSome, IfNone, OnOk};
ghost use Rattle.std.specs.Int.{bit_at};
ghost use Rattle.jc_rules.specs.declared.key.Key.TheVariants.{Head, Elem};
ghost use Rattle.jc_rules.specs.declared.id.Id.{Id as AnyId};
ghost use Rattle.jc_rules.specs.declared.key.Next.TheVariants.{Elem as To};
ghost use Rattle.jc_rules.specs.declared.key.Tagged.{Tagged as AnyTagged};
ghost use Rattle.jc_rules.specs.declared.refusal.Refusal.TheVariants as F;
ghost use Rattle.jc_rules.specs.Context.{next as next_of};
ghost use Rattle.jc_rules.specs.Derivation.{SelectIndex, ToCursor};
ghost use Rattle.jc_rules.specs.Derives.{Derives};
ghost use Rattle.jc_rules.specs.Refused.{Refused, because};
ghost use Rattle.jc_rules.specs.WellFormed.{IsChained};
ghost use Rattle.jc_rules.specs.Table.{cursor};
ghost use Rattle.jc_rules.specs.Trace.{at_depth};
ghost use Rattle.jc_tree.specs.Tree.{here};
ghost use Rattle.jc_tree.specs.Stretches.{LeadsOver};
ghost use Rattle.jc_cursor.specs.Along.{GoesOn, count_bits, gone_over, rule_of_bit};
ghost use Rattle.jc_cursor.specs.WayDown.{IsGrown};
ghost use Rattle.jc_cursor.specs.Evaluates.{eval_cause_of};

use crate::evaluating::EvalFault;
use jc_rules::{Id, Key, Next, Rule, Trace};
use jc_tree::{ANYWHERE, Hint, Place, Stretch, TreeStore};
use std::alloc::AllocError;

/// How far a walk has come: the key, where to look first for it, and how many present elements are left to
/// pass.
#[derive(Drop)]
struct Walk {
    key: Key,
    hint: Hint,
    left: usize,
}

/// The element that follows, if one does.
fn element_of(next: Option<Next>) -> Option<Id>
    ensures some { IfSome result (λ i. next ≡ Some (To i)) }
    ensures none { IfNone result ((i : AnyId) → next ≢ Some (To i)) }
{
    match next {
        Some(Next::Elem(id)) => Some(id),
        _ => None,
    }
}

/// The rule that goes over an element, by its bit.
fn rule_by(bit: u64) -> Rule
    ensures { result ≡ rule_of_bit bit }
{
    if bit == 0 { Rule::Idx4 } else { Rule::Idx3 }
}

/// How many bits from the lowest one on are as it is.
fn same_bits(bits: u64) -> u32
    ensures some { 0 < result }
    ensures word { result ≤ 64 }
    ensures same { (i : ℕ) → i < result → bit_at bits i ≡ bits % 2 }
{
    if bits % 2 == 0 {
        bits.trailing_zeros()
    } else {
        bits.trailing_ones()
    }
}

/// The bits behind the lowest ones, so many.
fn bits_behind(bits: u64, count: usize) -> u64
    requires { count ≤ 64 }
    ensures { result ≡ bits / 2 ^ count }
{
    if count == 64 { 0 } else { bits >> count }
}

/// How many of so many elements are present, by the bit that they all have.
fn present_by(bit: u64, count: usize) -> usize
    requires { bit < 2 }
    ensures present { result ≡ bit * count }
    ensures most { result ≤ count }
{
    if bit == 0 { 0 } else { count }
}

/// Appends the rules that go over so many elements, by their bits. Returns how many are present.
fn go_over(count: usize, bits: u64, trace: &mut Trace) -> Result<usize, AllocError>
    ensures rows { OnOk result (trace.new ≡ gone_over count bits trace.old) }
    ensures present { IfOk result (λ n. n ≡ count_bits count bits) }
    ensures most { IfOk result (λ n. n ≤ count) }
    ensures grown { IsGrown trace.old trace.new }
{
    let mut left = count;
    let mut rest = bits;
    let mut present = 0;
    while left > 0 {
        let span = left.min(same_bits(rest) as usize);
        trace.open_times(rule_by(rest % 2), span as u32)?;
        present += present_by(rest % 2, span);
        rest = bits_behind(rest, span);
        left -= span;
    }
    Ok(present)
}

/// What lies behind the walk's key in the list at the place, as far as the store tells it at once, else the next element
/// alone.
fn stretch_behind<S: TreeStore>(store: &S, place: Place, walk: &Walk) -> Option<Stretch>
    requires named { (at : List AnyTagged) × S.names store.now place at }
    requires left { 0 < walk.now.left }
    ensures over { (at : List AnyTagged) → S.names store.now place at → IfSome result (λ s.
        LeadsOver (here at (S.tree store.now)) walk.now.key s.count s.bits s.least (Elem s.last)) }
    ensures some { IfSome result (λ s. 0 < s.count) }
    ensures most { IfSome result (λ s. s.count ≤ walk.now.left) }
    ensures none { (at : List AnyTagged) → S.names store.now place at
        → IfNone result ((i : AnyId) → next_of walk.now.key (here at (S.tree store.now)) ≢ Some (To i)) }
{
    if let Some(stretch) = store.stretch_by(place, &walk.key, walk.hint, walk.left) {
        return Some(stretch);
    }
    let step = store.step_by(place, &walk.key, walk.hint);
    let id = element_of(step.next)?;
    let ahead = store.step_by(place, &Key::Elem(id), step.hint);
    Some(Stretch {
        count: 1,
        bits: u64::from(ahead.present),
        least: id,
        last: id,
        hint: step.hint,
    })
}

/// Goes over the next elements of the list at the place, one or more.
fn go_on<S: TreeStore>(
    store: &S,
    place: Place,
    walk: &Walk,
    trace: &mut Trace,
) -> Result<Walk, EvalFault>
    requires named { (at : List AnyTagged) × S.names store.now place at }
    requires some { 0 < walk.now.left }
    ensures ok { (at : List AnyTagged) → S.names store.now place at → IfOk result (λ w.
        GoesOn (here at (S.tree store.now)) walk.now.key walk.now.left w.key w.left trace.old trace.new) }
    ensures refused { (at : List AnyTagged) → S.names store.now place at
        → IfErr result (λ f. IfSome (eval_cause_of f) (λ why.
        (why ≡ because F.PastEnd)
        × ((i : AnyId) → next_of walk.now.key (here at (S.tree store.now)) ≢ Some (To i)))) }
    ensures grown { IsGrown trace.old trace.new }
{
    let Some(stretch) = stretch_behind(store, place, walk) else {
        return Err(EvalFault::PastEnd);
    };
    let present = go_over(stretch.count, stretch.bits, trace)?;
    Ok(Walk {
        key: Key::Elem(stretch.last),
        hint: stretch.hint,
        left: walk.left - present,
    })
}

/// The key of the list at the place that is `index` present elements behind its head.
pub fn element_at<S: TreeStore>(
    store: &S,
    place: Place,
    index: u32,
    trace: &mut Trace,
) -> Result<Key, EvalFault>
    requires named { (at : List AnyTagged) × S.names store.now place at }
    requires chained { IsChained (S.tree store.now).now }
    ensures ok { (at : List AnyTagged) → S.names store.now place at → IfOk result (λ k.
        Derives (SelectIndex (here at (S.tree store.now)) (cursor [] Head) index) (ToCursor (cursor [] k))
        trace.old (at_depth trace.old.depth trace.new)) }
    ensures refused { (at : List AnyTagged) → S.names store.now place at → IfErr result (λ f.
        IfSome (eval_cause_of f) (λ why.
        Refused (SelectIndex (here at (S.tree store.now)) (cursor [] Head) index) why)) }
    ensures grown { IsGrown trace.old trace.new }
{
    let mut walk = Walk {
        key: Key::Head,
        hint: ANYWHERE,
        left: index as usize,
    };
    while walk.left > 0 {
        walk = go_on(store, place, &walk, trace)?;
    }
    trace.push(Rule::Idx5)?;
    let Walk { key, .. } = walk;
    Ok(key)
}
