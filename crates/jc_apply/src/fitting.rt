//! Whether an operation can be applied, found before it is: `apply_op` and the replica's checks use it.

ghost use Rattle.std.specs.Prelude.{◌≢◌, ◌↔◌, IsTrue, IsFalse, None, option_copied};
ghost use Rattle.jc_rules.specs.declared.refusal.Refusal.TheVariants.{NotInList};
ghost use Rattle.jc_rules.specs.Context.{next as next_of};
ghost use Rattle.jc_rules.specs.Derivation.{Operate};
ghost use Rattle.jc_rules.specs.Refused.{Cause, Refused, because};
ghost use Rattle.jc_rules.specs.WellFormed.{IsChained};
ghost use Rattle.jc_apply.specs.Fits.{Fits, EachOp, made_under};

use jc_rules::{Cursor, Key, Mutation, Tagged};
use jc_tree::{ANYWHERE, TreeStore};

/// Whether something follows the key in a new context under the tagged key: only the head of a new
/// list is linked.
fn is_new_head(parent: Option<&Tagged>, key: &Key) -> bool
    ensures { IsTrue result ↔ (next_of key.now (made_under (option_copied parent.entry)) ≢ None) }
{
    matches!((parent, key), (Some(Tagged::ListT(_)), Key::Head))
}

/// Whether an operation with this cursor and this mutation can be applied: maps and lists on its
/// path that aren't there yet would be made, and an insert's key has to be linked at the path's
/// end.
///
/// An operation that doesn't fit is refused with `NotInList`, so no derivation applies it (the law
/// `refused_has_none` of jc_rules). One that fits is refused for nothing, where the document's
/// lists are chained. It takes no memory.
pub fn fits<S: TreeStore>(store: &S, cursor: &Cursor, mutation: &Mutation) -> bool
    ensures fits { IsTrue result ↔ Fits (S.tree store.now).now cursor.now.path cursor.now.last mutation.now }
    ensures refused { IsFalse result
        → EachOp cursor.now mutation.now (λ o. Refused (Operate (S.tree store.now).now o) (because NotInList)) }
    ensures not_refused { IsTrue result → IsChained (S.tree store.now).now
        → EachOp cursor.now mutation.now (λ o. (why : Cause) → Refused (Operate (S.tree store.now).now o) why → ⊥) }
{
    let path = cursor.path.as_slice();
    let Mutation::Insert(_) = mutation else {
        return true;
    };
    let mut place = Some(store.root());
    for (depth, key) in path.iter().enumerate() {
        if let Some(parent) = place {
            place = store.below(parent, key);
        }
    }
    match place {
        Some(place) => {
            let step = store.step_by(place, &cursor.last, ANYWHERE);
            step.next.is_some()
        }
        None => is_new_head(path.last(), &cursor.last),
    }
}
