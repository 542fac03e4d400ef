//! Links the elements of lists in their order: inserts below the keys that they name, siblings by falling identifier.
//! `meaning` calls `link_all` after `building`.

ghost use Rattle.std.specs.Prelude.{◌≡◌, List, [], Some, IfOk, OnOk};
ghost use Rattle.jc_rules.specs.declared.id.Id.{Id as AnyId};
ghost use Rattle.jc_rules.specs.declared.key.Key.{Key as AnyKey};
ghost use Rattle.jc_rules.specs.declared.key.Key.TheVariants.{Head};
ghost use Rattle.jc_rules.specs.declared.key.Next.TheVariants.{Tail};
ghost use Rattle.jc_rules.specs.declared.key.Tagged.{Tagged as AnyTagged};
ghost use Rattle.jc_rules.specs.Ids.{AreRising, has_id};
ghost use Rattle.jc_rules.specs.Context.{next as next_of};
ghost use Rattle.jc_rules.specs.WellFormed.{AreDistinct, chain_of};
ghost use Rattle.jc_replica.specs.Operations.{identifiers};
ghost use Rattle.jc_tree.specs.Tree.{HasPlace, here};
ghost use Rattle.jc_meaning.specs.Seen.{seen, has_tag};
ghost use Rattle.jc_meaning.specs.Forest.{follow};
ghost use Rattle.jc_meaning.specs.Meaning.{names as names_at, hangs_at, goes};
ghost use Rattle.jc_meaning.specs.Growth.{LinksIds};
ghost use Rattle.jc_meaning.specs.Listing.{IsListing, LinksNew, IsSameButLinks, AreLinked};

use crate::touching::{is_insert, is_path};
use jc_rules::{Id, Key, Next, Op, Tagged, compare_keys, insert_id};
use jc_tree::TreeStore;
use std::alloc::{AllocError, Global};

/// Whether the operation inserts into the list at the place, after the key.
fn names(op: &Op, at: &[Tagged], key: &Key) -> bool
    ensures { result ≡ names_at at.now key.now op.now }
{
    if !is_insert(&op.mutation) {
        return false;
    }
    if !is_path(op.cursor.path.as_slice(), at) {
        return false;
    }
    compare_keys(&op.cursor.last, key).is_eq()
}

/// The identifiers of the inserts into the list at the place, after the key, in rising order.
fn after(alloc: Global, ops: &[Op], at: &[Tagged], key: &Key) -> Result<Vec<Id>, AllocError>
    requires { AreDistinct (identifiers ops.now) }
    ensures rises { IfOk result (λ ids. AreRising ids.items) }
    ensures ids { IfOk result (λ ids. (i : AnyId) → has_id i ids.items ≡ hangs_at ops.now at.now key.now i) }
{
    let mut ids = Vec::new(alloc);
    for op in ops {
        if names(op, at, key) {
            insert_id(&mut ids, op.id)?;
        }
    }
    Ok(ids)
}

/// The elements of the list at the place that are reached from its head, in their order.
fn listing(alloc: Global, ops: &[Op], at: &[Tagged]) -> Result<Vec<Id>, AllocError>
    requires { AreDistinct (identifiers ops.now) }
    ensures { IfOk result (λ ids. IsListing ops.now at.now ids.items) }
{
    let mut ids = Vec::new(alloc);
    let mut open = after(alloc, ops, at, &Key::Head)?;
    while let Some(id) = open.pop() {
        ids.push(id)?;
        let next = after(alloc, ops, at, &Key::Elem(id))?;
        open.extend_from_slice(next.as_slice())?;
    }
    Ok(ids)
}

/// Links the elements, in their order, in a new list.
fn link<S: TreeStore>(store: &mut S, at: &[Tagged], ids: &[Id]) -> Result<(), AllocError>
    requires there { HasPlace at.now (S.tree store.old) }
    requires new { (k : AnyKey) → next_of k (here at.now (S.tree store.old)) ≡ follow Head [] k }
    requires apart { AreDistinct (chain_of ids.now) }
    ensures { OnOk result (LinksIds at.now ids.now (S.tree store.old).now (S.tree store.new).now) }
{
    let mut last = Key::Head;
    for id in ids {
        store.set_next(at, &last, Next::Elem(*id))?;
        last = Key::Elem(*id);
        store.set_next(at, &last, Next::Tail)?;
    }
    Ok(())
}

/// Links the elements of the list at the place, if nothing is linked in it yet.
fn link_list<S: TreeStore>(
    alloc: Global,
    store: &mut S,
    ops: &[Op],
    at: &[Tagged],
) -> Result<(), AllocError>
    requires there { HasPlace at.now (S.tree store.old) }
    requires differ { AreDistinct (identifiers ops.now) }
    requires new { next_of Head (here at.now (S.tree store.old)) ≡ Some Tail
        → (k : AnyKey) → next_of k (here at.now (S.tree store.old)) ≡ follow Head [] k }
    ensures { OnOk result (LinksNew at.now ops.now (S.tree store.old).now (S.tree store.new).now) }
{
    if store.next(at, &Key::Head) != Some(Next::Tail) {
        return Ok(());
    }
    let ids = listing(alloc, ops, at)?;
    link(store, at, ids.as_slice())?;
    Ok(())
}

/// Links each list into which one of the operations inserts.
pub fn link_all<S: TreeStore>(alloc: Global, store: &mut S, ops: &[Op]) -> Result<(), AllocError>
    requires differ { AreDistinct (identifiers ops.now) }
    requires made { (P : List AnyTagged) → (u : AnyTagged)
        → has_tag u (seen P (S.tree store.old).now) ≡ goes ops.now P u }
    requires new { AreLinked [] ops.now (S.tree store.old).now }
    ensures same { OnOk result (IsSameButLinks (S.tree store.old).now (S.tree store.new).now) }
    ensures links { OnOk result (AreLinked ops.now ops.now (S.tree store.new).now) }
{
    for op in ops {
        if is_insert(&op.mutation) {
            link_list(alloc, store, ops, op.cursor.path.as_slice())?;
        }
    }
    Ok(())
}
