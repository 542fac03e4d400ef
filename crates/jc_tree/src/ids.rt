//! Presence sets that are changed in place, for the nodes of both stores.

ghost use Rattle.std.specs.Prelude.{◌≡◌, [], ◌∷◌, true, not, IfOk, OnOk, OnErr};
ghost use Rattle.std.specs.List.{AllByRecursion};
ghost use Rattle.std.specs.declared.cmp.Ordering.TheVariants.{Less, Equal, Greater};
ghost use Rattle.jc_rules.specs.Ids.{AreRising, has_id, with_id};
ghost use Rattle.jc_rules.specs.Order.{id_cmp, key_cmp};
ghost use Rattle.jc_rules.specs.Entries.{find, put};
ghost use Rattle.jc_tree.specs.Tree.{or_no_entries, has_ids, count_present};
ghost use Rattle.jc_tree.specs.Sorted.{AreSorted};
ghost use Rattle.jc_tree.specs.Undo.{taken_out, out_of_set};

use crate::entries::{place_of, put_value};
use jc_rules::{Id, Key, compare_ids, insert_id};
use std::alloc::{AllocError, Global};
use std::cmp::Ordering;
use std::marker::Model;

/// The identifiers of a presence set, rising.
#[derive(Drop)]
pub struct Ids {
    ids: Vec<Id>,
}

impl Model for Ids {
    ghost use Rattle.std.specs.Prelude.{List};
    ghost use Rattle.jc_rules.specs.declared.id.Id.{Id};
    ghost use Rattle.jc_rules.specs.Ids.{AreRising};

    ghost Value = { List Id };

    ghost view = { λ a. a.ids.items };

    ghost invariant = { λ a. AreRising a.ids.items };
}

impl Ids {
    pub fn new(ids: Vec<Id>) -> Self
        requires { AreRising ids.items }
        ensures { result ≡ ids.items }
    {
        Ids { ids }
    }

    /// The set of one identifier.
    pub fn single(id: Id, alloc: Global) -> Result<Self, AllocError>
        ensures { IfOk result (λ ids. ids ≡ id ∷ []) }
    {
        let mut ids = Vec::with_capacity(alloc, 1)?;
        ids.push(id)?;
        Ok(Ids { ids })
    }

    pub fn as_slice(&self) -> &[Id]
        ensures { result.now ≡ self.now }
    {
        self.ids.as_slice()
    }

    /// Whether the set has no identifier.
    pub fn is_empty(&self) -> bool
        ensures { result ≡ not (has_ids self.now) }
    {
        self.ids.is_empty()
    }

    /// How the identifier compares with the last one of the set: it is greater where there is none.
    fn against_last(&self, id: Id) -> Ordering
        ensures above { result ≡ Greater → AllByRecursion (λ j. id_cmp j id ≡ Less) self.now }
        ensures there { result ≡ Equal → has_id id self.now ≡ true }
    {
        match self.ids.last() {
            Some(last) => compare_ids(id, *last),
            None => Ordering::Greater,
        }
    }

    /// Whether the identifier is in the set.
    pub fn contains(&self, id: Id) -> bool
        ensures { result ≡ has_id id self.now }
    {
        match self.against_last(id) {
            Ordering::Greater => false,
            Ordering::Equal => true,
            Ordering::Less => self.ids.binary_search(&id).is_ok(),
        }
    }

    /// Adds the identifier, if it isn't there already. After a refusal the set is as it was.
    pub fn insert(&mut self, id: Id) -> Result<(), AllocError>
        ensures ok { OnOk result (self.new ≡ with_id id self.old) }
        ensures err { OnErr result (self.new ≡ self.old) }
    {
        match self.against_last(id) {
            Ordering::Greater => {
                self.ids.push(id)?;
                Ok(())
            }
            Ordering::Equal => Ok(()),
            Ordering::Less => insert_id(&mut self.ids, id),
        }
    }

    /// Takes the identifier out, where it is there. It takes no memory.
    pub fn take_out(&mut self, id: Id)
        ensures { self.new ≡ taken_out id self.old }
    {
        if let Ok(place) = self.ids.binary_search(&id) {
            self.ids.remove(place);
        }
    }
}

/// How many of the keys have a set with an identifier.
pub fn count_present(sets: &[(Key, Ids)]) -> usize
    ensures { result ≡ count_present sets.now }
{
    let mut count = 0;
    for (_, ids) in sets {
        if !ids.is_empty() {
            count += 1;
        }
    }
    count
}

/// Adds the identifier to the key's set, a new one where there is none. After a refusal the sets are
/// as they were.
pub fn add_to(sets: &mut Vec<(Key, Ids)>, key: Key, id: Id, alloc: Global) -> Result<(), AllocError>
    requires { AreSorted sets.old.items }
    ensures ok { OnOk result (sets.new.items
        ≡ put key_cmp key (with_id id (or_no_entries (find key_cmp key sets.old.items))) sets.old.items) }
    ensures err { OnErr result (sets.new.items ≡ sets.old.items) }
    ensures sorted { AreSorted sets.new.items }
{
    match place_of(sets.as_slice(), &key) {
        Ok(i) => sets[i].1.insert(id),
        Err(_) => {
            put_value(sets, key, Ids::single(id, alloc)?)?;
            Ok(())
        }
    }
}

/// Takes the identifier out of the key's set, where there is one. It takes no memory.
pub fn take_from(sets: &mut Vec<(Key, Ids)>, key: &Key, id: Id)
    requires { AreSorted sets.old.items }
    ensures ok { sets.new.items ≡ out_of_set key.now id (find key_cmp key.now sets.old.items) sets.old.items }
    ensures sorted { AreSorted sets.new.items }
{
    if let Ok(i) = place_of(sets.as_slice(), key) {
        sets[i].1.take_out(id);
    }
}
