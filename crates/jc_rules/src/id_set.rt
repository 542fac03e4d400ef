//! Version vectors: sets of identifiers, stored as the greatest counter of each replica. Dependencies and applied
//! operations are such sets.

ghost use Rattle.std.specs.Prelude.{◌≡◌, ◌<◌, ◌↔◌, [], ◌∷◌, Some, List, IfOk, OnOk, OnErr, IsTrue, eqb, leb, max, fold, position};
ghost use Rattle.std.specs.List.{list_all};
ghost use Rattle.jc_rules.specs.declared.id.Id.{Id as AnyId};
ghost use Rattle.jc_rules.specs.declared.operation.Op.{Op};
ghost use Rattle.jc_rules.specs.Ids.{has_id, with_id, without, union, greatest, AreIn, AreRising};
ghost use Rattle.jc_rules.specs.Table.{op_of};
ghost use Rattle.jc_rules.specs.VersionVectors.{ids_up_to, greatest_of, truncated, IsVersionVector};
ghost use Rattle.jc_rules.specs.Representation.{IsCausallyClosed, Represents};

use crate::id::Id;
use std::alloc::{AllocError, Global};
use std::marker::Model;

/// A version vector: the greatest counter of each replica that has one. Contracts see the ascending list of all
/// identifiers that it covers, which are those at or below these counters, gaps included.
///
/// In a sound set of operations it represents one causally closed set. Each call returns what it would return on that
/// set, and changes it so (the clauses `stands`).
#[derive(Drop)]
pub struct IdSet {
    /// One identifier of each replica that has one.
    last: Vec<Id>,
}

impl Model for IdSet {
    ghost use Rattle.std.specs.Prelude.{List};
    ghost use Rattle.jc_rules.specs.declared.id.Id.{Id};
    ghost use Rattle.jc_rules.specs.VersionVectors.{covered, IsVersionVector};

    ghost Value = { List Id };

    ghost view = { λ a. covered a.last.items };

    ghost invariant = { λ a. IsVersionVector a.last.items };
}

impl IdSet {
    /// The empty set.
    pub fn new(alloc: Global) -> Self
        ensures { result ≡ [] }
    {
        IdSet {
            last: Vec::new(alloc),
        }
    }

    /// Whether the identifier is in the set. It takes no memory.
    pub fn contains(&self, id: Id) -> bool
        ensures exact { result ≡ has_id id self.now }
        ensures stands { (set : List Op) (s : List AnyId) (o : Op)
            → Represents set s self.now → op_of id set ≡ Some o
            → result ≡ has_id id s }
    {
        0 < id.counter && id.counter <= counter_of(self.last.as_slice(), id.replica)
    }

    /// Adds the identifier, and with it all of its replica with smaller counters. After a refusal the set is as it was.
    pub fn insert(&mut self, id: Id) -> Result<(), AllocError>
        ensures exact { OnOk result (self.new ≡ union (ids_up_to id.replica id.counter) self.old) }
        ensures stands { OnOk result ((set : List Op) (s : List AnyId) (o : Op)
            → Represents set s self.old → op_of id set ≡ Some o → AreIn o.deps s
            → Represents set (with_id id s) self.new) }
        ensures err { OnErr result (self.new ≡ self.old) }
    {
        match place_of(self.last.as_slice(), id.replica) {
            Some(place) => {
                if self.last[place].counter < id.counter {
                    self.last[place] = id;
                }
            }
            None => self.last.push(id)?,
        }
        Ok(())
    }

    /// Whether each identifier of this set is in the other one. It takes no memory.
    pub fn is_subset(&self, other: &IdSet) -> bool
        ensures exact { IsTrue result ↔ AreIn self.now other.now }
        ensures stands { (set : List Op) (s t : List AnyId)
            → Represents set s self.now → Represents set t other.now
            → IsTrue result ↔ AreIn s t }
    {
        are_below(self.last.as_slice(), other.last.as_slice())
    }

    /// The greatest counter, or 0. It takes no memory.
    pub fn greatest(&self) -> u64
        ensures exact { result ≡ greatest self.now }
        ensures stands { (set : List Op) (s : List AnyId) → Represents set s self.now → result ≡ greatest s }
    {
        greatest_in(self.last.as_slice())
    }

    /// The replica's greatest counter, or 0. It takes no memory.
    pub fn greatest_of(&self, replica: u16) -> u64
        ensures exact { result ≡ greatest_of replica self.now }
        ensures stands { (set : List Op) (s : List AnyId)
            → Represents set s self.now → result ≡ greatest_of replica s }
    {
        counter_of(self.last.as_slice(), replica)
    }

    /// Takes the identifier out, which is the greatest of its replica, and leaves the counter before it as the greatest
    /// one; where that is 0, none of the replica is left. It takes no memory.
    pub fn withdraw(&mut self, id: Id, before: u64)
        requires greatest { greatest_of id.replica self.old ≡ id.counter }
        requires lower { before < id.counter }
        ensures exact { self.new ≡ truncated id.replica before self.old }
        ensures stands { (set : List Op) (s : List AnyId)
            → Represents set s self.old
            → IsCausallyClosed set (without s (id ∷ [])) → before ≡ greatest_of id.replica (without s (id ∷ []))
            → Represents set (without s (id ∷ [])) self.new }
    {
        let Some(place) = place_of(self.last.as_slice(), id.replica) else {
            unreachable!();
        };
        if before == 0 {
            self.last.remove(place);
        } else {
            self.last[place].counter = before;
        }
    }

    /// The same set once more.
    pub fn copy(&self) -> Result<Self, AllocError>
        ensures { IfOk result (λ set. set ≡ self.now) }
    {
        Ok(IdSet {
            last: self.last.clone()?,
        })
    }
}

/// The index of the replica's identifier, if it has one.
fn place_of(last: &[Id], replica: u16) -> Option<usize>
    ensures { result ≡ position (λ id. eqb id.replica replica) last.now }
{
    last.iter().position(|id| id.replica == replica)
}

/// The counter of the replica's identifier, or 0.
fn counter_of(last: &[Id], replica: u16) -> u64
    requires { IsVersionVector last.now }
    ensures { result ≡ greatest_of replica last.now }
{
    match place_of(last, replica) {
        Some(place) => last[place].counter,
        None => 0,
    }
}

/// Whether each is at or below the other list's counter of its replica.
fn are_below(last: &[Id], others: &[Id]) -> bool
    requires { IsVersionVector others.now }
    ensures { result ≡ list_all (λ id. leb id.counter (greatest_of id.replica others.now)) last.now }
{
    last.iter()
        .all(|id| id.counter <= counter_of(others, id.replica))
}

/// The greatest of the counters, or 0.
fn greatest_in(last: &[Id]) -> u64
    ensures { result ≡ fold (λ most id. max most id.counter) 0 last.now }
{
    last.iter().fold(0, |most, id| most.max(id.counter))
}

/// Adds the identifier to a rising list, if it isn't there already. After a refusal the list is as it
/// was.
pub fn insert_id(ids: &mut Vec<Id>, id: Id) -> Result<(), AllocError>
    requires { AreRising ids.old.items }
    ensures ok { OnOk result (ids.new.items ≡ with_id id ids.old.items) }
    ensures err { OnErr result (ids.new.items ≡ ids.old.items) }
    ensures rises { AreRising ids.new.items }
{
    if let Err(place) = ids.binary_search(&id) {
        ids.insert(place, id)?;
    }
    Ok(())
}
