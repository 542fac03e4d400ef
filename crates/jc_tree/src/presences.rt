//! The presence sets of a fast store's node by number, and beside them, a byte for each, whether a set has an
//! identifier: a walk along a list asks for that alone.

ghost use Rattle.std.specs.Prelude.{◌≡◌, ◌≢◌, ◌≤◌, ◌<◌, ℕ, [], length, take, Some, None, IfOk, IfSome, IfNone, OnOk, OnErr, option_map, option_copied};
ghost use Rattle.std.specs.Prelude.{List};
ghost use Rattle.jc_rules.specs.declared.id.Id.{Id as AnyId};
ghost use Rattle.jc_rules.specs.Ids.{with_id};
ghost use Rattle.jc_tree.specs.Tree.{or_no_entries, has_ids};
ghost use Rattle.jc_tree.specs.Undo.{taken_out, former_of_id};
ghost use Rattle.jc_tree.specs.Counted.{is_last};
ghost use Rattle.jc_tree.specs.Numbered.{at_number, IsSetAt};
ghost use Rattle.jc_tree.specs.Flags.{flag_at};

use crate::columns::{cut, put_at, restore_at};
use crate::ids::Ids;
use crate::node::Former;
use jc_rules::{Id, Key};
use std::alloc::{AllocError, Global};
use std::marker::Model;

/// Presence sets by number, each with a flag: whether it has an identifier.
#[derive(Drop)]
pub struct Presences {
    sets: Vec<Option<Ids>>,
    flags: Vec<bool>,
}

impl Model for Presences {
    ghost use Rattle.std.specs.Prelude.{List, Option};
    ghost use Rattle.jc_rules.specs.declared.id.Id.{Id};
    ghost use Rattle.jc_tree.specs.Flags.{AreFlags};

    ghost Value = { List (Option (List Id)) };

    ghost view = { λ a. a.sets.items };

    ghost invariant = { λ a. AreFlags a.flags.items a.sets.items };
}

/// Whether there is a set, and it has an identifier.
pub fn is_inhabited(set: Option<&Ids>) -> bool
    ensures { result ≡ has_ids (or_no_entries (option_copied set.entry)) }
{
    match set {
        Some(ids) => !ids.is_empty(),
        None => false,
    }
}

/// Makes the flags reach to the number. No more of them are set. After a refusal they are as they were.
fn reach(flags: &mut Vec<bool>, number: usize) -> Result<(), AllocError>
    ensures same { (n : ℕ) → flag_at flags.new.items n ≡ flag_at flags.old.items n }
    ensures more { length flags.old.items ≤ length flags.new.items }
    ensures there { OnOk result (number < length flags.new.items) }
{
    if number < flags.len() {
        return Ok(());
    }
    let Some(count) = number.checked_add(1) else {
        return Err(AllocError);
    };
    flags.resize(count, false)?;
    Ok(())
}

/// Adds the identifier to the set, a new one where there is none. Returns the undo record, by the set's
/// key, and whether the set had an identifier before. After a refusal the set is as it was.
fn add_to_set(
    set: &mut Option<Ids>,
    key: Key,
    id: Id,
    alloc: Global,
) -> Result<(Former, bool), AllocError>
    ensures ok { OnOk result (set.new ≡ Some (with_id id (or_no_entries set.old))) }
    ensures former { IfOk result (λ added. added.0 ≡ former_of_id key id set.old) }
    ensures was { IfOk result (λ added. added.1 ≡ has_ids (or_no_entries set.old)) }
    ensures err { OnErr result (set.new ≡ set.old) }
{
    let Some(ids) = set else {
        *set = Some(Ids::single(id, alloc)?);
        return Ok((Former::Presence(key, None), false));
    };
    let was = !ids.is_empty();
    let had = ids.contains(id);
    ids.insert(id)?;
    let former = if had {
        Former::Same
    } else {
        Former::NoId(key, id)
    };
    Ok((former, was))
}

/// Takes the identifier out of the set, if there is one. Returns whether it was the last one of the set.
fn take_out_of_set(set: &mut Option<Ids>, id: Id) -> bool
    ensures ok { set.new ≡ option_map (λ s. taken_out id s) set.old }
    ensures last { result ≡ is_last id (or_no_entries set.old) }
{
    let Some(ids) = set else {
        return false;
    };
    let was = !ids.is_empty();
    ids.take_out(id);
    was && ids.is_empty()
}

impl Presences {
    pub fn new(alloc: Global) -> Self
        ensures { result ≡ [] }
    {
        Presences {
            sets: Vec::new(alloc),
            flags: Vec::new(alloc),
        }
    }

    pub fn as_slice(&self) -> &[Option<Ids>]
        ensures value { result.now ≡ self.now }
    {
        self.sets.as_slice()
    }

    /// Whether there is a set at the number, and it has an identifier.
    pub fn is_inhabited(&self, number: usize) -> bool
        ensures { result ≡ has_ids (or_no_entries (at_number self.now number)) }
    {
        match self.flags.get(number) {
            Some(flag) => *flag,
            None => false,
        }
    }

    /// As `put_at`.
    pub fn put(&mut self, number: usize, ids: Ids) -> Result<Option<Ids>, AllocError>
        ensures ok { OnOk result (IsSetAt number (Some ids) self.old self.new) }
        ensures former { IfOk result (λ former. former ≡ at_number self.old number) }
        ensures err { OnErr result (self.new ≡ self.old) }
    {
        reach(&mut self.flags, number)?;
        let is = !ids.is_empty();
        let former = put_at(&mut self.sets, number, ids)?;
        self.flags[number] = is;
        Ok(former)
    }

    /// As `restore_at`.
    pub fn restore(&mut self, number: usize, former: Option<Ids>) -> Option<Ids>
        ensures was { result ≡ at_number self.old number }
        ensures some { IfSome result (λ was. IsSetAt number former self.old self.new) }
        ensures none { IfNone result (self.new ≡ self.old) }
    {
        let is = is_inhabited(former.as_ref());
        let was = restore_at(&mut self.sets, number, former)?;
        self.flags[number] = is;
        Some(was)
    }

    /// Adds the identifier to the set at the number, a new one where there is none. Returns the undo
    /// record, by the set's key, and whether the set had an identifier before. After a refusal the sets
    /// are as they were.
    pub fn add(
        &mut self,
        number: usize,
        key: Key,
        id: Id,
        alloc: Global,
    ) -> Result<(Former, bool), AllocError>
        ensures ok { OnOk result
            (IsSetAt number (Some (with_id id (or_no_entries (at_number self.old number)))) self.old self.new) }
        ensures former { IfOk result (λ added. added.0 ≡ former_of_id key id (at_number self.old number)) }
        ensures was { IfOk result (λ added. added.1 ≡ has_ids (or_no_entries (at_number self.old number))) }
        ensures err { OnErr result (self.new ≡ self.old) }
    {
        reach(&mut self.flags, number)?;
        let Some(set) = self.sets.get_mut(number) else {
            put_at(&mut self.sets, number, Ids::single(id, alloc)?)?;
            self.flags[number] = true;
            return Ok((Former::Presence(key, None), false));
        };
        let added = add_to_set(set, key, id, alloc)?;
        self.flags[number] = true;
        Ok(added)
    }

    /// Takes the identifier out of the set at the number, if there is one. Returns whether it was the
    /// last one of the set. It takes no memory.
    pub fn take_out(&mut self, number: usize, id: Id) -> bool
        ensures some { (s : List AnyId) → at_number self.old number ≡ Some s
            → IsSetAt number (Some (taken_out id s)) self.old self.new }
        ensures none { at_number self.old number ≡ None → self.new ≡ self.old }
        ensures last { result ≡ is_last id (or_no_entries (at_number self.old number)) }
    {
        let Some(set) = self.sets.get_mut(number) else {
            return false;
        };
        if !take_out_of_set(set, id) {
            return false;
        }
        self.flags[number] = false;
        true
    }

    /// Keeps the sets of the first numbers, so many, and drops the rest.
    pub fn cut(&mut self, most: usize)
        ensures { self.new ≡ take most self.old }
    {
        cut(&mut self.sets, most);
        self.flags.truncate(most);
    }
}
