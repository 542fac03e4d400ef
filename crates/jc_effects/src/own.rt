//! What differs of a key's own entries.

ghost use Rattle.std.specs.Prelude.{◌≡◌, not, ◌&&◌, is_some, IfOk};
ghost use Rattle.jc_rules.specs.declared.key.Key.{Key as AnyKey};
ghost use Rattle.jc_rules.specs.Order.{id_cmp};
ghost use Rattle.jc_rules.specs.Entries.{find};
ghost use Rattle.jc_rules.specs.Ids.{AreRising, has_id, without};
ghost use Rattle.jc_rules.specs.WellFormed.{IsWellFormedRegister};
ghost use Rattle.jc_tree.specs.Tree.{has_ids};
ghost use Rattle.jc_effects.specs.Difference.{link_changed, shown_changed, is_quiet};
ghost use Rattle.jc_effects.specs.Parts.{pairs_without, own_seen, new_tags, AreFound};

use crate::entries::Entries;
use jc_rules::{Id, Next, Value};
use std::alloc::{AllocError, Global};

/// A map, a list and a register of one key: which of them are meant.
#[derive(Clone, Copy, Debug, PartialEq, Eq)]
pub struct Tags {
    pub map: bool,
    pub list: bool,
    pub register: bool,
}

/// None of them.
pub(crate) const NO_TAGS: Tags = Tags {
    map: false,
    list: false,
    register: false,
};

/// What differs of a key's own entries.
#[derive(Drop)]
pub struct OwnEffects {
    /// The identifiers that came to the presence set.
    pub gained: Vec<Id>,
    /// Those that went from it.
    pub lost: Vec<Id>,
    /// What was made.
    pub made: Tags,
    /// What followed the key and what follows it now, where that differs.
    pub next: Option<(Option<Next>, Option<Next>)>,
    /// Whether the presence set has an identifier now, where that differs.
    pub shown: Option<bool>,
    /// The values that went from the register.
    pub taken: Vec<(Id, Value)>,
    /// Those that came to it.
    pub written: Vec<(Id, Value)>,
}

impl OwnEffects {
    /// Whether nothing differs.
    pub fn is_quiet(&self) -> bool
        ensures { (k : AnyKey) → result ≡ is_quiet (own_seen k self.now) }
    {
        self.gained.is_empty()
            && self.lost.is_empty()
            && !self.made.map
            && !self.made.list
            && !self.made.register
            && self.next.is_none()
            && self.taken.is_empty()
            && self.written.is_empty()
    }
}

/// What has to be looked at: all that came to a key or went from it is among these.
#[derive(Clone, Copy)]
pub(crate) struct Candidates<'a> {
    pub gained: &'a [Id],
    pub lost: &'a [Id],
    pub taken: &'a [(Id, Value)],
    pub written: &'a [(Id, Value)],
}

/// Whether the identifier is in the rising list.
pub(crate) fn has(ids: &[Id], id: Id) -> bool
    requires { AreRising ids.now }
    ensures { result ≡ has_id id ids.now }
{
    ids.binary_search(&id).is_ok()
}

/// Whether the identifier has a value in the register.
fn has_value(pairs: &[(Id, Value)], id: Id) -> bool
    requires { IsWellFormedRegister pairs.now }
    ensures { result ≡ is_some (find id_cmp id pairs.now) }
{
    pairs.binary_search_by_key(&id, |pair| pair.0).is_ok()
}

/// The identifiers of the first list that aren't in the second one, which rises.
pub(crate) fn ids_without(alloc: Global, ids: &[Id], others: &[Id]) -> Result<Vec<Id>, AllocError>
    requires { AreRising others.now }
    ensures { IfOk result (λ found. found.items ≡ without ids.now others.now) }
{
    let mut found = Vec::new(alloc);
    for id in ids {
        if !has(others, *id) {
            found.push(*id)?;
        }
    }
    Ok(found)
}

/// The pairs whose identifier has no value in the second register.
pub(crate) fn pairs_without(
    alloc: Global,
    pairs: &[(Id, Value)],
    others: &[(Id, Value)],
) -> Result<Vec<(Id, Value)>, AllocError>
    requires { IsWellFormedRegister others.now }
    ensures { IfOk result (λ found. found.items ≡ pairs_without pairs.now others.now) }
{
    let mut found = Vec::new(alloc);
    for (id, value) in pairs {
        if !has_value(others, *id) {
            found.push((*id, value.copy()?))?;
        }
    }
    Ok(found)
}

/// The tags that are new.
fn new_tags(was: Tags, now: Tags) -> Tags
    ensures { result ≡ new_tags was now }
{
    Tags {
        map: now.map && !was.map,
        list: now.list && !was.list,
        register: now.register && !was.register,
    }
}

/// What followed and what follows, where that differs.
pub(crate) fn link_changed(
    was: Option<Next>,
    now: Option<Next>,
) -> Option<(Option<Next>, Option<Next>)>
    ensures { result ≡ link_changed was now }
{
    if was == now { None } else { Some((was, now)) }
}

fn shown_changed(was: bool, now: bool) -> Option<bool>
    ensures { result ≡ shown_changed was now }
{
    if was == now { None } else { Some(now) }
}

/// Whether the presence set has an identifier now, where that differs.
pub(crate) fn shown_between(was: &[Id], now: &[Id]) -> Option<bool>
    ensures { result ≡ shown_changed (has_ids was.now) (has_ids now.now) }
{
    shown_changed(!was.is_empty(), !now.is_empty())
}

/// What differs between the entries of a key before and after, where only the candidates need be looked at.
pub(crate) fn own_between(
    alloc: Global,
    was: &Entries<'_>,
    now: &Entries<'_>,
    candidates: Candidates<'_>,
) -> Result<OwnEffects, AllocError>
    requires was_rising { AreRising was.now.ids.now }
    requires now_rising { AreRising now.now.ids.now }
    requires was_formed { IsWellFormedRegister was.now.pairs.now }
    requires now_formed { IsWellFormedRegister now.now.pairs.now }
    ensures { IfOk result (λ own. AreFound was.now now.now candidates.entry own) }
{
    Ok(OwnEffects {
        gained: ids_without(alloc, candidates.gained, was.ids)?,
        lost: ids_without(alloc, candidates.lost, now.ids)?,
        made: new_tags(was.tags, now.tags),
        next: link_changed(was.next, now.next),
        shown: shown_between(was.ids, now.ids),
        taken: pairs_without(alloc, candidates.taken, now.pairs)?,
        written: pairs_without(alloc, candidates.written, was.pairs)?,
    })
}
