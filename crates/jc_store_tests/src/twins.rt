//! Two stores, a plain one and a fast one, that take the same steps.

use crate::keys::{At, Keys, Tag};
use crate::placed::Placed;
use crate::steps::Step;
use jc_rules::{Key, Tagged};
use jc_tree::{ArenaTree, KeysOf, Mark, PlainTree, TreeStore, is_place};
use std::alloc::{AllocError, Global};
use std::process::Abort;

/// The keys that the walk uses.
const KEYS: [At; 6] = [At::Doc, At::Head, At::A, At::A1, At::First, At::Second];

const TAGS: [Tag; 3] = [Tag::Map, Tag::List, Tag::Register];

#[derive(Drop)]
pub struct Twins {
    pub plain: Placed<PlainTree>,
    pub arena: Placed<ArenaTree>,
}

impl Twins {
    pub fn new(alloc: Global) -> Result<Self, AllocError> {
        let arena = Placed {
            store: ArenaTree::new(alloc)?,
            at: Vec::new(alloc),
        };
        let plain = Placed {
            store: PlainTree::new(alloc),
            at: Vec::new(alloc),
        };
        Ok(Twins { plain, arena })
    }

    /// Whether the same is under a key of the place, and comes after it.
    fn is_same_at(&self, key: &Key) -> bool {
        let at = self.plain.at.as_slice();
        let (plain, arena) = (&self.plain.store, &self.arena.store);
        is_place(plain, at)
            && is_place(arena, at)
            && plain.presence(at, key) == arena.presence(at, key)
            && plain.next(at, key) == arena.next(at, key)
            && plain.register(at, key) == arena.register(at, key)
            && self.plain.count_present() == self.arena.count_present()
    }

    fn is_same_after(&self, key: &Key) -> bool {
        for of in [KeysOf::Content, KeysOf::Presence, KeysOf::Link] {
            if self.plain.after(of, Some(key)) != self.arena.after(of, Some(key)) {
                return false;
            }
        }
        true
    }

    fn is_same_child(&self, child: &Tagged) -> bool {
        self.plain.has(child) == self.arena.has(child)
            && self.plain.has_below(child) == self.arena.has_below(child)
            && self.plain.is_named_alike(child)
            && self.arena.is_named_alike(child)
    }

    fn is_same_under(&self, keys: &Keys, at: At) -> bool {
        for tag in TAGS {
            if !self.is_same_child(keys.child(tag, at)) {
                return false;
            }
        }
        let key = keys.key(at);
        self.is_same_at(key)
            && self.is_same_after(key)
            && self.plain.steps_alike(key)
            && self.arena.steps_alike(key)
            && self.plain.leads_alike(key)
            && self.arena.leads_alike(key)
            && self.plain.reads_alike(key)
            && self.arena.reads_alike(key)
    }

    /// Whether the same is at the place.
    pub fn is_same(&self, keys: &Keys) -> bool {
        for at in KEYS {
            if !self.is_same_under(keys, at) {
                return false;
            }
        }
        self.plain.at.as_slice() == self.arena.at.as_slice()
            && self.plain.store.mark() == self.arena.store.mark()
    }

    fn change_both(&mut self, keys: &Keys, step: &Step) -> Result<bool, AllocError> {
        Ok(self.plain.change(keys, step)? && self.arena.change(keys, step)?)
    }

    /// Makes the change again, where memory was refused: both stores are as they were.
    fn change_again(&mut self, keys: &Keys, step: &Step, before: Mark) -> Result<bool, AllocError> {
        let are_back = self.plain.undo_to(before) && self.arena.undo_to(before);
        if !are_back || !self.is_same(keys) {
            return Ok(false);
        }
        self.change_both(keys, step)
    }

    /// Makes one change.
    pub fn change(&mut self, keys: &Keys, step: &Step) -> Result<bool, AllocError> {
        let before = self.plain.store.mark();
        let is = match self.change_both(keys, step) {
            Ok(is) => is,
            Err(_) => self.change_again(keys, step, before)?,
        };
        let is_one = Some(self.plain.store.mark().changes) == before.changes.checked_add(1);
        Ok(is && is_one && self.plain.store.mark() == self.arena.store.mark())
    }

    pub fn go(&mut self, keys: &Keys, step: &Step) -> Result<bool, AllocError> {
        Ok(self.plain.go(keys, step)? && self.arena.go(keys, step)?)
    }

    fn step(&mut self, keys: &Keys, step: &Step) -> Result<bool, AllocError> {
        match step {
            Step::Make(_, _)
            | Step::MakeNamed(_, _)
            | Step::PutIds(_, _)
            | Step::PutIdsNamed(_, _)
            | Step::AddId(_, _)
            | Step::AddIdNamed(_, _)
            | Step::Link(_, _)
            | Step::LinkNamed(_, _)
            | Step::PutValues(_, _)
            | Step::PutValuesNamed(_, _)
            | Step::PutValue(_, _, _)
            | Step::PutValueNamed(_, _, _) => self.change(keys, step),
            Step::Down(_, _) | Step::Up | Step::Back(_) | Step::ForgetMarks => self.go(keys, step),
            _ => Ok(self.plain.sees(keys, step)? && self.arena.sees(keys, step)?),
        }
    }

    /// Takes these steps, each of which both stores answer as they should.
    pub fn play(
        &mut self,
        rt: &impl Abort,
        keys: &Keys,
        title: &str,
        steps: &[Step],
    ) -> Result<(), AllocError> {
        for (number, step) in steps.iter().enumerate() {
            let is = self.step(keys, step)?;
            assert!(rt; is, "{title}, {number}");
        }
        Ok(())
    }

    /// Takes these steps at the place to which the way leads.
    pub fn play_there(
        &mut self,
        rt: &impl Abort,
        keys: &Keys,
        title: &str,
        way: &[Step],
        steps: &[Step],
    ) -> Result<(), AllocError> {
        self.play(rt, keys, title, way)?;
        self.play(rt, keys, title, steps)
    }
}
