//! Large contexts: 60,000 keys in a map and in a list. What was made is there, and is gone when it is taken back.

use crate::keys::{At, Keys, SECOND, Set, Tag, ids_of};
use crate::placed::Placed;
use crate::steps::Step;
use crate::twins::Twins;
use jc_rules::{Id, Key, Next};
use jc_tree::{KeysOf, TreeStore, is_place};
use std::alloc::AllocError;
use std::process::Abort;

const MANY: u64 = 60_000;

/// One key in so many is put last.
const EACH: u64 = 60;

pub fn element(counter: u64) -> Key {
    Key::Elem(Id {
        counter,
        replica: 0,
    })
}

impl<S: TreeStore> Placed<S> {
    /// Puts what a key gets.
    fn put_key(&mut self, key: &Key) -> Result<bool, AllocError> {
        Ok(self.put_ids(key, ids_of(Set::Second))? && self.link(key, Next::Elem(SECOND))?)
    }

    fn put_number(&mut self, number: u64) -> Result<bool, AllocError> {
        let key = element(number);
        self.put_key(&key)
    }

    /// Puts all the keys, one in sixty after all the others.
    fn put_many(&mut self) -> Result<bool, AllocError> {
        for turn in 0..MANY + MANY / EACH {
            let number = if turn < MANY {
                turn
            } else {
                (turn - MANY) * EACH
            };
            if (turn < MANY) == (number % EACH == 0) {
                continue;
            }
            if !self.put_number(number)? {
                return Ok(false);
            }
        }
        Ok(true)
    }

    /// Whether the key of this number is the one behind the given key.
    fn comes_after(&self, of: KeysOf, above: Option<&Key>, number: u64) -> bool {
        self.after(of, above) == Some(&element(number))
    }

    /// Whether just these keys are there, behind the given one.
    fn has_many(&self, of: KeysOf, first: Option<&Key>) -> bool {
        for number in 1..MANY {
            if !self.comes_after(of, Some(&element(number - 1)), number) {
                return false;
            }
        }
        self.comes_after(of, first, 0) && self.after(of, Some(&element(MANY - 1))).is_none()
    }

    fn has_key(&self, key: &Key) -> bool {
        let at = self.at.as_slice();
        is_place(&self.store, at)
            && self.store.presence(at, key) == Some(&[SECOND])
            && self.store.next(at, key) == Some(Next::Elem(SECOND))
    }

    fn has_number(&self, number: u64) -> bool {
        let key = element(number);
        self.has_key(&key)
    }

    /// Whether the keys are there, with presence sets and with links, which stand behind the given key.
    fn has_all(&self, first: Option<&Key>) -> bool {
        self.has_many(KeysOf::Presence, None)
            && self.has_many(KeysOf::Link, first)
            && self.has_number(MANY / 2)
            && self.has_number(MANY - 1)
    }

    /// So many keys in the context, with presence sets and links, which are taken back then.
    fn holds_many(&mut self, first: Option<&Key>) -> Result<bool, AllocError> {
        let mark = self.store.mark();
        let is = self.put_many()? && self.has_all(first);
        Ok(is && self.undo_to(mark))
    }
}

const A_LIST: &[Step] = &[
    Step::Make(Tag::List, At::Doc),
    Step::Down(Tag::List, At::Doc),
];

const NONE_LEFT: &[Step] = &[
    Step::Keys(KeysOf::Presence, &[]),
    Step::Keys(KeysOf::Link, &[]),
    Step::Changes(0),
];

const HEAD_LEFT: &[Step] = &[
    Step::Keys(KeysOf::Presence, &[]),
    Step::Keys(KeysOf::Link, &[At::Head]),
    Step::Changes(1),
];

impl Twins {
    fn hold_many(&mut self, rt: &impl Abort, first: Option<&Key>) -> Result<(), AllocError> {
        let is = self.plain.holds_many(first)? && self.arena.holds_many(first)?;
        assert!(rt; is);
        Ok(())
    }
}

/// Both stores hold many keys in the root, and then in a list.
pub fn hold_many(rt: &impl Abort, keys: &Keys, twins: &mut Twins) -> Result<(), AllocError> {
    twins.hold_many(rt, None)?;
    twins.play(rt, keys, "none left", NONE_LEFT)?;
    twins.play(rt, keys, "a list", A_LIST)?;
    twins.hold_many(rt, Some(keys.key(At::Head)))?;
    twins.play(rt, keys, "head left", HEAD_LEFT)
}
