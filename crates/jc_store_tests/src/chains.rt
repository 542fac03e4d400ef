//! A list into which elements come at places as if by chance, and from which they go as changes are taken back. What a
//! store tells of them at once is what single steps say.

use crate::keys::{At, Keys, Set, Tag, ids_of};
use crate::large::element;
use crate::placed::Placed;
use crate::steps::Step;
use crate::twins::Twins;
use crate::walk::next_number;
use jc_rules::{Id, Key, Next};
use jc_tree::{TreeStore, is_place};
use std::alloc::AllocError;
use std::process::Abort;

const CHANGES: u64 = 900;

/// After so many changes all is compared.
const EACH: u64 = 30;

/// The key that a number chooses of the elements with lesser counters and the head.
fn key_of(number: u64, counter: u64) -> Key {
    match number.checked_rem(counter) {
        Some(0) | None => Key::Head,
        Some(chosen) => element(chosen),
    }
}

impl<S: TreeStore> Placed<S> {
    /// What follows the key, where the place is there.
    fn follower(&self, key: &Key) -> Option<Next> {
        let at = self.at.as_slice();
        if !is_place(&self.store, at) {
            return None;
        }
        self.store.next(at, key)
    }

    /// Puts the element behind the key, where that is linked.
    fn insert_behind(&mut self, key: &Key, counter: u64) -> Result<bool, AllocError> {
        let Some(next) = self.follower(key) else {
            return Ok(true);
        };
        let id = Id {
            counter,
            replica: 0,
        };
        let fresh = element(counter);
        Ok(
            self.put_ids(&fresh, ids_of(Set::Second))?
                && self.link(key, Next::Elem(id))?
                && self.link(&fresh, next)?,
        )
    }

    /// Changes what a number chooses of the elements with lesser counters.
    fn change_list(&mut self, number: u64, counter: u64) -> Result<bool, AllocError> {
        let key = key_of(number / 8, counter);
        match number % 8 {
            0 => self.put_ids(&key, &[]),
            1 => self.put_ids(&key, ids_of(Set::Both)),
            _ => self.insert_behind(&key, counter),
        }
    }
}

impl Twins {
    /// Makes a list at the root, and goes down into it.
    fn enter_list(&mut self, keys: &Keys) -> Result<bool, AllocError> {
        Ok(
            self.change(keys, &Step::Make(Tag::List, At::Doc))?
                && self.go(keys, &Step::Down(Tag::List, At::Doc))?,
        )
    }

    /// Takes so many changes back, but not that which made the list.
    fn take_back(&mut self, keys: &Keys, number: u64) -> Result<bool, AllocError> {
        let changes = self.plain.store.mark().changes.saturating_sub(1);
        let back = (number % 60) as usize;
        self.go(keys, &Step::Back(back.min(changes)))
    }

    fn change_lists(&mut self, keys: &Keys, number: u64, counter: u64) -> Result<bool, AllocError> {
        if number % 16 == 7 {
            return self.take_back(keys, number / 16);
        }
        Ok(self.plain.change_list(number, counter)? && self.arena.change_list(number, counter)?)
    }

    /// Whether both lists go on alike from the key.
    fn goes_on_alike(&self, key: &Key) -> bool {
        self.plain.follower(key) == self.arena.follower(key)
            && self.arena.steps_alike(key)
            && self.arena.leads_alike(key)
    }

    /// Whether both lists are alike, as far as elements with lesser counters go.
    fn lists_are_alike(&self, counter: u64) -> bool {
        for other in 1..counter {
            if !self.goes_on_alike(&element(other)) {
                return false;
            }
        }
        self.goes_on_alike(&Key::Head)
    }
}

/// Changes the lists, and compares them.
pub fn change_chains(rt: &impl Abort, keys: &Keys, twins: &mut Twins) -> Result<(), AllocError> {
    let is = twins.enter_list(keys)?;
    assert!(rt; is);
    let mut number = 5;
    for counter in 1..CHANGES {
        number = next_number(number);
        let is = twins.change_lists(keys, number >> 32, counter)?
            && (counter % EACH != 0 || twins.lists_are_alike(counter));
        assert!(rt; is, "{counter}");
    }
    Ok(())
}
