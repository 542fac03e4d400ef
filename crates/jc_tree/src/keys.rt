//! The keys of a fast store's node, numbered by first use, with their order beside.

ghost use Rattle.std.specs.Prelude.{◌≡◌, ◌-◌, ◌↔◌, [], length, take, slice_get, option_copied, Some, IsTrue, IfOk, IfSome, OnErr};
ghost use Rattle.std.specs.Option.{option_map};
ghost use Rattle.jc_rules.specs.Order.{key_cmp};
ghost use Rattle.jc_rules.specs.Entries.{find, keys_of};
ghost use Rattle.jc_tree.specs.Tree.{least_after, keys_lent};
ghost use Rattle.jc_tree.specs.Undo.{removed};
ghost use Rattle.jc_tree.specs.Numbered.{IsNumbered, GetsNumber};
ghost use Rattle.jc_rules.specs.declared.key.Key.{Key as AnyKey};
ghost use Rattle.jc_rules.specs.declared.key.Key.TheVariants.{Elem};

use crate::store::Hint;
use indexmap::IndexSet;
use jc_rules::{Id, Key};
use std::alloc::{AllocError, Global};
use std::collections::BTreeMap;
use std::marker::Model;
use std::ops::Bound;

/// Whether the keys are the same. Elements are compared here, since a walk along a list compares no others.
fn is_same(first: &Key, second: &Key) -> bool
    ensures { IsTrue result ↔ first.now ≡ second.now }
{
    match (first, second) {
        (Key::Elem(element), Key::Elem(other)) => element == other,
        _ => first == second,
    }
}

/// Keys with their numbers. A key's number is its place among the first uses.
#[derive(Drop)]
pub struct KeyTable {
    keys: IndexSet<Key>,
    order: BTreeMap<Key, usize>,
}

impl Model for KeyTable {
    ghost use Rattle.jc_tree.specs.Numbered.{Numbering, IsNumbered};

    ghost Value = { Numbering };

    ghost view = { λ a. record { keys = a.keys.keys; order = a.order.entries } };

    ghost invariant = { λ a. IsNumbered (record { keys = a.keys.keys; order = a.order.entries }) };
}

impl KeyTable {
    pub fn new(alloc: Global) -> Self
        ensures { result ≡ record { keys = []; order = [] } }
    {
        KeyTable {
            keys: IndexSet::new(alloc),
            order: BTreeMap::new(alloc),
        }
    }

    /// How many keys there are.
    pub fn len(&self) -> usize
        ensures { result ≡ length self.now.keys }
    {
        self.keys.len()
    }

    /// How many keys there are, as their order counts them.
    pub fn count(&self) -> usize
        ensures { result ≡ length self.now.order }
    {
        self.order.len()
    }

    /// Does nothing: its contract says what goes for each table.
    #[inline(always)]
    pub fn are_numbered(&self)
        ensures { IsNumbered self.now }
    {
        let _ = &self.keys;
    }

    /// The key's number.
    #[inline(never)]
    pub fn number(&self, key: &Key) -> Option<usize>
        ensures found { result ≡ find key_cmp key.now self.now.order }
        ensures numbered { IsNumbered self.now }
    {
        self.keys.get_index_of(key)
    }

    /// The key's number, which may be the given one: then no search is needed.
    #[inline(always)]
    pub fn number_near(&self, key: &Key, hint: usize) -> Option<usize>
        ensures found { result ≡ find key_cmp key.now self.now.order }
        ensures numbered { IsNumbered self.now }
    {
        match self.keys.get_index(hint) {
            Some(there) if is_same(there, key) => Some(hint),
            _ => self.number(key),
        }
    }

    /// The element whose key has the number.
    pub fn element(&self, number: usize) -> Option<Id>
        ensures { IfSome result (λ id. slice_get self.now.keys number ≡ Some (Elem id)) }
    {
        match self.keys.get_index(number)? {
            Key::Elem(id) => Some(*id),
            _ => None,
        }
    }

    /// The key's number, which it gets where it has none. After a refusal all is as it was.
    pub fn number_of(&mut self, key: &Key) -> Result<usize, AllocError>
        ensures ok { IfOk result (λ n. GetsNumber key.now n self.old self.new) }
        ensures err { OnErr result (self.new ≡ self.old) }
        ensures numbered { IsNumbered self.old × IsNumbered self.new }
    {
        if let Some(number) = self.number(key) {
            return Ok(number);
        }
        self.keys.reserve(1)?;
        let number = self.keys.len();
        let copy = key.copy()?;
        self.order.insert(key.copy()?, number)?;
        self.keys.insert(copy).unwrap();
        Ok(number)
    }

    /// Takes the last key away. It takes no memory.
    pub fn pop(&mut self)
        ensures keys { self.new.keys ≡ take (length self.old.keys - 1) self.old.keys }
        ensures order { (k : AnyKey) → slice_get self.old.keys (length self.old.keys - 1) ≡ Some k
            → self.new.order ≡ removed key_cmp k self.old.order }
        ensures numbered { IsNumbered self.old }
        ensures left { IsNumbered self.new }
    {
        let Some(key) = self.keys.last() else {
            return;
        };
        self.order.remove(key);
        self.keys.pop();
    }

    /// All keys in their order, each with its number as a hint.
    pub fn in_order(&self, alloc: Global) -> Result<Vec<(&Key, Hint)>, AllocError>
        ensures keys { IfOk result (λ lent. keys_lent lent.items ≡ keys_of self.now.order) }
        ensures numbered { IsNumbered self.now }
    {
        let mut lent = Vec::with_capacity(alloc, self.order.len())?;
        for (key, number) in self.order.iter() {
            lent.push((key, Hint { number: *number }))?;
        }
        Ok(lent)
    }

    /// The least key above the given one, or the least of all where none is given, with its number.
    pub fn above(&self, after: Option<&Key>) -> Option<(&Key, usize)>
        ensures key { option_map (λ p. p.0.now) result
            ≡ least_after (option_copied after.entry) (keys_of self.now.order) }
        ensures number { IfSome result (λ p. find key_cmp p.0.now self.now.order ≡ Some p.1) }
        ensures numbered { IsNumbered self.now }
    {
        let Some(above) = after else {
            let (key, number) = self.order.first_key_value()?;
            return Some((key, *number));
        };
        let mut greater = self.order.range((Bound::Excluded(above), Bound::Unbounded));
        let (key, number) = greater.next()?;
        Some((key, *number))
    }
}
