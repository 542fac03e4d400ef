//! A store and a place of it: each call, by the path and by the name of the place.

ghost use Rattle.std.specs.Prelude.{IsSome, IfSome};
ghost use Rattle.jc_rules.specs.Ids.{AreRising};
ghost use Rattle.jc_rules.specs.Context.{IsPrimitive};
ghost use Rattle.jc_rules.specs.Paths.{HasContext};
ghost use Rattle.jc_tree.specs.Tree.{HasPlace};

use crate::keys::{At, Keys, Values, ids_of, values_of};
use crate::steps::Step;
use jc_rules::{Id, Key, Next, Tagged, Value, compare_ids};
use jc_tree::{ANYWHERE, Hint, KeysOf, Mark, Place, Stretch, TreeStore, is_place, place_of};
use std::alloc::AllocError;

/// The name of the place, where there is one.
fn name_of<S: TreeStore>(store: &S, at: &[Tagged]) -> Option<Place>
    ensures there { IsSome result → HasPlace at.now (S.tree store.now) }
    ensures named { IfSome result (λ place. S.names store.now place at.now) }
{
    if !is_place(store, at) {
        return None;
    }
    Some(place_of(store, at))
}

/// Where a store looks first for a key: at each of the first keys, and where none is.
const HINTS: [usize; 5] = [0, 1, 2, 5, usize::MAX];

/// A store, and the place of it that is changed and looked at. Its calls say whether the store answered as it should;
/// where there is no such place they say no.
#[derive(Drop)]
pub struct Placed<S> {
    pub store: S,
    pub at: Vec<Tagged>,
}

impl<S: TreeStore> Placed<S> {
    fn make(&mut self, child: &Tagged) -> Result<bool, AllocError> {
        let at = self.at.as_slice();
        if !is_place(&self.store, at) || self.store.has(at, child) {
            return Ok(false);
        }
        self.store.make_child(at, child)?;
        Ok(true)
    }

    fn make_context(&mut self, child: &Tagged) -> Result<bool, AllocError>
        requires { HasContext child.now }
    {
        let at = self.at.as_slice();
        if !is_place(&self.store, at) || self.store.has(at, child) {
            return Ok(false);
        }
        let Some(place) = name_of(&self.store, at) else {
            return Ok(false);
        };
        self.store.make_child_at(place, child)?;
        Ok(true)
    }

    fn make_named(&mut self, child: &Tagged) -> Result<bool, AllocError> {
        match child {
            Tagged::MapT(_) => self.make_context(child),
            Tagged::ListT(_) => self.make_context(child),
            Tagged::RegT(_) => Ok(false),
        }
    }

    pub fn put_ids(&mut self, key: &Key, ids: &[Id]) -> Result<bool, AllocError>
        requires { AreRising ids.now }
    {
        if !is_place(&self.store, self.at.as_slice()) {
            return Ok(false);
        }
        self.store.set_presence(self.at.as_slice(), key, ids)?;
        Ok(true)
    }

    /// The name of the place lasts.
    fn put_ids_named(&mut self, key: &Key, ids: &[Id]) -> Result<bool, AllocError>
        requires { AreRising ids.now }
    {
        let at = self.at.as_slice();
        let Some(place) = name_of(&self.store, at) else {
            return Ok(false);
        };
        self.store.set_presence_at(place, key, ids)?;
        Ok(name_of(&self.store, at) == Some(place))
    }

    fn add_id(&mut self, key: &Key, id: Id) -> Result<bool, AllocError> {
        let at = self.at.as_slice();
        if !is_place(&self.store, at) {
            return Ok(false);
        }
        let was = self.store.presence(at, key).is_some();
        Ok(self.store.add_presence(at, key, id)? == was)
    }

    /// The name of the place lasts.
    fn add_id_named(&mut self, key: &Key, id: Id) -> Result<bool, AllocError> {
        let at = self.at.as_slice();
        let Some(place) = name_of(&self.store, at) else {
            return Ok(false);
        };
        let was = self.store.presence(at, key).is_some();
        let told = self.store.add_presence_at(place, key, id)?;
        Ok(told == was && name_of(&self.store, at) == Some(place))
    }

    pub fn link(&mut self, key: &Key, next: Next) -> Result<bool, AllocError> {
        if !is_place(&self.store, self.at.as_slice()) {
            return Ok(false);
        }
        self.store.set_next(self.at.as_slice(), key, next)?;
        Ok(true)
    }

    /// The name of the place lasts.
    fn link_named(&mut self, key: &Key, next: Next) -> Result<bool, AllocError> {
        let at = self.at.as_slice();
        let Some(place) = name_of(&self.store, at) else {
            return Ok(false);
        };
        self.store.set_next_at(place, key, next)?;
        Ok(name_of(&self.store, at) == Some(place))
    }

    fn put_values(&mut self, keys: &Keys, at: At, values: Values) -> Result<bool, AllocError> {
        if !is_place(&self.store, self.at.as_slice()) {
            return Ok(false);
        }
        let pairs = values_of(keys.alloc, values)?;
        self.store
            .set_register(self.at.as_slice(), keys.key(at), pairs)?;
        Ok(true)
    }

    /// The name of the place lasts.
    fn put_values_named(
        &mut self,
        keys: &Keys,
        at: At,
        values: Values,
    ) -> Result<bool, AllocError> {
        let path = self.at.as_slice();
        let Some(place) = name_of(&self.store, path) else {
            return Ok(false);
        };
        let pairs = values_of(keys.alloc, values)?;
        self.store.set_register_at(place, keys.key(at), pairs)?;
        Ok(name_of(&self.store, path) == Some(place))
    }

    fn put(&mut self, key: &Key, id: Id, value: Value) -> Result<bool, AllocError>
        requires { IsPrimitive value }
    {
        let at = self.at.as_slice();
        if !is_place(&self.store, at) {
            return Ok(false);
        }
        let was = self.store.register(at, key).is_some();
        Ok(self.store.put_value(at, key, id, value)? == was)
    }

    /// Puts `true`, `false` or, for none, `null`.
    fn put_value(&mut self, key: &Key, id: Id, value: Option<bool>) -> Result<bool, AllocError> {
        match value {
            None => self.put(key, id, Value::Null),
            Some(true) => self.put(key, id, Value::True),
            Some(false) => self.put(key, id, Value::False),
        }
    }

    /// The name of the place lasts, and by it the register is found.
    fn put_named(&mut self, key: &Key, id: Id, value: Value) -> Result<bool, AllocError>
        requires { IsPrimitive value }
    {
        let at = self.at.as_slice();
        let Some(place) = name_of(&self.store, at) else {
            return Ok(false);
        };
        let was = self.store.register_by(place, key, ANYWHERE).is_some();
        let told = self.store.put_value_at(place, key, id, value)?;
        Ok(told == was && name_of(&self.store, at) == Some(place))
    }

    /// Puts `true`, `false` or, for none, `null`, by the name of the place.
    fn put_value_named(
        &mut self,
        key: &Key,
        id: Id,
        value: Option<bool>,
    ) -> Result<bool, AllocError> {
        match value {
            None => self.put_named(key, id, Value::Null),
            Some(true) => self.put_named(key, id, Value::True),
            Some(false) => self.put_named(key, id, Value::False),
        }
    }

    fn change_named(&mut self, keys: &Keys, step: &Step) -> Result<bool, AllocError> {
        match step {
            Step::MakeNamed(tag, at) => self.make_named(keys.child(*tag, *at)),
            Step::AddIdNamed(at, id) => self.add_id_named(keys.key(*at), *id),
            Step::PutIdsNamed(at, ids) => self.put_ids_named(keys.key(*at), ids_of(*ids)),
            Step::LinkNamed(at, next) => self.link_named(keys.key(*at), *next),
            Step::PutValuesNamed(at, values) => self.put_values_named(keys, *at, *values),
            Step::PutValueNamed(at, id, value) => self.put_value_named(keys.key(*at), *id, *value),
            _ => Ok(false),
        }
    }

    /// Makes the change.
    pub fn change(&mut self, keys: &Keys, step: &Step) -> Result<bool, AllocError> {
        match step {
            Step::Make(tag, at) => self.make(keys.child(*tag, *at)),
            Step::PutIds(at, ids) => self.put_ids(keys.key(*at), ids_of(*ids)),
            Step::AddId(at, id) => self.add_id(keys.key(*at), *id),
            Step::Link(at, next) => self.link(keys.key(*at), *next),
            Step::PutValues(at, values) => self.put_values(keys, *at, *values),
            Step::PutValue(at, id, value) => self.put_value(keys.key(*at), *id, *value),
            _ => self.change_named(keys, step),
        }
    }

    /// Takes what was changed since the mark back. The name of the place lasts, if the place does.
    pub fn undo_to(&mut self, mark: Mark) -> bool {
        if self.store.mark().changes < mark.changes {
            return false;
        }
        let name = name_of(&self.store, self.at.as_slice());
        self.store.undo_to(mark);
        let left = name_of(&self.store, self.at.as_slice());
        self.store.mark() == mark && (left.is_none() || left == name)
    }

    fn down(&mut self, child: &Tagged) -> Result<bool, AllocError> {
        let child = child.copy()?;
        self.at.push(child)?;
        Ok(true)
    }

    /// Takes so many changes back.
    fn back(&mut self, changes: usize) -> bool {
        match self.store.mark().changes.checked_sub(changes) {
            Some(changes) => self.undo_to(Mark { changes }),
            None => false,
        }
    }

    /// Goes to another place or back.
    pub fn go(&mut self, keys: &Keys, step: &Step) -> Result<bool, AllocError> {
        match step {
            Step::Down(tag, at) => self.down(keys.child(*tag, *at)),
            Step::Up => Ok(self.at.pop().is_some()),
            Step::Back(changes) => Ok(self.back(*changes)),
            Step::ForgetMarks => {
                self.store.forget_marks();
                Ok(true)
            }
            _ => Ok(false),
        }
    }

    pub fn has(&self, child: &Tagged) -> bool {
        let at = self.at.as_slice();
        is_place(&self.store, at) && self.store.has(at, child)
    }

    pub fn has_below(&self, child: &Tagged) -> bool {
        let at = self.at.as_slice();
        let Some(place) = name_of(&self.store, at) else {
            return false;
        };
        self.store.below(place, child).is_some()
    }

    /// Whether one step along a list from the key says what the other calls say, wherever it looks first.
    pub fn steps_alike(&self, key: &Key) -> bool {
        let at = self.at.as_slice();
        let Some(place) = name_of(&self.store, at) else {
            return false;
        };
        let next = self.store.next(at, key);
        let present = self
            .store
            .presence(at, key)
            .is_some_and(|ids| !ids.is_empty());
        for number in HINTS {
            let step = self.store.step_by(place, key, Hint { number });
            if step.next != next || step.present != present {
                return false;
            }
        }
        true
    }

    /// Whether single steps from the key say what the stretch says of the elements behind it.
    fn leads_over(&self, key: &Key, stretch: &Stretch) -> bool
        requires { HasPlace self.now.at.items (S.tree self.now.store) }
    {
        let at = self.at.as_slice();
        let mut next = self.store.next(at, key);
        let mut bits = stretch.bits;
        let mut last = None;
        for _ in 0..stretch.count {
            let Some(Next::Elem(id)) = next else {
                return false;
            };
            let element = Key::Elem(id);
            let ids = self.store.presence(at, &element);
            let present = ids.is_some_and(|ids| !ids.is_empty());
            if present != (bits % 2 == 1) || compare_ids(stretch.least, id).is_gt() {
                return false;
            }
            next = self.store.next(at, &element);
            bits /= 2;
            last = Some(id);
        }
        last == Some(stretch.last)
    }

    /// Whether each stretch from the key leads over no more elements than were asked for, and says of them what
    /// single steps say, wherever the store looks first.
    pub fn leads_alike(&self, key: &Key) -> bool {
        let at = self.at.as_slice();
        let Some(place) = name_of(&self.store, at) else {
            return false;
        };
        for number in HINTS {
            let hint = Hint { number };
            if let Some(stretch) = self.store.stretch_by(place, key, hint, number)
                && !(stretch.count <= number && self.leads_over(key, &stretch))
            {
                return false;
            }
        }
        true
    }

    /// Whether the key's presence set and register are as the other calls say, wherever the store looks first.
    pub fn reads_alike(&self, key: &Key) -> bool {
        let at = self.at.as_slice();
        let Some(place) = name_of(&self.store, at) else {
            return false;
        };
        let ids = self.store.presence(at, key);
        let pairs = self.store.register(at, key);
        for number in HINTS {
            let hint = Hint { number };
            if self.store.presence_by(place, key, hint) != ids
                || self.store.register_by(place, key, hint) != pairs
            {
                return false;
            }
        }
        true
    }

    /// The name of the map or the list, where the store looks first at the hint.
    fn child_by(&self, place: Place, child: &Tagged, hint: Hint) -> Option<Place>
        requires there { HasPlace self.now.at.items (S.tree self.now.store) }
        requires named { S.names self.now.store place self.now.at.items }
    {
        let at = self.at.as_slice();
        match child {
            Tagged::MapT(key) => self.store.map_by(place, key, hint),
            Tagged::ListT(key) => self.store.list_by(place, key, hint),
            Tagged::RegT(_) => None,
        }
    }

    /// Whether the child has the name that it has by its tagged key, wherever the store looks first.
    pub fn is_named_alike(&self, child: &Tagged) -> bool {
        let at = self.at.as_slice();
        let Some(place) = name_of(&self.store, at) else {
            return false;
        };
        let name = self.store.below(place, child);
        for number in HINTS {
            if self.child_by(place, child, Hint { number }) != name {
                return false;
            }
        }
        true
    }

    /// Whether the keys that are lent are these, in this order.
    fn lends(&self, keys: &Keys, want: &[At]) -> Result<bool, AllocError> {
        let at = self.at.as_slice();
        let Some(place) = name_of(&self.store, at) else {
            return Ok(false);
        };
        let lent = self.store.keys_at(keys.alloc, place)?;
        if lent.len() != want.len() {
            return Ok(false);
        }
        for ((key, _), at) in lent.iter().zip(want) {
            if *key != keys.key(*at) {
                return Ok(false);
            }
        }
        Ok(true)
    }

    /// The least key of a part of the place, above the given one.
    pub fn after(&self, of: KeysOf, above: Option<&Key>) -> Option<&Key> {
        let place = name_of(&self.store, self.at.as_slice())?;
        self.store.after_at(place, of, above)
    }

    /// The same, by the path where there is such a call.
    fn after_by_path(&self, of: KeysOf, above: Option<&Key>) -> Option<&Key> {
        let at = self.at.as_slice();
        if !is_place(&self.store, at) {
            return None;
        }
        match of {
            KeysOf::Content => self.store.key_after(at, above),
            KeysOf::Presence => self.store.presence_after(at, above),
            KeysOf::Link => self.after(of, above),
        }
    }

    pub fn count_present(&self) -> Option<usize> {
        let place = name_of(&self.store, self.at.as_slice())?;
        Some(self.store.count_present_at(place))
    }

    fn has_just(&self, keys: &Keys, of: KeysOf, want: &[At]) -> bool {
        let mut last = None;
        for at in want {
            let key = Some(keys.key(*at));
            if self.after(of, last) != key || self.after_by_path(of, last) != key {
                return false;
            }
            last = key;
        }
        self.after(of, last).is_none() && self.after_by_path(of, last).is_none()
    }

    fn has_values(&self, keys: &Keys, key: At, values: Values) -> Result<bool, AllocError> {
        let at = self.at.as_slice();
        if !is_place(&self.store, at) {
            return Ok(false);
        }
        let want = values_of(keys.alloc, values)?;
        let key = keys.key(key);
        Ok(self.store.register(at, key) == Some(want.as_slice()) && self.reads_alike(key))
    }

    fn shows(&self, keys: &Keys, step: &Step) -> bool {
        let at = self.at.as_slice();
        if !is_place(&self.store, at) {
            return false;
        }
        match step {
            Step::HasChild(tag, key, want) => self.has(keys.child(*tag, *key)) == *want,
            Step::HasBelow(tag, key, want) => {
                let child = keys.child(*tag, *key);
                self.has_below(child) == *want && self.is_named_alike(child)
            }
            Step::Ids(key, want) => {
                let key = keys.key(*key);
                self.store.presence(at, key) == *want && self.reads_alike(key)
            }
            Step::CountPresent(want) => self.count_present() == Some(*want),
            Step::Next(key, want) => {
                self.store.next(at, keys.key(*key)) == *want && self.steps_alike(keys.key(*key))
            }
            Step::Values(key, None) => self.store.register(at, keys.key(*key)).is_none(),
            Step::Keys(of, want) => self.has_just(keys, *of, want),
            Step::Changes(want) => self.store.mark().changes == *want,
            _ => false,
        }
    }

    /// Whether the store has what is expected.
    pub fn sees(&self, keys: &Keys, step: &Step) -> Result<bool, AllocError> {
        match step {
            Step::Values(key, Some(values)) => self.has_values(keys, *key, *values),
            Step::Lent(want) => self.lends(keys, want),
            _ => Ok(self.shows(keys, step)),
        }
    }
}
