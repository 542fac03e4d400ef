//! One walk over both stores: changes, ways down and up, and ways back, as if by chance. After each step what is at
//! the place is compared, and after each hundred all that is below the root.

use crate::keys::{At, FIRST, Keys, SECOND, Set, Tag, Values};
use crate::steps::Step;
use crate::twins::Twins;
use jc_rules::Next;
use jc_tree::TreeStore;
use std::alloc::AllocError;
use std::process::Abort;

const STEPS: u64 = 2_000;

/// How deep the walk goes.
const DEEPEST: usize = 6;

/// The number after this one, of which the greater half looks like chance.
pub fn next_number(number: u64) -> u64 {
    number
        .wrapping_mul(6_364_136_223_846_793_005)
        .wrapping_add(1_442_695_040_888_963_407)
}

fn key_of(number: u64) -> At {
    match number % 6 {
        0 => At::Doc,
        1 => At::Head,
        2 => At::A,
        3 => At::A1,
        4 => At::First,
        _ => At::Second,
    }
}

fn tag_of(number: u64) -> Tag {
    match number % 3 {
        0 => Tag::Map,
        1 => Tag::List,
        _ => Tag::Register,
    }
}

/// The change that a number chooses, of the key, by its path.
fn change_of(number: u64, at: At) -> Step<'static> {
    match number {
        0 => Step::PutIds(at, Set::First),
        1 => Step::PutIds(at, Set::Empty),
        2 => Step::AddId(at, FIRST),
        3 => Step::AddId(at, SECOND),
        4 => Step::Link(at, Next::Elem(SECOND)),
        5 => Step::PutValues(at, Values::Three),
        6 => Step::PutValues(at, Values::Nothing),
        7 => Step::PutValue(at, FIRST, Some(false)),
        _ => Step::PutValue(at, SECOND, Some(false)),
    }
}

/// The same change, by the name of its place.
fn named(step: Step<'static>) -> Step<'static> {
    match step {
        Step::PutIds(at, ids) => Step::PutIdsNamed(at, ids),
        Step::AddId(at, id) => Step::AddIdNamed(at, id),
        Step::Link(at, next) => Step::LinkNamed(at, next),
        Step::PutValues(at, values) => Step::PutValuesNamed(at, values),
        Step::PutValue(at, id, value) => Step::PutValueNamed(at, id, value),
        other => other,
    }
}

impl Twins {
    /// Makes the child, by path or by name, where there is none.
    fn make_new(&mut self, keys: &Keys, tag: Tag, at: At, number: u64) -> Result<bool, AllocError> {
        if self.plain.has(keys.child(tag, at)) {
            return Ok(true);
        }
        match tag {
            Tag::Map | Tag::List if number % 2 == 0 => self.change(keys, &Step::MakeNamed(tag, at)),
            _ => self.change(keys, &Step::Make(tag, at)),
        }
    }

    /// Goes down to the child, where there is one that has places.
    fn go_down(&mut self, keys: &Keys, tag: Tag, at: At) -> Result<bool, AllocError> {
        let is_deep = self.plain.at.len() == DEEPEST || matches!(tag, Tag::Register);
        if is_deep || !self.plain.has(keys.child(tag, at)) {
            return Ok(true);
        }
        self.go(keys, &Step::Down(tag, at))
    }

    /// Goes back so many changes, or to the first, and up to the root.
    fn go_back(&mut self, keys: &Keys, number: u64) -> Result<bool, AllocError> {
        self.plain.at.clear();
        self.arena.at.clear();
        let changes = self.plain.store.mark().changes;
        let back = (number % 40) as usize;
        self.go(keys, &Step::Back(back.min(changes)))
    }

    /// The step that a number chooses.
    fn wander(&mut self, keys: &Keys, number: u64) -> Result<bool, AllocError> {
        let (at, tag) = (key_of(number / 16), tag_of(number / 128));
        match number % 14 {
            9 | 10 => self.make_new(keys, tag, at, number / 512),
            11 => self.go_down(keys, tag, at),
            12 if self.plain.at.is_empty() => Ok(true),
            12 => self.go(keys, &Step::Up),
            13 => self.go_back(keys, number / 128),
            change if number / 512 % 2 == 0 => self.change(keys, &change_of(change, at)),
            change => self.change(keys, &named(change_of(change, at))),
        }
    }

    /// Whether the same is at the place and so many levels below it.
    fn is_same_below(&mut self, keys: &Keys, levels: usize) -> Result<bool, AllocError> {
        if !self.is_same(keys) {
            return Ok(false);
        }
        if levels == 0 {
            return Ok(true);
        }
        for number in 0..12 {
            let (at, tag) = (key_of(number / 2), tag_of(number % 2));
            if !self.plain.has(keys.child(tag, at)) {
                continue;
            }
            let is = self.go(keys, &Step::Down(tag, at))?
                && self.is_same_below(keys, levels - 1)?
                && self.go(keys, &Step::Up)?;
            if !is {
                return Ok(false);
            }
        }
        Ok(true)
    }

    /// Takes a step, and compares.
    fn walk(&mut self, rt: &impl Abort, keys: &Keys, number: u64) -> Result<(), AllocError> {
        let is = self.wander(keys, number)? && self.is_same(keys);
        assert!(rt; is, "{number}");
        Ok(())
    }

    /// Expects the same everywhere. It leaves the places at the root.
    fn expect_same(&mut self, rt: &impl Abort, keys: &Keys) -> Result<(), AllocError> {
        self.plain.at.clear();
        self.arena.at.clear();
        let is = self.is_same_below(keys, DEEPEST)?;
        assert!(rt; is);
        Ok(())
    }
}

/// Takes the walk.
pub fn walk_all(rt: &impl Abort, keys: &Keys, twins: &mut Twins) -> Result<(), AllocError> {
    let mut number = 1;
    for step in 0..STEPS {
        number = next_number(number);
        twins.walk(rt, keys, number >> 32)?;
        if step % 100 == 99 {
            twins.expect_same(rt, keys)?;
        }
    }
    Ok(())
}
