//! The places that differ, as a value.

ghost use Rattle.std.specs.Prelude.{◌≡◌, IfOk};
ghost use Rattle.jc_effects.specs.Difference.{is_no_difference};
ghost use Rattle.jc_effects.specs.Parts.{own_seen, differences_of, with_difference};

use crate::own::OwnEffects;
use jc_rules::Key;
use std::alloc::{AllocError, Global};

/// The places of a context that differ, rising by key. A place is a key, what differs of its own entries, and the
/// places that differ in its map and in its list; behind it come the others.
pub enum Effects {
    Nothing,
    Place(Key, OwnEffects, Box<Effects>, Box<Effects>, Box<Effects>),
}

impl Drop for Effects {
    fn drop(mut self) {
        loop {
            match self {
                Effects::Nothing => return,
                Effects::Place(_, _, _, _, rest) => self = Box::into_inner(rest),
            }
        }
    }
}

impl Effects {
    /// Whether no place differs.
    pub fn is_nothing(&self) -> bool
        ensures { result ≡ is_no_difference (differences_of self.now) }
    {
        matches!(self, Effects::Nothing)
    }
}

/// With a place in front of the others, if something differs there.
pub(crate) fn with_place(
    alloc: Global,
    key: &Key,
    own: OwnEffects,
    map: Effects,
    list: Effects,
    rest: Effects,
) -> Result<Effects, AllocError>
    ensures { IfOk result (λ effects. differences_of effects
        ≡ with_difference key.now (own_seen key.now own) (differences_of map) (differences_of list) (differences_of rest)) }
{
    if own.is_quiet() && map.is_nothing() && list.is_nothing() {
        return Ok(rest);
    }
    let key = key.copy()?;
    let map = Box::new(alloc, map)?;
    let list = Box::new(alloc, list)?;
    let rest = Box::new(alloc, rest)?;
    Ok(Effects::Place(key, own, map, list, rest))
}
