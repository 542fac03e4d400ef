//! Whether something differs at a place or below it.

ghost use Rattle.std.specs.Prelude.{◌≡◌};
ghost use Rattle.jc_effects.specs.Difference.{is_listed};
ghost use Rattle.jc_effects.specs.Parts.{differences_of, or_nothing};
ghost use Rattle.jc_effects.specs.Places.{part_under, differences_under, differs_at};

use crate::effects::Effects;
use jc_rules::{Key, Tagged};

/// Of what differs in a key's map and in its list the part under the tagged key.
fn part_under<'a>(tagged: &Tagged, map: &'a Effects, list: &'a Effects) -> Option<&'a Effects>
    ensures { or_nothing result ≡ part_under tagged.now (differences_of map.now) (differences_of list.now) }
{
    match tagged {
        Tagged::MapT(_) => Some(map),
        Tagged::ListT(_) => Some(list),
        Tagged::RegT(_) => None,
    }
}

/// What differs in the map or in the list under the tagged key.
fn under<'a>(effects: &'a Effects, tagged: &Tagged) -> Option<&'a Effects>
    ensures { or_nothing result ≡ differences_under tagged.now (differences_of effects.now) }
{
    let mut rest = effects;
    while let Effects::Place(key, _, map, list, more) = rest {
        if key == tagged.key() {
            return part_under(tagged, map, list);
        }
        rest = more;
    }
    None
}

/// Whether something differs at the key of the context, or below it.
fn is_listed(effects: &Effects, key: &Key) -> bool
    ensures { result ≡ is_listed key.now (differences_of effects.now) }
{
    let mut rest = effects;
    while let Effects::Place(own, _, _, _, more) = rest {
        if key == own {
            return true;
        }
        rest = more;
    }
    false
}

/// Whether something differs at the key, in the maps and lists of the path, or below it. It takes no memory.
pub fn differs_at(effects: &Effects, path: &[Tagged], key: &Key) -> bool
    ensures { result ≡ differs_at path.now key.now (differences_of effects.now) }
{
    let mut inside = effects;
    for tagged in path {
        match under(inside, tagged) {
            Some(below) => inside = below,
            None => return false,
        }
    }
    is_listed(inside, key)
}
