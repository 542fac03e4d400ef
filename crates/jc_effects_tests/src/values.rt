//! Effects as values.

use crate::networks::effects_of_last;
use jc_effects::{Effects, OwnEffects, Tags, differs_at};
use jc_rules::{Id, Key, Tagged, Value};
use jc_scenario::read;
use std::alloc::Global;
use std::process::Abort;
use std::test::Fail;

const SECOND: Id = Id {
    counter: 2,
    replica: 0,
};

/// The first element of a list is deleted.
const DELETION: &str =
    "jsoncrdt 1 replica a { doc := []; doc.idx(0).insertAfter(true); doc.idx(1).delete } schedule { a.exec; a.exec; a.exec }";

/// Whether the identifier was lost with its value, and nothing else differs.
fn is_deleted(own: &OwnEffects) -> bool {
    own.gained.is_empty()
        && own.lost.as_slice() == [SECOND].as_slice()
        && own.made
            == (Tags {
                map: false,
                list: false,
                register: false,
            })
        && own.next.is_none()
        && own.shown == Some(false)
        && own.taken.as_slice() == [(SECOND, Value::True)].as_slice()
        && own.written.is_empty()
}

/// Whether the element alone differs.
fn is_element(effects: &Effects) -> bool {
    match effects {
        Effects::Nothing => false,
        Effects::Place(key, own, map, list, rest) => {
            *key == Key::Elem(SECOND)
                && is_deleted(own)
                && map.is_nothing()
                && list.is_nothing()
                && rest.is_nothing()
        }
    }
}

/// Whether an element of the document's list differs, and nothing else.
fn is_in_list(effects: &Effects) -> bool {
    match effects {
        Effects::Nothing => false,
        Effects::Place(key, own, map, list, rest) => {
            *key == Key::Doc
                && own.is_quiet()
                && map.is_nothing()
                && is_element(list)
                && rest.is_nothing()
        }
    }
}

/// Whether something differs at the element under the tagged key, or below it.
fn differs_under(effects: &Effects, tagged: Tagged) -> bool {
    differs_at(effects, [tagged].as_slice(), &Key::Elem(SECOND))
}

/// Whether something differs at or below the document, and at the element of its list alone.
fn differs_there_alone(effects: &Effects) -> bool {
    differs_at(effects, &[], &Key::Doc)
        && !differs_at(effects, &[], &Key::Elem(SECOND))
        && differs_under(effects, Tagged::ListT(Key::Doc))
        && !differs_under(effects, Tagged::MapT(Key::Doc))
        && !differs_under(effects, Tagged::RegT(Key::Doc))
        && !differs_under(effects, Tagged::ListT(Key::Head))
}

fn is_deletion(rt: &impl Abort, alloc: Global) -> Result<(), Fail> {
    let scenario = read(alloc, DELETION.as_bytes())?;
    let effects = effects_of_last(rt, alloc, &scenario)?;
    assert!(rt; !effects.is_nothing());
    assert!(rt; is_in_list(&effects));
    assert!(rt; differs_there_alone(&effects));
    Ok(())
}

#[test]
fn a_deleted_element(rt: HostRuntime) -> Result<(), Fail> {
    is_deletion(&rt, rt.alloc())
}
