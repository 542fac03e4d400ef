//! Writes the places that differ as JSON.

ghost use Rattle.std.specs.Prelude.{◌≡◌, ◌++◌, ◌∷◌, [], codes, cond, map, OnOk};
ghost use Rattle.json.specs.Token as T;
ghost use Rattle.json.specs.Tree.{json_tokens};
ghost use Rattle.jc_rules.specs.declared.key.Key.{Key as AnyKey};
ghost use Rattle.jc_json.specs.Gains.{Gains};
ghost use Rattle.jc_effects.specs.Parts.{own_seen, differences_of, tags_made, labelled_tokens, item_tokens, first_place_tokens, front_members, middle_members, back_members};
ghost use Rattle.jc_effects.specs.EffectsJson.{as_items, id_json, some_ids, some_pairs, some_items, some_tags, link_json, some_links, if_shown, place_items, effects_json};

use crate::effects::Effects;
use crate::own::{OwnEffects, Tags};
use jc_json::{Numbers, key_text, write_id, write_ids, write_pairs};
use jc_rules::{Id, Key, Next, Text, Value};
use json::Writer;
use std::alloc::{AllocError, Global};

/// Writes a list of identifiers as a member, unless it is empty.
fn write_some_ids(
    alloc: Global,
    names: &[Text],
    name: &str,
    ids: &[Id],
    out: &mut Writer,
) -> Result<(), AllocError>
    ensures { OnOk result (Gains out.old out.new (labelled_tokens (some_ids names.now name.now ids.now))) }
{
    if ids.is_empty() {
        return Ok(());
    }
    out.key(name)?;
    write_ids(alloc, names, ids, out)
}

/// Writes a list of pairs as a member, unless it is empty.
fn write_some_pairs(
    alloc: Global,
    names: &[Text],
    name: &str,
    pairs: &[(Id, Value)],
    out: &mut Writer,
) -> Result<(), AllocError>
    ensures { OnOk result (Gains out.old out.new (labelled_tokens (some_pairs names.now name.now pairs.now))) }
{
    if pairs.is_empty() {
        return Ok(());
    }
    out.key(name)?;
    write_pairs(alloc, names, pairs, Numbers::Named, out)
}

/// Writes the word, if it is meant.
fn write_word(word: &str, meant: bool, out: &mut Writer) -> Result<(), AllocError>
    ensures { OnOk result (Gains out.old out.new (cond meant (T.string word.now ∷ []) [])) }
{
    if meant { out.string(word) } else { Ok(()) }
}

/// Writes which tags were made as a member, unless none was.
fn write_made(made: Tags, out: &mut Writer) -> Result<(), AllocError>
    ensures { (k : AnyKey) → OnOk result (Gains out.old out.new (labelled_tokens (some_tags (tags_made k made)))) }
{
    if !made.map && !made.list && !made.register {
        return Ok(());
    }
    out.key("made")?;
    out.begin_array()?;
    write_word("map", made.map, out)?;
    write_word("list", made.list, out)?;
    write_word("register", made.register, out)?;
    out.end_array()
}

/// Writes what follows a key, where something does.
fn write_link(
    alloc: Global,
    names: &[Text],
    link: Option<Next>,
    out: &mut Writer,
) -> Result<(), AllocError>
    ensures { OnOk result (Gains out.old out.new (json_tokens (link_json names.now link))) }
{
    match link {
        None => out.null(),
        Some(Next::Tail) => out.string("tail"),
        Some(Next::Elem(id)) => write_id(alloc, names, id, out),
    }
}

/// Writes what followed the key and what follows it now as a member, where that differs.
fn write_links(
    alloc: Global,
    names: &[Text],
    links: Option<(Option<Next>, Option<Next>)>,
    out: &mut Writer,
) -> Result<(), AllocError>
    ensures { OnOk result (Gains out.old out.new (labelled_tokens (some_links names.now links))) }
{
    let Some((was, now)) = links else {
        return Ok(());
    };
    out.key("next")?;
    out.begin_array()?;
    write_link(alloc, names, was, out)?;
    write_link(alloc, names, now, out)?;
    out.end_array()
}

/// Writes whether the place is shown now as a member, where that differs.
fn write_shown(shown: Option<bool>, out: &mut Writer) -> Result<(), AllocError>
    ensures { OnOk result (Gains out.old out.new (labelled_tokens (if_shown shown))) }
{
    let Some(shown) = shown else {
        return Ok(());
    };
    out.key("shown")?;
    out.boolean(shown)
}

/// Writes the members of a place before `list`.
fn write_front(
    alloc: Global,
    names: &[Text],
    key: &Key,
    own: &OwnEffects,
    out: &mut Writer,
) -> Result<(), AllocError>
    ensures { OnOk result (Gains out.old out.new
        (labelled_tokens (front_members names.now key.now (own_seen key.now own.now)))) }
{
    write_some_ids(alloc, names, "gained", own.gained.as_slice(), out)?;
    let text = key_text(alloc, names, key)?;
    out.key("key")?;
    out.string(text.as_str())
}

/// Writes the members of a place between `list` and `map`.
fn write_middle(
    alloc: Global,
    names: &[Text],
    own: &OwnEffects,
    out: &mut Writer,
) -> Result<(), AllocError>
    ensures { (k : AnyKey) → OnOk result (Gains out.old out.new
        (labelled_tokens (middle_members names.now (own_seen k own.now)))) }
{
    write_some_ids(alloc, names, "lost", own.lost.as_slice(), out)?;
    write_made(own.made, out)
}

/// Writes the members of a place behind `map`.
fn write_back(
    alloc: Global,
    names: &[Text],
    own: &OwnEffects,
    out: &mut Writer,
) -> Result<(), AllocError>
    ensures { (k : AnyKey) → OnOk result (Gains out.old out.new
        (labelled_tokens (back_members names.now (own_seen k own.now)))) }
{
    write_links(alloc, names, own.next, out)?;
    write_shown(own.shown, out)?;
    write_some_pairs(alloc, names, "taken", own.taken.as_slice(), out)?;
    write_some_pairs(alloc, names, "written", own.written.as_slice(), out)
}

/// Writes places as a member, unless there are none.
#[cycle(places)]
fn write_inside(
    alloc: Global,
    names: &[Text],
    name: &str,
    effects: &Effects,
    out: &mut Writer,
) -> Result<(), AllocError>
    ensures { OnOk result (Gains out.old out.new
        (labelled_tokens (some_items name.now (place_items names.now (differences_of effects.now))))) }
{
    if effects.is_nothing() {
        return Ok(());
    }
    out.key(name)?;
    out.begin_array()?;
    write_places(alloc, names, effects, out)?;
    out.end_array()
}

/// Writes the first of the places, if there is one.
#[cycle(places)]
fn write_first(
    alloc: Global,
    names: &[Text],
    effects: &Effects,
    out: &mut Writer,
) -> Result<(), AllocError>
    ensures { OnOk result (Gains out.old out.new (first_place_tokens names.now (differences_of effects.now))) }
{
    let Effects::Place(key, own, map, list, _) = effects else {
        return Ok(());
    };
    out.begin_object()?;
    write_front(alloc, names, key, own, out)?;
    write_inside(alloc, names, "list", list, out)?;
    write_middle(alloc, names, own, out)?;
    write_inside(alloc, names, "map", map, out)?;
    write_back(alloc, names, own, out)?;
    out.end_object()
}

/// Writes the places, one after another.
#[cycle(places)]
fn write_places(
    alloc: Global,
    names: &[Text],
    effects: &Effects,
    out: &mut Writer,
) -> Result<(), AllocError>
    ensures { OnOk result (Gains out.old out.new (item_tokens (place_items names.now (differences_of effects.now)))) }
{
    let mut effects = effects;
    while let Effects::Place(_, _, _, _, rest) = effects {
        write_first(alloc, names, effects, out)?;
        effects = rest;
    }
    Ok(())
}

/// Writes what differs: the list of all places. `names` has the name of each replica at its number.
pub fn write_effects(
    alloc: Global,
    names: &[Text],
    effects: &Effects,
    out: &mut Writer,
) -> Result<(), AllocError>
    ensures { OnOk result (Gains out.old out.new
        (json_tokens (effects_json names.now (differences_of effects.now)))) }
{
    out.begin_array()?;
    write_places(alloc, names, effects, out)?;
    out.end_array()
}
