//! Each call of a store once where memory is ample, marks, and changes taken back one by one and at once: at the root and
//! three levels down.

use crate::keys::{At, FIRST, Keys, SECOND, Set, Tag, Values};
use crate::steps::Step;
use crate::turns::{Steps, Turn, in_new_stores};
use crate::twins::Twins;
use jc_rules::Next;
use jc_tree::KeysOf;
use std::alloc::AllocError;
use std::process::Abort;

const CHILDREN: &[Step] = &[
    Step::HasChild(Tag::Map, At::Doc, false),
    Step::Make(Tag::Map, At::Doc),
    Step::HasChild(Tag::Map, At::Doc, true),
    Step::HasChild(Tag::List, At::Doc, false),
    Step::Make(Tag::List, At::Doc),
    Step::Down(Tag::List, At::Doc),
    Step::Next(At::Head, Some(Next::Tail)),
];

const PRESENCES: &[Step] = &[
    Step::Ids(At::Doc, None),
    Step::PutIds(At::Doc, Set::Both),
    Step::Ids(At::Doc, Some(&[FIRST, SECOND])),
    Step::Ids(At::Head, None),
    Step::PutIds(At::Doc, Set::Empty),
    Step::Ids(At::Doc, Some(&[])),
];

/// The last identifier is added again.
const ADDED_IDS: &[Step] = &[
    Step::AddId(At::Doc, SECOND),
    Step::AddId(At::Doc, FIRST),
    Step::AddId(At::Doc, FIRST),
    Step::Changes(3),
    Step::Ids(At::Doc, Some(&[FIRST, SECOND])),
    Step::Back(1),
    Step::Ids(At::Doc, Some(&[FIRST, SECOND])),
    Step::Back(1),
    Step::Ids(At::Doc, Some(&[SECOND])),
];

const LINKS: &[Step] = &[
    Step::Next(At::Head, None),
    Step::Link(At::Head, Next::Elem(FIRST)),
    Step::Link(At::First, Next::Tail),
    Step::Next(At::Head, Some(Next::Elem(FIRST))),
    Step::Next(At::First, Some(Next::Tail)),
];

const REGISTERS: &[Step] = &[
    Step::Values(At::Doc, None),
    Step::PutValues(At::Doc, Values::Three),
    Step::Values(At::Doc, Some(Values::Three)),
    Step::Values(At::Head, None),
    Step::HasChild(Tag::Register, At::Doc, true),
    Step::PutValues(At::Doc, Values::Nothing),
    Step::Values(At::Doc, Some(Values::Nothing)),
    Step::Back(2),
    Step::Values(At::Doc, None),
];

/// The last value is put under an identifier that has one.
const PUT_VALUES: &[Step] = &[
    Step::PutValue(At::Doc, SECOND, None),
    Step::PutValueNamed(At::Doc, FIRST, Some(true)),
    Step::Values(At::Doc, Some(Values::TrueAndNull)),
    Step::PutValue(At::Doc, FIRST, Some(false)),
    Step::Values(At::Doc, Some(Values::FalseAndNull)),
    Step::Back(1),
    Step::Values(At::Doc, Some(Values::TrueAndNull)),
    Step::Back(1),
    Step::Values(At::Doc, Some(Values::Null)),
    Step::Back(1),
    Step::Values(At::Doc, None),
];

/// A map under `a1`, a list under an element, a register under `a`, and a presence set alone under `doc`.
const CHILD_KEYS: &[Step] = &[
    Step::Make(Tag::Map, At::A1),
    Step::Make(Tag::List, At::First),
    Step::PutValues(At::A, Values::Nothing),
    Step::PutIds(At::Doc, Set::Empty),
    Step::Keys(KeysOf::Content, &[At::A, At::A1, At::First]),
];

const PRESENCE_KEYS: &[Step] = &[
    Step::Keys(KeysOf::Presence, &[]),
    Step::PutIdsNamed(At::A, Set::First),
    Step::PutIds(At::Doc, Set::Empty),
    Step::Keys(KeysOf::Presence, &[At::Doc, At::A]),
];

const LINK_KEYS: &[Step] = &[
    Step::Keys(KeysOf::Link, &[]),
    Step::LinkNamed(At::First, Next::Tail),
    Step::Link(At::Head, Next::Elem(FIRST)),
    Step::Keys(KeysOf::Link, &[At::Head, At::First]),
];

/// Each kind of entry under a key of its own, the greatest key first, and two under one.
const LENT: &[Step] = &[
    Step::Lent(&[]),
    Step::Make(Tag::List, At::Second),
    Step::PutIds(At::First, Set::Empty),
    Step::PutValues(At::A1, Values::Nothing),
    Step::Make(Tag::Map, At::A),
    Step::Link(At::Head, Next::Elem(FIRST)),
    Step::Lent(&[At::Head, At::A, At::A1, At::First, At::Second]),
    Step::PutIds(At::A, Set::Both),
    Step::PutIds(At::Doc, Set::First),
    Step::Lent(&[At::Doc, At::Head, At::A, At::A1, At::First, At::Second]),
    Step::Ids(At::A, Some(&[FIRST, SECOND])),
    Step::Ids(At::First, Some(&[])),
    Step::Ids(At::Second, None),
    Step::Values(At::A1, Some(Values::Nothing)),
    Step::HasBelow(Tag::Map, At::A, true),
    Step::HasBelow(Tag::List, At::A, false),
    Step::HasBelow(Tag::List, At::Second, true),
    Step::HasBelow(Tag::Map, At::Second, false),
    Step::Back(3),
    Step::Lent(&[At::A, At::A1, At::First, At::Second]),
    Step::Ids(At::A, None),
];

/// Sets that get their first identifier and lose their last one, forwards and back.
const COUNTED: &[Step] = &[
    Step::CountPresent(0),
    Step::PutIds(At::Head, Set::Empty),
    Step::CountPresent(0),
    Step::AddId(At::Head, FIRST),
    Step::AddId(At::Head, SECOND),
    Step::CountPresent(1),
    Step::AddId(At::Doc, FIRST),
    Step::CountPresent(2),
    Step::PutIds(At::Head, Set::Empty),
    Step::CountPresent(1),
    Step::PutIds(At::Doc, Set::Second),
    Step::CountPresent(1),
    Step::Back(2),
    Step::CountPresent(2),
    Step::Back(3),
    Step::CountPresent(0),
];

const MARKS: &[Step] = &[
    Step::Make(Tag::Map, At::Doc),
    Step::PutIds(At::Doc, Set::First),
    Step::Ids(At::Doc, Some(&[FIRST])),
    Step::Back(1),
    Step::HasChild(Tag::Map, At::Doc, true),
    Step::Ids(At::Doc, None),
    Step::Next(At::Head, None),
    Step::Values(At::Doc, None),
    Step::Changes(1),
    Step::ForgetMarks,
    Step::Changes(0),
    Step::HasChild(Tag::Map, At::Doc, true),
];

/// What is there is replaced, and is there again when that is taken back.
const REPLACED: &[Step] = &[
    Step::PutIds(At::Doc, Set::First),
    Step::PutIds(At::Doc, Set::Second),
    Step::Ids(At::Doc, Some(&[SECOND])),
    Step::Back(1),
    Step::Ids(At::Doc, Some(&[FIRST])),
    Step::LinkNamed(At::Head, Next::Tail),
    Step::Link(At::Head, Next::Elem(FIRST)),
    Step::Back(1),
    Step::Next(At::Head, Some(Next::Tail)),
];

/// Lists and maps in one another, a list with its head linked to its end.
const MADE_BY_NAME: &[Step] = &[
    Step::MakeNamed(Tag::List, At::Doc),
    Step::Down(Tag::List, At::Doc),
    Step::Next(At::Head, Some(Next::Tail)),
    Step::MakeNamed(Tag::Map, At::First),
    Step::Down(Tag::Map, At::First),
    Step::Next(At::Head, None),
    Step::MakeNamed(Tag::Map, At::Doc),
    Step::Down(Tag::Map, At::Doc),
    Step::PutValuesNamed(At::Doc, Values::Nothing),
    Step::Up,
    Step::HasChild(Tag::Map, At::Doc, true),
    Step::Up,
    Step::HasChild(Tag::Map, At::Doc, false),
    Step::Up,
    Step::Back(4),
    Step::HasBelow(Tag::List, At::Doc, false),
];

/// Names are those of maps and lists that are there, made by path.
const NAMED: &[Step] = &[
    Step::Make(Tag::Map, At::Doc),
    Step::Make(Tag::List, At::Second),
    Step::PutValuesNamed(At::Head, Values::Three),
    Step::HasBelow(Tag::Map, At::Doc, true),
    Step::HasBelow(Tag::List, At::Doc, false),
    Step::HasBelow(Tag::List, At::Second, true),
    Step::HasBelow(Tag::Register, At::Head, false),
    Step::HasBelow(Tag::Map, At::Head, false),
];

/// Identifiers in the sets of one key at two places, whose names last.
const IDS_BY_NAME: &[Step] = &[
    Step::AddIdNamed(At::Doc, SECOND),
    Step::AddIdNamed(At::Doc, FIRST),
    Step::MakeNamed(Tag::Map, At::Doc),
    Step::Down(Tag::Map, At::Doc),
    Step::Ids(At::Doc, None),
    Step::AddIdNamed(At::Doc, FIRST),
    Step::Ids(At::Doc, Some(&[FIRST])),
    Step::Up,
    Step::AddIdNamed(At::Doc, FIRST),
    Step::Ids(At::Doc, Some(&[FIRST, SECOND])),
];

/// Four changes, and the way down.
const FOUR_CHANGES: &[Step] = &[
    Step::PutIds(At::Doc, Set::First),
    Step::Ids(At::Doc, Some(&[FIRST])),
    Step::Link(At::Head, Next::Tail),
    Step::Next(At::Head, Some(Next::Tail)),
    Step::PutValues(At::Doc, Values::Three),
    Step::HasChild(Tag::Register, At::Doc, true),
    Step::Make(Tag::Map, At::Doc),
    Step::HasChild(Tag::Map, At::Doc, true),
    Step::Down(Tag::Map, At::Doc),
];

/// The way up, and the four changes taken back one by one.
const EACH_TAKEN_BACK: &[Step] = &[
    Step::Up,
    Step::HasChild(Tag::Map, At::Doc, true),
    Step::Back(1),
    Step::HasChild(Tag::Map, At::Doc, false),
    Step::HasChild(Tag::Register, At::Doc, true),
    Step::Back(1),
    Step::Values(At::Doc, None),
    Step::Next(At::Head, Some(Next::Tail)),
    Step::Back(1),
    Step::Next(At::Head, None),
    Step::Ids(At::Doc, Some(&[FIRST])),
    Step::Back(1),
    Step::Ids(At::Doc, None),
];

const ALL_TAKEN_BACK: &[Step] = &[
    Step::Changes(20),
    Step::Up,
    Step::Up,
    Step::Up,
    Step::Up,
    Step::Up,
    Step::Back(20),
    Step::Ids(At::Doc, None),
    Step::Next(At::Head, None),
    Step::Values(At::Doc, None),
    Step::HasChild(Tag::Map, At::Doc, false),
    Step::Changes(0),
];

const TABLES: &[(&str, &[Step])] = &[
    ("children", CHILDREN),
    ("presences", PRESENCES),
    ("added identifiers", ADDED_IDS),
    ("links", LINKS),
    ("registers", REGISTERS),
    ("put values", PUT_VALUES),
    ("keys of children", CHILD_KEYS),
    ("keys of presences", PRESENCE_KEYS),
    ("keys of links", LINK_KEYS),
    ("lent", LENT),
    ("counted", COUNTED),
    ("marks", MARKS),
    ("replaced", REPLACED),
    ("made by name", MADE_BY_NAME),
    ("named", NAMED),
    ("identifiers by name", IDS_BY_NAME),
];

const HERE: &[Step] = &[];

/// Three levels down, in a list's element.
const THREE_DOWN: &[Step] = &[
    Step::Make(Tag::Map, At::Doc),
    Step::Down(Tag::Map, At::Doc),
    Step::Make(Tag::List, At::A),
    Step::Down(Tag::List, At::A),
    Step::Make(Tag::Map, At::First),
    Step::Down(Tag::Map, At::First),
    Step::ForgetMarks,
];

/// Takes the steps of each table at the place to which the way leads, in stores of its own.
fn play_all(rt: &impl Abort, keys: &Keys, way: Steps) -> Result<(), AllocError> {
    for (title, steps) in TABLES {
        in_new_stores(rt, keys, &Turn::Steps(title, way, steps))?;
    }
    Ok(())
}

pub fn worked_steps(rt: &impl Abort, keys: &Keys) -> Result<(), AllocError> {
    play_all(rt, keys, HERE)?;
    play_all(rt, keys, THREE_DOWN)
}

fn five_times(
    rt: &impl Abort,
    keys: &Keys,
    twins: &mut Twins,
    steps: &[Step],
) -> Result<(), AllocError> {
    for _ in 0..5 {
        twins.play(rt, keys, "five times", steps)?;
    }
    Ok(())
}

/// Twenty changes at five depths are taken back one by one, and all at once.
pub fn change_and_undo(
    rt: &impl Abort,
    keys: &Keys,
    twins: &mut Twins,
    way: &[Step],
) -> Result<(), AllocError> {
    twins.play(rt, keys, "way", way)?;
    five_times(rt, keys, twins, FOUR_CHANGES)?;
    five_times(rt, keys, twins, EACH_TAKEN_BACK)?;
    five_times(rt, keys, twins, FOUR_CHANGES)?;
    twins.play(rt, keys, "at once", ALL_TAKEN_BACK)
}

pub fn many_changes(rt: &impl Abort, keys: &Keys) -> Result<(), AllocError> {
    in_new_stores(rt, keys, &Turn::Changes(HERE))?;
    in_new_stores(rt, keys, &Turn::Changes(THREE_DOWN))
}
