//! What is done with a store at a place, and expected of it.

use crate::keys::{At, Set, Tag, Values};
use jc_rules::{Id, Next};
use jc_tree::KeysOf;

/// A change of a store, a way to another place or back, or what is expected.
#[derive(Clone, Copy)]
pub enum Step<'a> {
    /// Makes a child, by its path and by the name of its place.
    Make(Tag, At),
    MakeNamed(Tag, At),
    /// Sets the identifiers, by the path and by the name of the place.
    PutIds(At, Set),
    PutIdsNamed(At, Set),
    /// Adds an identifier, by the path and by the name of the place.
    AddId(At, Id),
    AddIdNamed(At, Id),
    Link(At, Next),
    LinkNamed(At, Next),
    PutValues(At, Values),
    PutValuesNamed(At, Values),
    /// Puts `true`, `false` or, for none, `null`.
    PutValue(At, Id, Option<bool>),
    PutValueNamed(At, Id, Option<bool>),
    /// Goes down to a child, and up again.
    Down(Tag, At),
    Up,
    /// Takes so many changes back.
    Back(usize),
    ForgetMarks,
    HasChild(Tag, At, bool),
    /// The child is a map or a list, and has a name.
    HasBelow(Tag, At, bool),
    Ids(At, Option<&'a [Id]>),
    CountPresent(usize),
    Next(At, Option<Next>),
    Values(At, Option<Values>),
    /// The keys of a kind, from the least to the greatest.
    Keys(KeysOf, &'a [At]),
    /// The keys that are lent, by the name of the place.
    Lent(&'a [At]),
    /// How many changes there are since the marks were last forgotten.
    Changes(usize),
}
