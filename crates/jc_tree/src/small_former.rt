//! The undo records that the fast store keeps, one for each change. Few changes replace a value, so what was replaced
//! is in a box of its own, and the parts of an identifier are fields beside it: so a record is small.

ghost use Rattle.std.specs.Prelude.{◌≡◌, ◌≢◌, Some, None, OnOk};
ghost use Rattle.jc_rules.specs.Paths.{HasContext};
ghost use Rattle.jc_tree.specs.Arena.{former_of_node};
ghost use Rattle.jc_tree.specs.SmallFormers.{former_of_form, kept_value, pairs_kept, value_kept, ids_kept};

use crate::ids::Ids;
use crate::lists::Pairs;
use crate::node::Former;
use jc_rules::{Id, Key, Next, Tagged, Value};
use std::alloc::{AllocError, Global};
use std::marker::Model;

/// Which record it is. A record of a link says by its kind what followed the key.
#[derive(Clone, Copy)]
pub enum Kind {
    Map,
    List,
    Register,
    Value,
    Presence,
    NoLink,
    Tail,
    Elem,
    NoId,
    Same,
}

/// What a change replaced.
#[derive(Drop)]
pub enum Kept {
    Nothing,
    Register(Pairs),
    Value(Value),
    Presence(Ids),
}

/// Room for what a change replaces.
pub type Room = Option<Box<Kept>>;

/// An undo record, as `Former` has it.
#[derive(Drop)]
pub struct SmallFormer {
    key: Key,
    counter: u64,
    kept: Room,
    replica: u16,
    kind: Kind,
}

impl Model for SmallFormer {
    ghost use Rattle.jc_tree.specs.declared.node.Former.{Former};
    ghost use Rattle.jc_tree.specs.SmallFormers.{former_of_form, kept_value};

    ghost Value = { Former };

    ghost view = { λ a. former_of_form a.kind a.key (record { counter = a.counter; replica = a.replica })
        (kept_value a.kept) };
}

/// The room with what was replaced in it, if anything was: then it is taken out.
fn filled(room: &mut Room, kept: Option<Kept>) -> Room
    requires { room.old ≢ None }
    ensures { kept_value result ≡ kept }
{
    let kept = kept?;
    let mut filled = room.take();
    if let Some(inside) = &mut filled {
        **inside = kept;
    }
    filled
}

/// The register that was replaced, if one was.
fn pairs_in(kept: Room) -> Option<Pairs>
    ensures { result ≡ pairs_kept (kept_value kept) }
{
    match Box::into_inner(kept?) {
        Kept::Register(pairs) => Some(pairs),
        _ => None,
    }
}

/// The value that was replaced, if one was.
fn value_in(kept: Room) -> Option<Value>
    ensures { result ≡ value_kept (kept_value kept) }
{
    match Box::into_inner(kept?) {
        Kept::Value(value) => Some(value),
        _ => None,
    }
}

/// The presence set that was replaced, if one was.
fn ids_in(kept: Room) -> Option<Ids>
    ensures { result ≡ ids_kept (kept_value kept) }
{
    match Box::into_inner(kept?) {
        Kept::Presence(ids) => Some(ids),
        _ => None,
    }
}

/// The undo record of a new node under a tagged key.
pub fn former_of_node(key: Tagged) -> SmallFormer
    requires { HasContext key }
    ensures { result ≡ former_of_node key }
{
    match key {
        Tagged::MapT(key) => SmallFormer::of_key(Kind::Map, key, None),
        Tagged::ListT(key) => SmallFormer::of_key(Kind::List, key, None),
        Tagged::RegT(_) => unreachable!(),
    }
}

impl SmallFormer {
    fn of_key(kind: Kind, key: Key, kept: Room) -> Self
        ensures { result ≡ former_of_form kind key (record { counter = 0; replica = 0 }) (kept_value kept) }
    {
        SmallFormer {
            key,
            counter: 0,
            kept,
            replica: 0,
            kind,
        }
    }

    fn of_id(kind: Kind, key: Key, id: Id, kept: Room) -> Self
        ensures { result ≡ former_of_form kind key id (kept_value kept) }
    {
        SmallFormer {
            key,
            counter: id.counter,
            kept,
            replica: id.replica,
            kind,
        }
    }

    fn of_link(key: Key, next: Option<Next>) -> Self
        ensures { result ≡ Former.Link key next }
    {
        match next {
            None => SmallFormer::of_key(Kind::NoLink, key, None),
            Some(Next::Tail) => SmallFormer::of_key(Kind::Tail, key, None),
            Some(Next::Elem(id)) => SmallFormer::of_id(Kind::Elem, key, id, None),
        }
    }

    /// The record, small. What was replaced goes into the room.
    pub fn new(former: Former, room: &mut Room) -> Self
        requires { room.old ≢ None }
        ensures { result ≡ former }
    {
        match former {
            Former::Map(key) => SmallFormer::of_key(Kind::Map, key, None),
            Former::List(key) => SmallFormer::of_key(Kind::List, key, None),
            Former::Register(key, pairs) => {
                let kept = filled(room, pairs.map(Kept::Register));
                SmallFormer::of_key(Kind::Register, key, kept)
            }
            Former::Value(key, id, value) => {
                let kept = filled(room, value.map(Kept::Value));
                SmallFormer::of_id(Kind::Value, key, id, kept)
            }
            Former::Presence(key, ids) => {
                let kept = filled(room, ids.map(Kept::Presence));
                SmallFormer::of_key(Kind::Presence, key, kept)
            }
            Former::Link(key, next) => SmallFormer::of_link(key, next),
            Former::NoId(key, id) => SmallFormer::of_id(Kind::NoId, key, id, None),
            Former::Same => SmallFormer::of_key(Kind::Same, Key::Doc, None),
        }
    }

    /// The record as a change gives it.
    pub fn former(self) -> Former
        ensures { result ≡ self }
    {
        let id = Id {
            counter: self.counter,
            replica: self.replica,
        };
        let SmallFormer {
            key,
            kept,
            kind,
            ..
        } = self;
        match kind {
            Kind::Map => Former::Map(key),
            Kind::List => Former::List(key),
            Kind::Register => Former::Register(key, pairs_in(kept)),
            Kind::Value => Former::Value(key, id, value_in(kept)),
            Kind::Presence => Former::Presence(key, ids_in(kept)),
            Kind::NoLink => Former::Link(key, None),
            Kind::Tail => Former::Link(key, Some(Next::Tail)),
            Kind::Elem => Former::Link(key, Some(Next::Elem(id))),
            Kind::NoId => Former::NoId(key, id),
            Kind::Same => Former::Same,
        }
    }
}

/// Makes room where there is none.
pub fn make_room(room: &mut Room, alloc: Global) -> Result<(), AllocError>
    ensures { OnOk result (room.new ≢ None) }
{
    if room.is_none() {
        *room = Some(Box::new(alloc, Kept::Nothing)?);
    }
    Ok(())
}
