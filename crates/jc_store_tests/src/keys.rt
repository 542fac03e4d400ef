//! Keys as tables write them, and the identifiers and values that are put under them.

ghost use Rattle.std.specs.Prelude.{IfOk};
ghost use Rattle.jc_rules.specs.Ids.{AreRising};
ghost use Rattle.jc_rules.specs.WellFormed.{IsWellFormedRegister};

use jc_rules::{Id, Key, Tagged, Text, Value};
use std::alloc::{AllocError, Global};

pub const FIRST: Id = Id {
    counter: 1,
    replica: 1,
};

pub const SECOND: Id = Id {
    counter: 2,
    replica: 0,
};

pub const THIRD: Id = Id {
    counter: 3,
    replica: 0,
};

/// Another one with the counter 2.
const OF_B: Id = Id {
    counter: 2,
    replica: 1,
};

/// One whose text comes before those of lesser ones.
const TENTH: Id = Id {
    counter: 10,
    replica: 0,
};

/// A key. The variants are in the order of keys.
#[derive(Clone, Copy)]
pub enum At {
    Doc,
    Head,
    A,
    /// The name `a1`.
    A1,
    First,
    Second,
    Third,
}

#[derive(Clone, Copy)]
pub enum Tag {
    Map,
    List,
    Register,
}

/// The keys themselves, in their order, under each tag.
#[derive(Drop)]
pub struct Keys {
    pub alloc: Global,
    /// The names of the replicas.
    pub names: [Text; 2],
    maps: [Tagged; 7],
    lists: [Tagged; 7],
    registers: [Tagged; 7],
}

pub fn text(alloc: Global, text: &str) -> Result<Text, AllocError> {
    Text::new(alloc, String::from_str(alloc, text)?)
}

fn names(alloc: Global) -> Result<[Text; 2], AllocError> {
    let first = text(alloc, "a")?;
    Ok([first, text(alloc, "b")?])
}

fn tagged(tag: Tag, key: Key) -> Tagged {
    match tag {
        Tag::Map => Tagged::MapT(key),
        Tag::List => Tagged::ListT(key),
        Tag::Register => Tagged::RegT(key),
    }
}

fn all_under(alloc: Global, tag: Tag) -> Result<[Tagged; 7], AllocError> {
    let a = text(alloc, "a")?;
    let a1 = text(alloc, "a1")?;
    Ok([
        tagged(tag, Key::Doc),
        tagged(tag, Key::Head),
        tagged(tag, Key::Name(a)),
        tagged(tag, Key::Name(a1)),
        tagged(tag, Key::Elem(FIRST)),
        tagged(tag, Key::Elem(SECOND)),
        tagged(tag, Key::Elem(THIRD)),
    ])
}

impl Keys {
    pub fn new(alloc: Global) -> Result<Self, AllocError> {
        let maps = all_under(alloc, Tag::Map)?;
        let lists = all_under(alloc, Tag::List)?;
        let registers = all_under(alloc, Tag::Register)?;
        let names = names(alloc)?;
        Ok(Keys {
            alloc,
            names,
            maps,
            lists,
            registers,
        })
    }

    pub fn child(&self, tag: Tag, at: At) -> &Tagged {
        let keys = match tag {
            Tag::Map => &self.maps,
            Tag::List => &self.lists,
            Tag::Register => &self.registers,
        };
        match at {
            At::Doc => &keys[0],
            At::Head => &keys[1],
            At::A => &keys[2],
            At::A1 => &keys[3],
            At::First => &keys[4],
            At::Second => &keys[5],
            At::Third => &keys[6],
        }
    }

    pub fn key(&self, at: At) -> &Key {
        self.child(Tag::Map, at).key()
    }

    /// The path to the document's map.
    pub fn in_the_map(&self) -> &[Tagged] {
        &self.maps[..1]
    }

    /// The path to the document's list.
    pub fn in_the_list(&self) -> &[Tagged] {
        &self.lists[..1]
    }
}

/// Identifiers of a presence set.
#[derive(Clone, Copy)]
pub enum Set {
    Empty,
    First,
    Second,
    Both,
    All,
}

pub fn ids_of(set: Set) -> &'static [Id]
    ensures { AreRising result.now }
{
    match set {
        Set::Empty => &[],
        Set::First => &[FIRST],
        Set::Second => &[SECOND],
        Set::Both => &[FIRST, SECOND],
        Set::All => &[FIRST, SECOND, THIRD],
    }
}

/// Values of a register.
#[derive(Clone, Copy)]
pub enum Values {
    Nothing,
    /// `null` of the second.
    Null,
    /// `true` of the first and `null` of the second.
    TrueAndNull,
    /// `false` of the first and `null` of the second.
    FalseAndNull,
    /// `true` of 2@0, `false` of 2@1 and `null` of 10@0.
    Three,
}

pub fn values_of(alloc: Global, values: Values) -> Result<Vec<(Id, Value)>, AllocError>
    ensures { IfOk result (λ pairs. IsWellFormedRegister pairs.items) }
{
    match values {
        Values::Nothing => Ok(Vec::new(alloc)),
        Values::Null => Ok(vec![in alloc; (SECOND, Value::Null)]?),
        Values::TrueAndNull => Ok(vec![in alloc; (FIRST, Value::True), (SECOND, Value::Null)]?),
        Values::FalseAndNull => Ok(vec![in alloc; (FIRST, Value::False), (SECOND, Value::Null)]?),
        Values::Three => {
            Ok(vec![in alloc;
                (SECOND, Value::True),
                (OF_B, Value::False),
                (TENTH, Value::Null),
            ]?)
        }
    }
}
