//! Keys, tagged keys and links of lists: what paths and contexts are made of.

ghost use Rattle.std.specs.Prelude.{◌≡◌, IfOk};
ghost use Rattle.jc_rules.specs.Order.{id_cmp, key_cmp};
ghost use Rattle.jc_rules.specs.Context.{key_of_tagged};

use crate::id::Id;
use crate::text::Text;
use std::alloc::AllocError;
use std::cmp::Ordering;

/// A key: of the document, of a map's entry, of a list's head or of a list's element.
/// Keys are ordered `doc`, `head`, names by their bytes, identifiers.
#[derive(Debug, PartialEq, Eq, PartialOrd, Ord, Hash, Drop)]
pub enum Key {
    Doc,
    Head,
    Name(Text),
    Elem(Id),
}

impl Key {
    /// The same key once more.
    pub fn copy(&self) -> Result<Self, AllocError>
        ensures { IfOk result (λ key. key ≡ self.now) }
    {
        match self {
            Key::Doc => Ok(Key::Doc),
            Key::Head => Ok(Key::Head),
            Key::Name(name) => Ok(Key::Name(name.copy()?)),
            Key::Elem(id) => Ok(Key::Elem(*id)),
        }
    }
}

/// A key with the kind of what is under it: a map, a list or a register.
#[derive(Debug, PartialEq, Eq, Drop)]
pub enum Tagged {
    MapT(Key),
    ListT(Key),
    RegT(Key),
}

impl Tagged {
    /// The same tagged key once more.
    pub fn copy(&self) -> Result<Self, AllocError>
        ensures { IfOk result (λ key. key ≡ self.now) }
    {
        match self {
            Tagged::MapT(key) => Ok(Tagged::MapT(key.copy()?)),
            Tagged::ListT(key) => Ok(Tagged::ListT(key.copy()?)),
            Tagged::RegT(key) => Ok(Tagged::RegT(key.copy()?)),
        }
    }

    /// The key without its tag.
    pub fn key(&self) -> &Key
        ensures { result.now ≡ key_of_tagged self.now }
    {
        match self {
            Tagged::MapT(key) => key,
            Tagged::ListT(key) => key,
            Tagged::RegT(key) => key,
        }
    }
}

// A small vector of tagged keys fills its free room with this one.
impl Default for Tagged {
    fn default() -> Self {
        Tagged::MapT(Key::Doc)
    }
}

/// What follows a key of a list: its end, or the element with an identifier.
#[derive(Clone, Copy, Debug, PartialEq, Eq)]
pub enum Next {
    Tail,
    Elem(Id),
}

/// The order of identifiers: by counter, then by replica.
pub fn compare_ids(first: Id, second: Id) -> Ordering
    ensures { result ≡ id_cmp first second }
{
    first.cmp(&second)
}

/// The order of keys: `doc`, `head`, names by their bytes, identifiers.
pub fn compare_keys(first: &Key, second: &Key) -> Ordering
    ensures { result ≡ key_cmp first.now second.now }
{
    first.cmp(second)
}
