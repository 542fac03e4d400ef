//! Paths of tagged keys: where a context is in a document.

ghost use Rattle.std.specs.Prelude.{◌≡◌, ◌<◌, ◌↔◌, [], ◌∷◌, ◌++◌, length, IsTrue, IfOk, OnOk, OnErr};
ghost use Rattle.jc_rules.specs.declared.limits.TheConstants.{MAX_PATH};
ghost use Rattle.jc_rules.specs.Paths.{HasContext, IsPath};

use crate::key::Tagged;
use smallvec::SmallVec;
use std::alloc::{AllocError, Global};
use std::marker::Model;
use std::sync::Arc;

/// The tagged keys that lead from the document down to a context: keys of maps and lists, at most
/// `MAX_PATH`. Copies share the keys, also between threads. The path of the document takes no memory.
#[derive(Drop)]
pub struct Path {
    /// `None` as long as there is no key.
    keys: Option<Arc<SmallVec<Tagged, 8>, Global>>,
    alloc: Global,
}

impl Model for Path {
    ghost use Rattle.std.specs.Prelude.{List, [], unwrap_or, option_map};
    ghost use Rattle.std.specs.Arc.{arc_value};
    ghost use Rattle.smallvec.specs.SmallVec.{SmallVec};
    ghost use Rattle.jc_rules.specs.declared.key.Tagged.{Tagged};
    ghost use Rattle.jc_rules.specs.Paths.{IsPath};

    ghost Value = { List Tagged };

    ghost view = { λ a. unwrap_or (option_map (λ c. (arc_value {X = SmallVec Tagged} c).items) a.keys) [] };

    ghost invariant = { λ a. IsPath (unwrap_or (option_map (λ c. (arc_value {X = SmallVec Tagged} c).items) a.keys) []) };
}

impl Path {
    /// The path of the document itself.
    pub fn new(alloc: Global) -> Self
        ensures { result ≡ [] }
    {
        Path { keys: None, alloc }
    }

    /// Goes one key further down, into a map or a list. Where copies share the keys, this path gets
    /// its own first. After a refusal the path is as it was.
    pub fn push(&mut self, key: Tagged) -> Result<(), AllocError>
        requires context { HasContext key }
        requires room { length self.old < MAX_PATH }
        ensures ok { OnOk result (self.new ≡ self.old ++ key ∷ []) }
        ensures err { OnErr result (self.new ≡ self.old) }
    {
        if let Some(shared) = &mut self.keys
            && let Some(keys) = Arc::get_mut(shared)
        {
            keys.push(key)?;
            return Ok(());
        }
        let mut own = copied(self.alloc, self.as_slice())?;
        own.push(key)?;
        self.keys = Some(Arc::new(self.alloc, own)?);
        Ok(())
    }

    /// The keys from the document down.
    pub fn as_slice(&self) -> &[Tagged]
        ensures keys { result.now ≡ self.now }
        ensures path { IsPath self.now }
    {
        match &self.keys {
            Some(keys) => keys.as_slice(),
            None => &[],
        }
    }

    /// Takes the other path's keys for its own where these are the same, so that they are kept once.
    pub fn share(&mut self, other: &Path) -> Result<(), AllocError>
        ensures { self.new ≡ self.old }
    {
        if are_same(self.as_slice(), other.as_slice()) {
            *self = other.copy()?;
        }
        Ok(())
    }

    /// The same path once more.
    pub fn copy(&self) -> Result<Self, AllocError>
        ensures { IfOk result (λ path. path ≡ self.now) }
    {
        let keys = match &self.keys {
            Some(keys) => Some(Arc::try_clone(keys)?),
            None => None,
        };
        Ok(Path {
            keys,
            alloc: self.alloc,
        })
    }
}

/// Whether the keys are the same.
fn are_same(keys: &[Tagged], others: &[Tagged]) -> bool
    ensures { IsTrue result ↔ keys.now ≡ others.now }
{
    keys == others
}

/// The same keys once more.
fn copied(alloc: Global, keys: &[Tagged]) -> Result<SmallVec<Tagged, 8>, AllocError>
    ensures { IfOk result (λ copies. copies.items ≡ keys.now) }
{
    let mut copies = SmallVec::new(alloc);
    for key in keys {
        copies.push(key.copy()?)?;
    }
    Ok(copies)
}
