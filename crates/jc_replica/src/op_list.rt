//! A list of operations that grows at both ends: operations come in rising or in falling order, and neither costs more.

ghost use Rattle.std.specs.Prelude.{◌≡◌, ◌≤◌, ◌<◌, ◌+◌, [], length, insert, remove, IfOk, OnOk};

use jc_rules::{Cursor, Id, IdSet, Key, Mutation, Op, Path};
use std::alloc::{AllocError, Global};
use std::marker::Model;

/// Operations with room before the first and behind the last. An insertion or a removal moves those on the
/// nearer side of its place. It is seen as its list and how many more there is room for.
#[derive(Drop)]
pub struct OpList {
    /// Spare ones, which stand for nothing, and then the operations.
    slots: Vec<Op>,
    /// How many spare ones there are.
    spare: usize,
}

impl Model for OpList {
    ghost use Rattle.std.specs.Prelude.{◌≤◌, ◌-◌, drop, length, vec_capacity, vec_len};
    ghost use Rattle.jc_replica.specs.OpLists.{OpsWithRoom};

    ghost Value = { OpsWithRoom };

    ghost view = { λ a. record { items = drop a.spare a.slots.items; room = vec_capacity a.slots - vec_len a.slots } };

    ghost invariant = { λ a. a.spare ≤ length a.slots.items };
}

/// An operation that stands for nothing.
fn spare_one(alloc: Global) -> Op {
    Op {
        id: Id {
            counter: 0,
            replica: 0,
        },
        deps: IdSet::new(alloc),
        cursor: Cursor {
            path: Path::new(alloc),
            last: Key::Doc,
        },
        mutation: Mutation::Delete,
    }
}

impl OpList {
    /// No operations.
    pub fn new(alloc: Global) -> Self
        ensures { result.items ≡ [] }
    {
        OpList {
            slots: Vec::new(alloc),
            spare: 0,
        }
    }

    /// The operations.
    pub fn as_slice(&self) -> &[Op]
        ensures { result.now ≡ self.now.items }
    {
        &self.slots[self.spare..]
    }

    /// Makes room for so many more. The operations stay, also after a refusal.
    pub fn reserve(&mut self, more: usize) -> Result<(), AllocError>
        ensures items { self.new.items ≡ self.old.items }
        ensures room { OnOk result (more ≤ self.new.room) }
    {
        self.slots.reserve(more)
    }

    /// Makes as many spare ones as there are operations, where there is none and the place is nearer to the first than
    /// to the last. The operations stay, also after a refusal.
    pub fn widen(&mut self, alloc: Global, place: usize) -> Result<(), AllocError>
        ensures { self.new.items ≡ self.old.items }
    {
        let count = self.slots.len();
        if self.spare > 0 || count.saturating_sub(place) <= place {
            return Ok(());
        }
        let mut wide = Vec::with_capacity(alloc, count.saturating_mul(2))?;
        wide.resize_with(count, || spare_one(alloc))?;
        wide.append(&mut self.slots)?;
        self.slots = wide;
        self.spare = count;
        Ok(())
    }

    /// Inserts the operation at the place.
    pub fn insert(&mut self, place: usize, op: Op)
        requires within { place ≤ length self.old.items }
        requires room { 0 < self.old.room }
        ensures items { self.new.items ≡ insert self.old.items place op }
        ensures room { self.old.room ≤ self.new.room + 1 }
    {
        let behind = self.slots.len() - self.spare - place;
        if self.spare > 0 && place < behind {
            self.spare -= 1;
            self.slots[self.spare] = op;
            self.slots[self.spare..=self.spare + place].rotate_left(1);
        } else {
            self.slots.insert(self.spare + place, op).unwrap();
        }
    }

    /// Removes the operation at the place. Nearer to the first, it becomes a spare one.
    pub fn remove(&mut self, place: usize)
        requires { place < length self.old.items }
        ensures { self.new.items ≡ remove self.old.items place }
    {
        let last = self.spare + place;
        if place < self.slots.len() - 1 - last {
            self.slots[self.spare..=last].rotate_left(place);
            self.spare += 1;
        } else {
            drop(self.slots.remove(last));
        }
    }
}
