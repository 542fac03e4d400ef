//! What callers read of a pass and of a turn: their numbers, and the turn's value.
use crate::kept::Kept;
use crate::lock::{Pass, Turn};

impl<K: Kept> Pass<K> {
    ghost use Rattle.std.specs.Prelude.{◌≡◌};
    ghost use Rattle.jc_lock.specs.Shows.{pass_number};

    /// The place of the pass in the list that `open` gave, from 0.
    pub fn number(&self) -> u16
        ensures { result ≡ pass_number self.now }
    {
        self.number
    }
}

impl<K: Kept> Turn<K> {
    ghost use Rattle.std.specs.Prelude.{◌≡◌};
    ghost use Rattle.std.specs.Borrow.{sem};
    ghost use Rattle.jc_lock.specs.Shows.{turn_number, turn_value};
    ghost use Rattle.jc_lock.specs.Lending.{LendsValue};

    /// The number of the turn's pass.
    pub fn number(&self) -> u16
        ensures { result ≡ turn_number self.now }
    {
        self.held.number
    }

    /// The lock's value.
    pub fn value(&self) -> &K
        ensures { result.now ≡ turn_value self.now }
    {
        &self.value
    }

    /// Lends the value to be changed. All else of the turn stays.
    pub fn value_mut(&mut self) -> &mut K
        ensures* writes_back { sem 𝓛 (LendsValue K.row K.Entry.row K.Origin.row K.Kept self.entry result) }
        ensures value { result.now ≡ turn_value self.old }
    {
        &mut self.value
    }
}
