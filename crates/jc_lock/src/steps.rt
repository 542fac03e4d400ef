//! The steps that a turn and a count are made of, each on one seat: turns.rt puts them together.
ghost use Rattle.std.specs.Prelude.{◌≡◌, ◌∷◌, [], ◌++◌, ◌<◌, ◌^◌, List, length, true, None, Some};
ghost use Rattle.jc_lock.specs.declared.view.Stage.TheVariants.{Rests, Waits};
ghost use Rattle.jc_lock.specs.Knowledge.{own, number_in, seen_in, mine_in, Continues};
ghost use Rattle.jc_lock.specs.Rules.{has_turn};
ghost use Rattle.jc_lock.specs.Steps.{with_ticket, with_grown, with_seen, at_rest, list_in, Starts, IsSameSeat};

use crate::kept::Kept;
use crate::lock::{HistoryLock, Place};
use crate::plays::{Draw, Look, PassOn, Publish, Read};
use std::sync::Wait;

/// The word with the number of tickets drawn.
const DRAWN: usize = 0;

/// The word with the ticket that is due.
const DUE: usize = 1;

/// The word with the count of entries.
const COUNT: usize = 2;

/// The low half of a word. A thread parks on it.
const LOW_HALF: u64 = 0xffff_ffff;

impl<K: Kept> HistoryLock<K> {
    /// Draws a ticket.
    pub(crate) fn draw(&self, seat: &mut Place<K>) -> u64
        requires table { seat.old.table_id ≡ self.now.table.shared.table_id }
        requires rests { seat.old.me.0.stage ≡ Rests }
        requires left { 0 < seat.old.me.0.left }
        requires single { length seat.old.me.0.knows ≡ 1 }
        ensures same { IsSameSeat seat.old seat.new }
        ensures drawn { seat.new.me ≡ (with_ticket seat.old.me.0 result, seat.old.me.1) }
    {
        self.table.shared.fetch_add::<Draw>(seat, DRAWN, 1)
    }

    /// Waits until the ticket is due. Then the seat has the turn, and the slot with the value.
    pub(crate) fn wait_turn<R: Wait>(&self, rt: &R, seat: &mut Place<K>, ticket: u64)
        requires table { seat.old.table_id ≡ self.now.table.shared.table_id }
        requires waits { seat.old.me.0.stage ≡ Waits ticket }
        requires single { length seat.old.me.0.knows ≡ 1 }
        ensures same { IsSameSeat seat.old seat.new }
        ensures turn { Starts K.origin K.list K.maker ticket seat.old.me seat.new.me }
    {
        for _ in rt.forever() {
            let due = self.table.shared.load::<Look>(seat, DUE);
            if due == ticket {
                return;
            }
            self.table.shared.park(rt, DUE, (due & LOW_HALF) as u32);
        }
        unreachable!()
    }

    /// Takes the value out of the slot.
    pub(crate) fn empty(&self, seat: &mut Place<K>) -> K
        requires table { seat.old.table_id ≡ self.now.table.shared.table_id }
        requires full { (x : K) × (seat.old.me.1 ≡ (0, Some x) ∷ []) }
        ensures same { IsSameSeat seat.old seat.new }
        ensures value { seat.old.me.1 ≡ (0, Some result) ∷ [] }
        ensures emptied { seat.new.me ≡ (seat.old.me.0, (0, None) ∷ []) }
    {
        match self.table.shared.exchange(seat, 0, None) {
            Some(value) => value,
            None => unreachable!(),
        }
    }

    /// Puts the value back into the slot.
    pub(crate) fn fill(&self, seat: &mut Place<K>, value: K)
        requires table { seat.old.table_id ≡ self.now.table.shared.table_id }
        requires empty { seat.old.me.1 ≡ (0, None) ∷ [] }
        ensures same { IsSameSeat seat.old seat.new }
        ensures filled { seat.new.me ≡ (seat.old.me.0, (0, Some value) ∷ []) }
    {
        match self.table.shared.exchange(seat, 0, Some(value)) {
            None => {}
            Some(_other) => unreachable!(),
        }
    }

    /// Counts the entry that was added to the value in the slot.
    pub(crate) fn publish(&self, seat: &mut Place<K>)
        requires table { seat.old.table_id ≡ self.now.table.shared.table_id }
        requires turn { has_turn seat.old.me.0.stage ≡ true }
        requires single { length seat.old.me.0.knows ≡ 1 }
        requires own { own K.maker (seen_in seat.old.me.0.knows) (number_in seat.old.me.0.knows)
            ≡ mine_in seat.old.me.0.knows }
        requires more { (x : K)
            × (e : K.Entry)
            × (seat.old.me.1 ≡ (0, Some x) ∷ [])
            × (K.list x ≡ seen_in seat.old.me.0.knows ++ e ∷ [])
            × (K.maker e ≡ number_in seat.old.me.0.knows)
            × (length (K.list x) < 2 ^ 64) }
        ensures same { IsSameSeat seat.old seat.new }
        ensures grown { seat.new.me ≡ (with_grown seat.old.me.0 (list_in K.list seat.old.me.1), seat.old.me.1) }
        ensures own { own K.maker (seen_in seat.new.me.0.knows) (number_in seat.old.me.0.knows)
            ≡ mine_in seat.new.me.0.knows }
    {
        self.table.shared.fetch_add::<Publish>(seat, COUNT, 1);
    }

    /// Gives the slot back, and the turn to the next ticket.
    pub(crate) fn pass_on(&self, seat: &mut Place<K>)
        requires table { seat.old.table_id ≡ self.now.table.shared.table_id }
        requires turn { has_turn seat.old.me.0.stage ≡ true }
        requires whole { (x : K)
            × (seat.old.me.1 ≡ (0, Some x) ∷ [])
            × (seat.old.me.0.origin ≡ Some (K.origin x))
            × (K.list x ≡ seen_in seat.old.me.0.knows) }
        ensures same { IsSameSeat seat.old seat.new }
        ensures rested { seat.new.me ≡ (at_rest seat.old.me.0, []) }
    {
        self.table.shared.fetch_add::<PassOn>(seat, DUE, 1);
        self.table.shared.wake_all(DUE);
    }

    /// Reads the length of the history.
    pub(crate) fn read(&self, seat: &mut Place<K>) -> u64
        requires table { seat.old.table_id ≡ self.now.table.shared.table_id }
        requires rests { seat.old.me.0.stage ≡ Rests }
        requires single { length seat.old.me.0.knows ≡ 1 }
        ensures same { IsSameSeat seat.old seat.new }
        ensures read { (history : List K.Entry)
            × (seat.new.me ≡ (with_seen seat.old.me.0 history, seat.old.me.1))
            × (result ≡ length history)
            × Continues K.maker seat.old.me.0.knows history }
    {
        self.table.shared.load::<Read>(seat, COUNT)
    }
}
