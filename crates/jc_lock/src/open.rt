//! Opening a lock, the first call: the table with the value in its slot, and the passes.
ghost use Rattle.std.specs.Prelude.{◌≡◌, ◌≤◌, ◌∷◌, [], IfOk, IfErr, Some, vec_len, vec_capacity};

use crate::kept::Kept;
use crate::lock::{HistoryLock, InTurn, OpenFault, OpenRefused, Pass, Place};
use crate::plays::Deal;
use crate::view::{Terms, View};
use atomic_table::{Refused, Table};
use std::alloc::{AllocError, Global};
use std::snapshot::Snapshot;

/// The greatest number of takes of a pass. All takes of all passes together then fit a word of the table.
pub const MOST_TAKES: u64 = 1 << 40;

/// The lock's table. Its words are the tickets drawn, the ticket that is due, and the count of entries; its slot holds
/// the value.
type TurnTable<K> = Table<
    Option<K>,
    View<<K as Kept>::Entry, <K as Kept>::Origin>,
    Terms<K>,
    InTurn,
    Global,
>;

// Makes the list of slots, with the value in its one slot.
fn one_slot<K>(alloc: Global, value: K) -> Result<Vec<Option<K>>, K>
    ensures ok { IfOk result (λ slots. slots.items ≡ Some value ∷ []) }
    ensures err { IfErr result (λ x. x ≡ value) }
{
    match Vec::with_capacity(alloc, 1) {
        Ok(mut slots) => {
            slots.push_reserved(Some(value));
            Ok(slots)
        }
        Err(_) => Err(value),
    }
}

// Takes the value out of the list of slots.
fn out_of_slot<K>(mut slots: Vec<Option<K>>) -> K
    requires { (x : K) × (slots.items ≡ Some x ∷ []) }
    ensures { slots.items ≡ Some result ∷ [] }
{
    match slots.pop() {
        Some(Some(value)) => {
            slots.destroy_empty();
            value
        }
        _ => unreachable!(),
    }
}

/// Makes the marks with which `close` checks the passes, and a list with room for the passes.
fn room_for<K: Kept>(alloc: Global, passes: usize) -> Result<(Vec<bool>, Vec<Pass<K>>), AllocError>
    ensures marks { IfOk result (λ room. vec_len room.0 ≡ passes) }
    ensures list { IfOk result (λ room. (room.1.items ≡ []) × (passes ≤ vec_capacity room.1)) }
{
    let marks = vec![in alloc; false; passes]?;
    let list = Vec::with_capacity(alloc, passes)?;
    Ok((marks, list))
}

impl<K: Kept> HistoryLock<K> {
    ghost use Rattle.std.specs.Prelude.{◌≡◌, ◌+◌, ◌*◌, ◌^◌, ◌<◌, ◌≤◌, List, All, map, length, vec_len, vec_capacity, IfOk, IfErr, Some, [], ◌∷◌};
    ghost use Rattle.std.specs.List.{range_with_len};
    ghost use Rattle.jc_lock.specs.declared.view.Known.{Known};
    ghost use Rattle.jc_lock.specs.declared.view.Stage.TheVariants.{Rests};
    ghost use Rattle.jc_lock.specs.Knowledge.{blank};
    ghost use Rattle.jc_lock.specs.Steps.{first_dealer, rest_of_deal, IsSameSeat};
    ghost use Rattle.jc_lock.specs.declared.open.TheConstants.{MOST_TAKES};
    ghost use Rattle.jc_lock.specs.Shows.{lock_passes, opened_value, pass_number, IsNewPass, IsRefusedFor};

    fn table_of(alloc: Global, value: K, terms: &Terms<K>) -> Result<(TurnTable<K>, Place<K>), K>
        requires empty { K.list value ≡ [] }
        requires opened { terms.now.opened.value ≡ value }
        requires small { terms.now.passes * terms.now.takes < 2 ^ 56 }
        ensures sized { IfOk result (λ r. (r.0.shared.table_id.words ≡ 3) × (r.0.shared.table_id.slots ≡ 1)) }
        ensures terms { IfOk result (λ r. r.0.shared.key ≡ terms.now) }
        ensures seat { IfOk result (λ r. (r.1.table_id ≡ r.0.shared.table_id)
            × (r.1.me ≡ (first_dealer K.origin terms.now, []))) }
        ensures err { IfErr result (λ x. x ≡ value) }
    {
        let slots = one_slot(alloc, value)?;
        match Table::new(alloc, &[0, 0, 0], slots, terms) {
            Ok((table, seat)) => Ok((table, seat)),
            Err(Refused { slots }) => Err(out_of_slot(slots)),
        }
    }

    // Deals the next pass: its number is the first that the seat knows for.
    fn deal(&self, seat: &mut Place<K>, terms: &Terms<K>, number: u16) -> Pass<K>
        requires table { seat.old.table_id ≡ self.now.table.shared.table_id }
        requires rests { seat.old.me.0.stage ≡ Rests }
        requires share { seat.old.me.0.share ≡ terms.now.takes }
        requires enough { terms.now.takes ≤ seat.old.me.0.left }
        requires origin { seat.old.me.0.origin ≡ Some (K.origin terms.now.opened.value) }
        requires next { (ks : List (Known K.Entry)) × (seat.old.me.0.knows ≡ blank number ∷ ks) }
        ensures same { IsSameSeat seat.old seat.new }
        ensures left { seat.new.me ≡ (rest_of_deal seat.old.me.0, seat.old.me.1) }
        ensures number { pass_number result ≡ number }
        ensures new { IsNewPass self.now terms.now.takes (K.origin terms.now.opened.value) result }
    {
        let seat = self.table.shared.split_seat::<Deal>(seat);
        Pass {
            number,
            left: terms.takes,
            seat,
        }
    }

    fn deal_all(&self, mut seat: Place<K>, terms: &Terms<K>, passes: u16, out: &mut Vec<Pass<K>>)
        requires table { seat.table_id ≡ self.now.table.shared.table_id }
        requires first { seat.me.0 ≡ first_dealer K.origin terms.now }
        requires passes { terms.now.passes ≡ passes }
        requires room { passes ≤ vec_capacity out.old }
        requires empty { out.old.items ≡ [] }
        ensures numbers { map pass_number out.new.items ≡ range_with_len 0 passes }
        ensures new { All (IsNewPass self.now terms.now.takes (K.origin terms.now.opened.value)) out.new.items }
    {
        for number in 0..passes {
            let pass = self.deal(&mut seat, terms, number);
            out.push_reserved(pass);
        }
    }

    /// Makes a lock of a value without entries, and its passes; each pass has `takes` takes. The passes are numbered
    /// from 0, in the list's order.
    ///
    /// Refused, in this order: 40 for no pass, 41 for more than `MOST_TAKES` takes, then want of memory. The value
    /// comes back with the refusal.
    pub fn open(
        alloc: Global,
        value: K,
        passes: u16,
        takes: u64,
    ) -> Result<(HistoryLock<K>, Vec<Pass<K>>), OpenRefused<K>>
        requires { K.list value ≡ [] }
        ensures allowed { IfOk result (λ r. (0 < passes) × (takes ≤ MOST_TAKES)) }
        ensures lock { IfOk result (λ r. (lock_passes r.0 ≡ passes) × (opened_value r.0 ≡ value)) }
        ensures numbers { IfOk result (λ r. map pass_number r.1.items ≡ range_with_len 0 passes) }
        ensures new { IfOk result (λ r. All (IsNewPass r.0 takes (K.origin value)) r.1.items) }
        ensures refused { IfErr result (λ r. (r.value ≡ value) × IsRefusedFor r.why passes takes) }
    {
        if passes == 0 {
            return Err(OpenRefused {
                value,
                why: OpenFault::NoPasses,
            });
        }
        if takes > MOST_TAKES {
            return Err(OpenRefused {
                value,
                why: OpenFault::TooManyTakes,
            });
        }
        let Ok((marks, mut list)) = room_for(alloc, usize::from(passes)) else {
            return Err(OpenRefused {
                value,
                why: OpenFault::Memory,
            });
        };
        let terms = Terms {
            passes: u64::from(passes),
            takes,
            opened: Snapshot::of(&value),
        };
        match HistoryLock::table_of(alloc, value, &terms) {
            Ok((table, seat)) => {
                let lock = HistoryLock { table, marks };
                lock.deal_all(seat, &terms, passes, &mut list);
                Ok((lock, list))
            }
            Err(value) => {
                list.destroy_empty();
                Err(OpenRefused {
                    value,
                    why: OpenFault::Memory,
                })
            }
        }
    }
}
