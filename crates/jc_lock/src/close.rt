//! Closing a lock, the last call on it: the seats of the passes become one, and the value leaves its slot.
use crate::kept::Kept;
use crate::lock::{CloseRefused, HistoryLock, Pass, Place};
use crate::marks::each_is_there;
use crate::plays::Gather;

impl<K: Kept> HistoryLock<K> {
    ghost use Rattle.std.specs.Prelude.{◌≡◌, ◌++◌, ◌<◌, ◌↔◌, [], All, map, length, vec_len, IfOk, IfErr, IsOk};
    ghost use mathlib.Core.List.{IsPrefix};
    ghost use Rattle.jc_lock.specs.declared.view.Stage.TheVariants.{Rests};
    ghost use Rattle.jc_lock.specs.Knowledge.{own, AllTrueOf};
    ghost use Rattle.jc_lock.specs.Numbers.{EachOnce};
    ghost use Rattle.jc_lock.specs.Shows.{IsPassOf, IsSameLock, lock_passes, opened_value, pass_number, pass_seen, pass_mine};
    ghost use Rattle.jc_lock.specs.Gathered.{known_of, KnowsAll};

    // Joins the seats of the passes to one.
    fn gather(&self, mut passes: Vec<Pass<K>>) -> Place<K>
        requires all { All (IsPassOf self.now) passes.items }
        requires some { 0 < vec_len passes }
        ensures table { result.table_id ≡ self.now.table.shared.table_id }
        ensures rests { result.me.0.stage ≡ Rests }
        ensures known { result.me.0.knows ≡ known_of passes.items }
    {
        let Some(last) = passes.pop() else {
            unreachable!()
        };
        let mut seat = last.into_seat();
        while let Some(pass) = passes.pop() {
            self.table
                .shared
                .join_seat::<Gather>(&mut seat, pass.into_seat());
        }
        passes.destroy_empty();
        seat
    }

    // Takes the value out of the slot. The seat knows for each pass, so no other seat can have the turn.
    fn into_value(self, seat: Place<K>) -> K
        requires table { seat.table_id ≡ self.table.shared.table_id }
        requires rests { seat.me.0.stage ≡ Rests }
        requires all { KnowsAll (lock_passes self) seat.me.0.knows }
        ensures origin { K.origin result ≡ K.origin (opened_value self) }
        ensures known { AllTrueOf K.maker (K.list result) seat.me.0.knows }
        ensures makers { All (λ e. K.maker e < lock_passes self) (K.list result) }
    {
        let HistoryLock { table, marks: _ } = self;
        let mut closed = table.close_with(seat);
        let slot = closed.take(0);
        closed.free();
        match slot {
            Some(value) => value,
            None => unreachable!(),
        }
    }

    /// Gives the value back. Its list is the history: what each pass has seen is a prefix of it. The entries of each
    /// pass in it are those that were made under the pass, and it has no others. Its origin is that of `open`.
    ///
    /// 43 exactly where the numbers of the passes aren't those of `open`, each once. Then lock and passes come back
    /// unchanged.
    pub fn close(self, passes: Vec<Pass<K>>) -> Result<K, CloseRefused<K>>
        requires { All (IsPassOf self) passes.items }
        ensures when { IsOk result ↔ EachOnce (lock_passes self) (map pass_number passes.items) }
        ensures origin { IfOk result (λ x. K.origin x ≡ K.origin (opened_value self)) }
        ensures seen { IfOk result (λ x. All (λ p. IsPrefix (pass_seen p) (K.list x)) passes.items) }
        ensures mine { IfOk result (λ x. All (λ p. own K.maker (K.list x) (pass_number p) ≡ pass_mine p) passes.items) }
        ensures makers { IfOk result (λ x. All (λ e. K.maker e < lock_passes self) (K.list x)) }
        ensures refused { IfErr result (λ r. IsSameLock self r.lock × (r.passes ≡ passes)) }
    {
        let HistoryLock { table, mut marks } = self;
        let complete = each_is_there(marks.as_mut_slice(), passes.as_slice());
        let lock = HistoryLock { table, marks };
        if !complete {
            return Err(CloseRefused { lock, passes });
        }
        let seat = lock.gather(passes);
        Ok(lock.into_value(seat))
    }
}

impl<K: Kept> Pass<K> {
    ghost use Rattle.std.specs.Prelude.{◌≡◌};

    fn into_seat(self) -> Place<K>
        ensures { result ≡ self.seat }
    {
        let Pass {
            number: _,
            left: _,
            seat,
        } = self;
        seat
    }
}
