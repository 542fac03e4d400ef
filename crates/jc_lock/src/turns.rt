//! The calls on an open lock: take a turn, give it back, and count the entries without a turn.
use crate::kept::Kept;
use crate::lock::{Held, HistoryLock, Pass, Spent, Turn};
use std::sync::Wait;

impl<K: Kept> HistoryLock<K> {
    ghost use Rattle.std.specs.Prelude.{◌≡◌, ◌+◌, ◌^◌, ◌<◌, ◌↔◌, ◌++◌, drop, length, IfOk, IfErr, IsErr, Some};
    ghost use mathlib.Core.List.{IsPrefix};
    ghost use Rattle.jc_lock.specs.Knowledge.{own};
    ghost use Rattle.jc_lock.specs.Shows.{IsPassOf, IsTurnOf, pass_number, pass_left, pass_origin, pass_seen, pass_mine, turn_number, turn_left, turn_origin, turn_seen, turn_mine, turn_value, AddsOneAtMost};

    /// Waits for the pass's turn. The turn has the value; what the pass has seen is a prefix of its list.
    ///
    /// 42 exactly where the pass has no take left: then the call doesn't wait, and the pass comes back unchanged.
    pub fn take<R: Wait>(&self, rt: &R, pass: Pass<K>) -> Result<Turn<K>, Spent<K>>
        requires { IsPassOf self.now pass }
        ensures lock { IfOk result (λ t. IsTurnOf self.now t) }
        ensures number { IfOk result (λ t. (turn_number t ≡ pass_number pass) × (turn_left t + 1 ≡ pass_left pass)) }
        ensures origin { IfOk result (λ t. (turn_origin t ≡ pass_origin pass)
            × (pass_origin pass ≡ Some (K.origin (turn_value t)))) }
        ensures list { IfOk result (λ t. (turn_seen t ≡ K.list (turn_value t))
            × IsPrefix (pass_seen pass) (K.list (turn_value t))) }
        ensures mine { IfOk result (λ t. (turn_mine t ≡ pass_mine pass)
            × (own K.maker (K.list (turn_value t)) (pass_number pass) ≡ pass_mine pass)) }
        ensures when { IsErr result ↔ (pass_left pass ≡ 0) }
        ensures spent { IfErr result (λ s. s.pass ≡ pass) }
    {
        if pass.left == 0 {
            return Err(Spent { pass });
        }
        let Pass {
            number,
            left,
            mut seat,
        } = pass;
        let ticket = self.draw(&mut seat);
        self.wait_turn(rt, &mut seat, ticket);
        let value = self.empty(&mut seat);
        let entries = value.entries();
        let held = Held {
            number,
            left: left - 1,
            entries,
            seat,
        };
        Ok(Turn { value, held })
    }

    /// Gives a turn of this lock back. The value's origin must be the one that was taken. Its list must be the one that
    /// was taken, or that list and one more entry, made under the turn's pass. The entry is then in the history.
    pub fn give(&self, turn: Turn<K>) -> Pass<K>
        requires lock { IsTurnOf self.now turn }
        requires origin { turn_origin turn ≡ Some (K.origin (turn_value turn)) }
        requires list { AddsOneAtMost K.maker (turn_seen turn) (K.list (turn_value turn)) (turn_number turn) }
        ensures lock { IsPassOf self.now result }
        ensures number { (pass_number result ≡ turn_number turn) × (pass_left result ≡ turn_left turn) }
        ensures origin { pass_origin result ≡ turn_origin turn }
        ensures seen { pass_seen result ≡ K.list (turn_value turn) }
        // the new entry, if there is one
        ensures mine { pass_mine result ≡ turn_mine turn ++ drop (length (turn_seen turn)) (K.list (turn_value turn)) }
        ensures own { own K.maker (pass_seen result) (pass_number result) ≡ pass_mine result }
    {
        let Turn { value, held } = turn;
        let Held {
            number,
            left,
            entries,
            mut seat,
        } = held;
        let grew = value.entries() != entries;
        self.fill(&mut seat, value);
        if grew {
            self.publish(&mut seat);
        }
        self.pass_on(&mut seat);
        Pass { number, left, seat }
    }

    /// Returns the length of the history, and the pass has then seen it. The call waits for nobody.
    pub fn count(&self, pass: &mut Pass<K>) -> u64
        requires { IsPassOf self.now pass.old }
        ensures lock { IsPassOf self.now pass.new }
        ensures count { result ≡ length (pass_seen pass.new) }
        ensures seen { IsPrefix (pass_seen pass.old) (pass_seen pass.new) }
        ensures number { (pass_number pass.new ≡ pass_number pass.old) × (pass_left pass.new ≡ pass_left pass.old) }
        ensures origin { pass_origin pass.new ≡ pass_origin pass.old }
        ensures mine { pass_mine pass.new ≡ pass_mine pass.old }
        ensures own { own K.maker (pass_seen pass.new) (pass_number pass.new) ≡ pass_mine pass.new }
    {
        self.read(&mut pass.seat)
    }
}
