//! The types of callers: the lock, its passes, its turns and the refusals. The calls are in the other files.
ghost use Rattle.std.specs.Prelude.{◌≡◌, ◌<◌, ℕ, [], ◌∷◌, true, length, vec_len, None};
ghost use Rattle.jc_lock.specs.declared.view.Stage.TheVariants.{Rests};
ghost use Rattle.jc_lock.specs.Knowledge.{own, number_in, seen_in, mine_in};
ghost use Rattle.jc_lock.specs.Rules.{has_turn};

use crate::kept::Kept;
use crate::view::{Terms, View};
use atomic_table::{Seat, Table, TableRule};
use std::alloc::Global;

/// The rule of the lock's table.
pub struct InTurn;

impl<K: Kept> TableRule<Option<K>, View<K::Entry, K::Origin>, Terms<K>> for InTurn {
    ghost use Rattle.jc_lock.specs.Rules.{IsKept};
    ghost use Rattle.jc_lock.specs.Steps.{first_dealer};

    ghost holds = { IsKept K.origin K.list K.maker };

    ghost first = { first_dealer K.origin };
}

/// A place at the lock's table.
pub type Place<K> = Seat<Option<K>, View<<K as Kept>::Entry, <K as Kept>::Origin>>;

/// A value that keeps a history, shared by threads that take turns.
#[derive(Drop)]
pub struct HistoryLock<K: Kept> {
    pub(crate) table: Table<Option<K>, View<K::Entry, K::Origin>, Terms<K>, InTurn, Global>,
    // One for each pass: `close` checks with them that each number is there once.
    pub(crate) marks: Vec<bool>,
    ghost sized: { (table.shared.table_id.words ≡ 3) × (table.shared.table_id.slots ≡ 1) },
    ghost some_pass: { 0 < table.shared.key.passes },
    ghost marked: { vec_len marks ≡ table.shared.key.passes },
}

/// The right to take turns at one lock, as many as it has takes left.
#[derive(Drop)]
pub struct Pass<K: Kept> {
    pub(crate) number: u16,
    pub(crate) left: u64,
    pub(crate) seat: Seat<Option<K>, View<K::Entry, K::Origin>>,
    ghost rests: { seat.me.0.stage ≡ Rests },
    ghost single: { length seat.me.0.knows ≡ 1 },
    ghost numbered: { number_in seat.me.0.knows ≡ number },
    ghost has_left: { seat.me.0.left ≡ left },
    ghost own_entries: { own K.maker (seen_in seat.me.0.knows) number ≡ mine_in seat.me.0.knows },
    ghost no_slot: { length seat.me.1 ≡ 0 },
}

/// What a turn has beside the value.
pub struct Held<K: Kept> {
    pub(crate) number: u16,
    pub(crate) left: u64,
    // The length of the list when the turn began.
    pub(crate) entries: u64,
    pub(crate) seat: Seat<Option<K>, View<K::Entry, K::Origin>>,
    ghost turn: { has_turn seat.me.0.stage ≡ true },
    ghost single: { length seat.me.0.knows ≡ 1 },
    ghost numbered: { number_in seat.me.0.knows ≡ number },
    ghost has_left: { seat.me.0.left ≡ left },
    ghost own_entries: { own K.maker (seen_in seat.me.0.knows) number ≡ mine_in seat.me.0.knows },
    ghost slot: { seat.me.1 ≡ (0, None) ∷ [] },
    ghost counted: { length (seen_in seat.me.0.knows) ≡ entries },
}

/// A turn, with the lock's value. It can't be dropped: give it back.
// The facts on the seat are in `held`, so that a borrow of the value leaves them alone.
pub struct Turn<K: Kept> {
    pub(crate) value: K,
    pub(crate) held: Held<K>,
}

/// 42: the pass has no take left. It comes back unchanged.
#[derive(Drop)]
pub struct Spent<K: Kept> {
    pub pass: Pass<K>,
}

/// Why a lock wasn't opened.
#[derive(Drop)]
pub enum OpenFault {
    /// 40: a lock without a pass was asked for.
    NoPasses,
    /// 41: more than `MOST_TAKES` takes for each pass were asked for.
    TooManyTakes,
    /// A request for memory was refused.
    Memory,
}

/// The refusal of `open`. The value comes back.
#[derive(Drop)]
pub struct OpenRefused<K> {
    pub value: K,
    pub why: OpenFault,
}

/// 43: the passes aren't those of `open`, each once. Lock and passes come back unchanged.
#[derive(Drop)]
pub struct CloseRefused<K: Kept> {
    pub lock: HistoryLock<K>,
    pub passes: Vec<Pass<K>>,
}
