//! The kinds of steps at the lock's table, and how a seat is split or joined: steps.rt, open.rt and close.rt name them.
ghost use Rattle.jc_lock.specs.Steps.{Draws, Looks, PassesOn, Publishes, ReadsWord, rest_of_deal, next_of_deal, join_of, spent_view};

use crate::kept::Kept;
use crate::view::View;
use atomic_table::{Join, Play, Split};

/// Draws a ticket.
pub(crate) struct Draw;

impl<K: Kept> Play<Option<K>, View<K::Entry, K::Origin>> for Draw {
    ghost then = { Draws };
}

/// Looks whether the ticket is due, and if so takes the value's slot.
pub(crate) struct Look;

impl<K: Kept> Play<Option<K>, View<K::Entry, K::Origin>> for Look {
    ghost then = { Looks K.origin K.list K.maker };
}

/// Counts the entry that was added to the value in the slot.
pub(crate) struct Publish;

impl<K: Kept> Play<Option<K>, View<K::Entry, K::Origin>> for Publish {
    ghost then = { Publishes K.list };
}

/// Gives the slot back, and the turn to the next ticket.
pub(crate) struct PassOn;

impl<K: Kept> Play<Option<K>, View<K::Entry, K::Origin>> for PassOn {
    ghost then = { PassesOn };
}

/// Reads the length of the history.
pub(crate) struct Read;

impl<K: Kept> Play<Option<K>, View<K::Entry, K::Origin>> for Read {
    ghost then = { ReadsWord K.maker };
}

/// Splits off the seat of the next pass.
pub(crate) struct Deal;

impl<E, O> Split<View<E, O>> for Deal {
    ghost left = { rest_of_deal };

    ghost right = { next_of_deal };
}

/// Joins the seat of a pass to the seat that closes the lock.
pub(crate) struct Gather;

impl<E, O> Join<View<E, O>> for Gather {
    ghost both = { join_of };

    ghost spent = { spent_view };
}
