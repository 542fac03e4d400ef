//! What works on a document, in a plain store and in a fast one.

ghost use Rattle.jc_store_tests.specs.Ready.{IsReady};

use crate::clearing::clears_by_hand;
use crate::expressions::{in_a_list, names_in_a_map};
use crate::keys::Keys;
use crate::long::is_long;
use crate::operations::{fast, fit_in_both, give_a_tree, is_refused, plain};
use jc_tree::TreeStore;
use std::alloc::AllocError;
use std::process::Abort;

/// How many turns there are.
const TURNS: u64 = 9;

/// Whether what has its turn works as it should in an empty document.
fn works<S: TreeStore>(
    rt: &impl Abort,
    keys: &Keys,
    store: &mut S,
    turn: u64,
) -> Result<bool, AllocError>
    requires { IsReady 0 (S.tree store.old).now }
{
    match turn {
        0 => give_a_tree(keys, store),
        1 => is_refused(keys, store),
        2 => fit_in_both(keys, store),
        3 => in_a_list(keys, store),
        4 => names_in_a_map(rt, keys, store),
        5 => is_long(keys, store),
        _ => clears_by_hand(rt, keys, store, turn),
    }
}

fn works_in_a_plain_one(rt: &impl Abort, keys: &Keys, turn: u64) -> Result<bool, AllocError> {
    let mut store = plain(keys.alloc);
    works(rt, keys, &mut store, turn)
}

fn works_in_a_fast_one(rt: &impl Abort, keys: &Keys, turn: u64) -> Result<bool, AllocError> {
    let mut store = fast(keys.alloc)?;
    works(rt, keys, &mut store, turn)
}

/// All turns work in both stores.
pub fn all_work(rt: &impl Abort, keys: &Keys) -> Result<(), AllocError> {
    for turn in 0..TURNS {
        let is = works_in_a_plain_one(rt, keys, turn)? && works_in_a_fast_one(rt, keys, turn)?;
        assert!(rt; is, "{turn}");
    }
    Ok(())
}
