//! Trees of contexts: what every store of a document promises, a plain store and a fast one. The rules of
//! jc_clear, jc_apply and jc_cursor are written over any store.
#![tactic(auto)]

mod arena;
mod arena_node;
mod blocks;
mod columns;
mod entries;
mod ids;
mod keys;
pub mod laws;
mod lists;
mod node;
mod plain;
mod presences;
mod small_former;
mod store;
mod tables;

pub use arena::ArenaTree;
pub use plain::PlainTree;
pub use store::{
    ANYWHERE, Hint, KeyAt, KeysOf, Mark, Place, Step, Stretch, TreeStore, is_place, place_of,
};
