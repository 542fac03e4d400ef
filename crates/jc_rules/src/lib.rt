//! The rules of the JSON CRDT: one table, what it speaks of, and the small types that every layer shares.
#![tactic(auto)]

pub mod examples;
mod id;
mod id_set;
mod key;
pub mod laws;
pub mod limits;
mod names;
mod operation;
mod pairs;
mod path;
mod refusal;
mod rule;
mod run;
mod runs;
mod text;
mod trace;
mod value;
mod version;

pub use id::Id;
pub use id_set::{IdSet, insert_id};
pub use key::{Key, Next, Tagged, compare_ids, compare_keys};
pub use names::Names;
pub use operation::{Cursor, Event, Mutation, Op};
pub use pairs::Pairs;
pub use path::Path;
pub use refusal::Refusal;
pub use rule::Rule;
pub use run::Run;
pub use text::{Text, name_at};
pub use trace::{Trace, TraceMark};
pub use value::Value;
pub use version::Version;
