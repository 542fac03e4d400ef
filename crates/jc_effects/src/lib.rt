//! What an operation changed in a document: the difference of the trees before and after it, and its JSON.
#![tactic(auto)]

mod along;
mod below;
mod effects;
mod entries;
pub mod laws;
mod own;
mod places;
mod writing;

pub use along::effects_of;
pub use effects::Effects;
pub use own::{OwnEffects, Tags};
pub use places::differs_at;
pub use writing::write_effects;
