//! What programs are shown of the replicas of a network, as the texts of answers: views, states and values of expressions.
//! Nothing is changed here.
#![tactic(auto)]

mod fault;
mod looks;
mod networks;
mod values;

pub use fault::{LookFault, flag, refused_at, refused_with};
pub use looks::{Look, shown, state_of, states};
pub use networks::given_network;
pub use values::value_of;
