//! One replica: its commands, its yield events, and its way back. A network of jc_network has several.
#![tactic(auto)]

mod apply;
mod can;
mod exec;
mod fault;
mod last_step;
mod op_list;
mod operation;
mod received;
mod record;
mod recv;
mod replica;
mod undo;
mod vars;
mod yielding;

pub use fault::ReplicaFault;
pub use last_step::LastStep;
pub use received::find;
pub use replica::Replica;
