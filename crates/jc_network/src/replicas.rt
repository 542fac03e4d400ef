//! The replicas of a network at the start of its scenario, and where their histories begin anew.

ghost use Rattle.std.specs.Prelude.{◌≡◌, IfOk, map};
ghost use Rattle.jc_scenario.specs.Views.{scripts_view};
ghost use Rattle.jc_network.specs.NetworkHistory.{begin_now};
ghost use Rattle.jc_network.specs.Refines.{AreShort};
ghost use Rattle.jc_network.specs.Start.{replicas_from};

use jc_replica::Replica;
use jc_syntax::Cmd;
use jc_tree::ArenaTree;
use std::alloc::{AllocError, Global};

/// A replica at its start for each script, which it takes over.
pub(crate) fn replicas_of(
    alloc: Global,
    scripts: Vec<Vec<Cmd>>,
) -> Result<Vec<Replica<ArenaTree>>, AllocError>
    requires { AreShort (scripts_view scripts.items) }
    ensures { IfOk result (λ replicas. replicas.items ≡ replicas_from 0 (scripts_view scripts.items)) }
{
    let mut replicas = Vec::new(alloc);
    let mut number: u16 = 0;
    for script in scripts {
        let store = ArenaTree::new(alloc)?;
        replicas.push(Replica::new(alloc, number, script, store))?;
        number += 1;
    }
    Ok(replicas)
}

/// Lets each replica begin at its state now.
pub(crate) fn begin_all(replicas: &mut [Replica<ArenaTree>])
    ensures { replicas.new ≡ map begin_now replicas.old }
{
    for p in 0..replicas.len() {
        replicas[p].begin();
    }
}
