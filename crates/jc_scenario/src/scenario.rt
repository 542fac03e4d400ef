//! Scenarios in memory, as `read` returns them and networks start with them.

ghost use Rattle.std.specs.Prelude.{◌≡◌, IfOk};
ghost use Rattle.jc_scenario.specs.Views.{scripts_view};

use jc_rules::{Event, Text, Version};
use jc_syntax::{Cmd, copy_script};
use std::alloc::{AllocError, Global};

/// Replicas in the order of their names, each with its script; and given events and a schedule, by the numbers of the
/// replicas.
#[derive(Drop)]
pub struct Scenario {
    /// The version of its text.
    pub version: Version,
    pub names: Vec<Text>,
    /// The script of each replica.
    pub scripts: Vec<Vec<Cmd>>,
    /// Events that run before the schedule and lead to its start. Version 1 has none.
    pub given: Vec<Event>,
    pub schedule: Vec<Event>,
}

impl Scenario {
    ghost use Rattle.jc_scenario.specs.Views.{scenario_view};

    /// A copy of the scenario.
    pub fn copy(&self) -> Result<Self, AllocError>
        ensures { IfOk result (λ scenario. scenario_view scenario ≡ scenario_view self.now) }
    {
        let alloc = *self.names.allocator();
        Ok(Scenario {
            version: self.version,
            names: copy_names(alloc, &self.names)?,
            scripts: copy_scripts(alloc, &self.scripts)?,
            given: self.given.as_slice().to_vec(alloc)?,
            schedule: self.schedule.as_slice().to_vec(alloc)?,
        })
    }
}

/// A copy of the names.
pub fn copy_names(alloc: Global, names: &[Text]) -> Result<Vec<Text>, AllocError>
    ensures { IfOk result (λ copies. copies.items ≡ names.now) }
{
    let mut copies = Vec::new(alloc);
    for name in names {
        copies.push(name.copy()?)?;
    }
    Ok(copies)
}

/// A copy of the scripts.
pub fn copy_scripts(alloc: Global, scripts: &[Vec<Cmd>]) -> Result<Vec<Vec<Cmd>>, AllocError>
    ensures { IfOk result (λ copies. scripts_view copies.items ≡ scripts_view scripts.now) }
{
    let mut copies = Vec::new(alloc);
    for script in scripts {
        copies.push(copy_script(alloc, script)?)?;
    }
    Ok(copies)
}
