//! The replicas of a text, put in the order of their names. `reading` numbers them so.

ghost use Rattle.std.specs.Prelude.{◌≡◌, ◌≢◌, ◌∷◌, IfOk, OnOk, All, AllPairs, Contains, IsPermutation, length, map};
ghost use Rattle.jc_rules.specs.Entries.{IsRising};
ghost use Rattle.jc_rules.specs.Order.{name_cmp};
ghost use Rattle.jc_parser.specs.ScenarioViews.{part_view, names_of};
ghost use Rattle.jc_scenario.specs.WellFormed.{parts_of};
ghost use Rattle.jc_scenario.specs.Views.{scripts_view};

use jc_parser::NamedReplica;
use jc_rules::Text;
use jc_syntax::Cmd;
use std::alloc::{AllocError, Global};

/// Inserts a replica where its name belongs in the order of names.
fn enter(
    names: &mut Vec<Text>,
    scripts: &mut Vec<Vec<Cmd>>,
    replica: NamedReplica,
) -> Result<(), AllocError>
    requires rising { IsRising name_cmp names.old.items }
    requires each { length scripts.old.items ≡ length names.old.items }
    requires new { Contains names.old.items replica.name → ⊥ }
    ensures rising { OnOk result (IsRising name_cmp names.new.items) }
    ensures each { OnOk result (length scripts.new.items ≡ length names.new.items) }
    ensures same { OnOk result (IsPermutation
        (part_view replica ∷ parts_of names.old.items (scripts_view scripts.old.items))
        (parts_of names.new.items (scripts_view scripts.new.items))) }
{
    let NamedReplica { name, script } = replica;
    let Err(place) = names.binary_search(&name) else {
        unreachable!();
    };
    names.insert(place, name)?;
    scripts.insert(place, script)?;
    Ok(())
}

/// The names of the replicas in rising order, and the script of each.
pub(crate) fn arranged(
    alloc: Global,
    replicas: Vec<NamedReplica>,
) -> Result<(Vec<Text>, Vec<Vec<Cmd>>), AllocError>
    requires apart { AllPairs (λ a b. a ≢ b) (names_of replicas.items) }
    ensures rising { IfOk result (λ r. IsRising name_cmp r.0.items) }
    ensures each { IfOk result (λ r. length r.1.items ≡ length r.0.items) }
    ensures same { IfOk result (λ r.
        IsPermutation (map part_view replicas.items) (parts_of r.0.items (scripts_view r.1.items))) }
{
    let mut names = Vec::new(alloc);
    let mut scripts = Vec::new(alloc);
    for replica in replicas {
        enter(&mut names, &mut scripts, replica)?;
    }
    Ok((names, scripts))
}
