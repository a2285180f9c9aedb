//! The places of data and strings: how many a module has, and the name or string with which they pass what a station has.
#![tactic(auto)]

pub mod charging;
pub mod strings;

ghost use Rattle.std.specs.Prelude.{◌≡◌, ◌≤◌, ◌<◌, ◌^◌, length, map};
ghost use Rattle.grammar.specs.Trees.{Module};
ghost use Rattle.nodes.specs.Nodes.{IsModule};
ghost use Rattle.statics.specs.Written.{gather};
ghost use Rattle.statics.specs.Space.{moditem_charges};
ghost use Rattle.statics.specs.JudgeLimits.{passing as passing_of, report};
ghost use Rattle.statics.specs.declared.Refusal.TheVariants.{TooManyPlaces};
ghost use Rattle.texts.specs.Facts.{facts};
ghost use Rattle.scopes.specs.Meanings.{env_means, Answers};
ghost use Rattle.space.specs.Charges.{charge_means};

use charging::put_module;
use nodes::Node;
use scopes::Env;
use statics::Refusal;

/// A name of data or a string, and the places that it adds.
#[derive(Clone, Copy)]
pub struct Charge {
    pub item: usize,
    pub amount: usize,
}

/// How many places of data and strings a module may have.
const MAX_PLACES: usize = 4096;

/// The item with which the places pass what there may be.
fn passing(charges: &[Charge]) -> Option<usize>
    ensures { result ≡ passing_of 4096 0 (map charge_means charges.now) }
{
    let mut used = 0usize;
    for charge in charges {
        used = used.saturating_add(charge.amount);
        if used > MAX_PLACES {
            return Some(charge.item);
        }
    }
    None
}

/// There are too many places of data and strings in a module. What they are is put into the table.
pub fn space(env: Env<'_>, nodes: &[Node], root: usize, table: &mut [Charge]) -> Result<(), Refusal>
    requires few { length env.parts.now < 2 ^ 32 }
    ensures { (m : Module) → IsModule m nodes.now root → length (gather (moditem_charges (facts env.entry.text) (env_means env.entry).parts) m) ≤ length table.old → Answers (λ u. tt) result (report TooManyPlaces (passing_of 4096 0 (gather (moditem_charges (facts env.entry.text) (env_means env.entry).parts) m))) }
{
    let end = table.len();
    let start = put_module(env, table, end, nodes, root);
    match passing(&table[start..]) {
        Some(item) => Err(Refusal::TooManyPlaces(item)),
        None => Ok(()),
    }
}
