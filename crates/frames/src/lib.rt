//! Where a construct of a module stands: what is in scope there; and tables of names, which are filled from the ends of lists.
#![tactic(auto)]

pub mod fields;
pub mod filling;
pub mod guards;
pub mod naming;

ghost use Rattle.std.specs.Prelude.{◌≡◌, ◌≤◌, length, option_map};
ghost use Rattle.grammar.specs.Trees.{Mode as TreeMode, Opt};
ghost use Rattle.nodes.specs.Nodes.{IsMode, IsOpt};
ghost use Rattle.statics.specs.Scopes.{Text as Facts};
ghost use Rattle.statics.specs.Modules.{maybe_mode as maybe_mode_of};
ghost use Rattle.modes.specs.Meanings.{mode_means};
ghost use Rattle.scopes.specs.Meanings.{env_means};
ghost use Rattle.frames.specs.Frames.{frame_means};

use modes::Mode;
use modes::written::mode_at;
use nodes::{Node, node_at};
use scopes::{Component, Declared, Env};
use texts::Text;

/// What is in scope, but for the names: of these the first `count` of a table are, and the first `ready` can be used.
#[derive(Clone, Copy)]
pub struct Frame<'w> {
    pub text: Text<'w>,
    pub count: usize,
    pub ready: usize,
    pub parts: &'w [Component],
    pub takes: &'w [Mode],
    pub result: Option<Mode>,
}

impl<'w> Frame<'w> {
    /// The same with the names of the table.
    pub fn env(self, names: &'w [Declared]) -> Env<'w>
        ensures means { env_means result ≡ frame_means self.entry names.now }
        ensures parts { result.parts.now ≡ self.entry.parts.now }
    {
        Env {
            text: self.text,
            names: names.get(..self.count).unwrap_or(names),
            ready: self.ready,
            parts: self.parts,
            takes: self.takes,
            result: self.result,
        }
    }
}

/// The mode that may be written at k.
pub fn maybe_mode(nodes: &[Node], k: usize) -> Option<Mode>
    ensures { (m : Opt TreeMode) → IsOpt IsMode m nodes.now k → (x : Facts) → option_map (mode_means x) result ≡ maybe_mode_of x m }
{
    match node_at(nodes, k) {
        Node::Absent => None,
        _ => Some(mode_at(nodes, k)),
    }
}
