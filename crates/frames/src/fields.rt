//! Components and parameters: lists of names, each with its mode or that of the one in front of it.
ghost use Rattle.std.specs.Prelude.{◌≡◌};
ghost use Rattle.grammar.specs.Trees.{Fields};
ghost use Rattle.nodes.specs.Nodes.{IsFields};
ghost use Rattle.statics.specs.Scopes.{Text as Facts};
ghost use Rattle.modes.specs.Meanings.{mode_means};
ghost use Rattle.frames.specs.Frames.{field_means, last_field};

use lists::entries;
use modes::written::mode_at;
use modes::{Mode, Plain};
use nodes::{Node, node_at};

/// A component or a parameter: the item that names it, and its mode.
#[derive(Clone, Copy)]
pub struct Field {
    pub item: usize,
    pub mode: Mode,
}

/// The item that names the last of the components at k.
fn field_item(nodes: &[Node], k: usize) -> usize
    ensures { (x : Facts) (fs : Fields) → IsFields fs nodes.now k → result ≡ (last_field x fs).item }
{
    match node_at(nodes, k) {
        Node::Field(_, item) | Node::AlsoField(_, item) | Node::NextField(_, _, item) => item,
        _ => k,
    }
}

/// The mode of the last of the components at k: written with it, or with one in front of it.
fn field_mode(nodes: &[Node], k: usize) -> Mode
    ensures { (x : Facts) (fs : Fields) → IsFields fs nodes.now k → mode_means x result ≡ (last_field x fs).mode }
{
    for field in entries(nodes, k) {
        if let Node::Field(mode, _) | Node::NextField(_, mode, _) = node_at(nodes, field) {
            return mode_at(nodes, mode);
        }
    }
    Mode::Plain(Plain::Int)
}

/// The last of the components at k.
pub fn field_at(nodes: &[Node], k: usize) -> Field
    ensures { (x : Facts) (fs : Fields) → IsFields fs nodes.now k → field_means x result ≡ last_field x fs }
{
    Field {
        item: field_item(nodes, k),
        mode: field_mode(nodes, k),
    }
}
