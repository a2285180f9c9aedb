//! Modes as the nodes of a tree write them.
ghost use Rattle.std.specs.Prelude.{◌≡◌, ◌<◌, IfSome, MatchOption, slice_index_or};
ghost use Rattle.statics.specs.Scopes.{Text as Facts};
ghost use Rattle.statics.specs.Written.{mode_of, element_of};
ghost use Rattle.grammar.specs.Trees.{Mode as TreeMode, Amode};
ghost use Rattle.nodes.specs.Nodes.{IsMode, IsAmode, blank_node};
ghost use Rattle.modes.specs.Meanings.{base_means, element_means, mode_means, Bare, IsArrayOf};

use crate::{Base, Element, Mode, Plain, Thing};
use nodes::{Node, node_at};

/// What the node at k writes, of which no REF ARRAY stands in front.
fn base_at(nodes: &[Node], k: usize) -> Base
    ensures { (m : Amode) → Bare m → IsAmode m nodes.now k → (x : Facts) → base_means x result ≡ element_of x m }
{
    match node_at(nodes, k) {
        Node::Byte(_) => Base::Plain(Plain::Byte),
        Node::RefInt => Base::Ref(Plain::Int),
        Node::RefByte(_) => Base::Ref(Plain::Byte),
        Node::RefRecord(name) => Base::RefRecord(name),
        Node::Records(name) => Base::Record(name),
        _ => Base::Plain(Plain::Int),
    }
}

/// Where the elements are written, if the node at k writes a REF ARRAY.
fn behind_array(nodes: &[Node], k: usize) -> Option<usize>
    ensures below { IfSome result (λ r. r < k) }
    ensures cases { (m : Amode) → IsAmode m nodes.now k → MatchOption result (Bare m) (IsArrayOf nodes.now m) }
{
    match node_at(nodes, k) {
        Node::RefArray(inner) | Node::RefArrayBrackets(_, inner) if inner < k => Some(inner),
        _ => None,
    }
}

/// The elements that the node at k writes.
pub fn element_at(nodes: &[Node], k: usize) -> Element
    ensures { (m : Amode) → IsAmode m nodes.now k → (x : Facts) → element_means x result ≡ element_of x m }
{
    let mut arrays = 0;
    let mut at = k;
    while let Some(elements) = behind_array(nodes, at) {
        arrays += 1;
        at = elements;
    }
    Element {
        arrays,
        base: base_at(nodes, at),
    }
}

/// The mode that the node at k writes.
pub fn mode_at(nodes: &[Node], k: usize) -> Mode
    ensures { (m : TreeMode) → IsMode m nodes.now k → (x : Facts) → mode_means x result ≡ mode_of x m }
{
    match element_at(nodes, k).thing() {
        Thing::Place(_, mode) => mode,
        // a record, which no simple mode is
        _ => Mode::Plain(Plain::Int),
    }
}
