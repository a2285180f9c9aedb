//! The components of record modes.
ghost use Rattle.std.specs.Prelude.{ℕ, map};
ghost use Rattle.grammar.specs.Trees.{Fields, Moditem, Module};
ghost use Rattle.nodes.specs.Nodes.{IsFields, IsModitem, IsModule};
ghost use Rattle.statics.specs.Scopes.{Text as Facts};
ghost use Rattle.statics.specs.Written.{gather};
ghost use Rattle.statics.specs.Modules.{fields, moditem_parts};
ghost use Rattle.scopes.specs.Meanings.{component_means};
ghost use Rattle.frames.specs.Frames.{Ahead, Kept};
ghost use Rattle.inventory.specs.Parts.{part_of};

use frames::fields::field_at;
use frames::filling::put;
use lists::entries;
use nodes::{Node, node_at};
use scopes::Component;

/// Puts the components of the record mode that the item `owner` names in front of the others.
fn put_components(
    parts: &mut [Component],
    start: usize,
    nodes: &[Node],
    owner: usize,
    list: usize,
) -> usize
    ensures kept { Kept start parts.old result parts.new }
    ensures put { (x : Facts) (fs : Fields) → IsFields fs nodes.now list → Ahead (component_means x) (map (part_of x owner) (fields x fs)) start parts.old result parts.new }
{
    let mut start = start;
    for entry in entries(nodes, list) {
        let field = field_at(nodes, entry);
        let (item, mode) = (field.item, field.mode);
        start = put(parts, start, Component { owner, item, mode });
    }
    start
}

/// Puts the components that an item of a module declares in front of the others.
fn put_parts(parts: &mut [Component], start: usize, nodes: &[Node], k: usize) -> usize
    ensures kept { Kept start parts.old result parts.new }
    ensures put { (x : Facts) (a : Moditem) → IsModitem a nodes.now k → Ahead (component_means x) (moditem_parts x a) start parts.old result parts.new }
{
    match node_at(nodes, k) {
        Node::RecordMode(name, _, list) => put_components(parts, start, nodes, name, list),
        _ => start,
    }
}

/// Puts the components of all record modes of a module into a table, from its end, and answers where they begin.
pub fn parts_of_module(parts: &mut [Component], start: usize, nodes: &[Node], root: usize) -> usize
    ensures kept { Kept start parts.old result parts.new }
    ensures put { (x : Facts) (m : Module) → IsModule m nodes.now root → Ahead (component_means x) (gather (moditem_parts x) m) start parts.old result parts.new }
{
    let mut start = start;
    for item in entries(nodes, root) {
        start = put_parts(parts, start, nodes, item);
    }
    start
}
