//! The strings of a construct.
ghost use Rattle.std.specs.Prelude.{◌≡◌, ◌<◌, ◌++◌, ℕ, List, IfSome, length};
ghost use Rattle.grammar.specs.Trees.{Body, Value};
ghost use Rattle.nodes.specs.Nodes.{IsBody, IsValue};
ghost use Rattle.statics.specs.Space.{body_strings, string_charges, value_strings};
ghost use Rattle.texts.specs.Facts.{facts};
ghost use Rattle.frames.specs.Frames.{Ahead, Kept};
ghost use Rattle.space.specs.Charges.{charge_means};
ghost use Rattle.space.specs.Strings.{of_part, own_string, parted, strings_at};

use crate::Charge;
use frames::filling::put;
use nodes::{Node, node_at};
use texts::Text;

/// The parts of a construct in which strings may be: the last one, and one in front of it. An only one counts as one in front: it is gone into by a
/// loop, so that a long row of signs takes no more of the stack than a short one.
#[derive(Clone, Copy)]
struct Parts {
    front: Option<usize>,
    last: Option<usize>,
}

/// The parts of a node.
fn parts_of(node: Node) -> Parts
    ensures { (f : ℕ → List ℕ) (k : ℕ) → parted f k node ≡ own_string node ++ (of_part f k result.front ++ of_part f k result.last) }
{
    match node {
        Node::Dyadic(_, _, front, last)
        | Node::Compare(_, front, last)
        | Node::Also(front, last)
        | Node::Element(front, _, last)
        | Node::Locals(front, last)
        | Node::Body(front, last)
        | Node::Assign(front, last)
        | Node::BranchElse(front, last)
        | Node::Repeat(front, last)
        | Node::Loop(front, last)
        | Node::When(front, last) => Parts {
            front: Some(front),
            last: Some(last),
        },
        Node::Monadic(_, _, only)
        | Node::Paren(_, only)
        | Node::CallOn(_, _, only)
        | Node::Component(only, _)
        | Node::Given(_, only)
        | Node::Local(_, only)
        | Node::Val(_, only)
        | Node::Block(only)
        | Node::InvokeOn(_, _, only)
        | Node::Branch(only)
        | Node::ReturnWith(_, _, only)
        | Node::List(_, only)
        | Node::Repeated(only, _, _) => Parts {
            front: Some(only),
            last: None,
        },
        _ => Parts {
            front: None,
            last: None,
        },
    }
}

/// A part of the node at `at`, if it stands further in front, as each one does.
fn further(part: Option<usize>, at: usize) -> Option<usize>
    ensures below { IfSome result (λ l. l < at) }
    ensures same { (f : ℕ → List ℕ) → of_part f at part ≡ of_part f at result }
{
    part.filter(|k| *k < at)
}

/// Puts the strings of a construct in front of the charges, from `start` on, and answers where they begin then.
pub fn put_strings(
    charges: &mut [Charge],
    start: usize,
    text: Text<'_>,
    nodes: &[Node],
    k: usize,
) -> usize
    ensures kept { Kept start charges.old result charges.new }
    ensures strings { Ahead charge_means (string_charges (facts text.entry) (strings_at nodes.now k)) start charges.old result charges.new }
    ensures body { (b : Body) → IsBody b nodes.now k → Ahead charge_means (string_charges (facts text.entry) (body_strings b)) start charges.old result charges.new }
    ensures value { (v : Value) → IsValue v nodes.now k → Ahead charge_means (string_charges (facts text.entry) (value_strings v)) start charges.old result charges.new }
{
    let mut start = start;
    let mut at = k;
    loop {
        let node = node_at(nodes, at);
        if let Node::Text(item) | Node::Literal(item) = node {
            let amount = text.size(item);
            return put(charges, start, Charge { item, amount });
        }
        let parts = parts_of(node);
        if let Some(last) = further(parts.last, at) {
            start = put_strings(charges, start, text, nodes, last);
        }
        match further(parts.front, at) {
            Some(front) => at = front,
            None => return start,
        }
    }
}
