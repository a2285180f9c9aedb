//! The first item of a form, and the item at which its misfit is told.
ghost use Rattle.std.specs.Prelude.{◌≡◌, ℕ, ◌≤◌};
ghost use Rattle.grammar.specs.Trees.{Expr, Variable};
ghost use Rattle.nodes.specs.Nodes.{IsExpr, IsVariable};
ghost use Rattle.statics.specs.Fronts.{front as front_of, front_variable, spot as spot_of};
ghost use Rattle.judging.specs.Openings.{left_of, item_of, layers as layers_of, stripped, layer as layer_of};

use nodes::{Node, node_at};

/// The form that stands left in a node's form, if one does.
fn left(node: Node) -> Option<usize>
    ensures { result ≡ left_of node }
{
    match node {
        Node::Dyadic(_, _, left, _) | Node::Element(left, _, _) | Node::Component(left, _) => Some(
            left,
        ),
        _ => None,
    }
}

/// The item that a node's form begins with, where no form stands left in it.
fn opening(node: Node) -> usize
    ensures { result ≡ item_of node }
{
    match node {
        Node::Monadic(_, item, _)
        | Node::Paren(item, _)
        | Node::Integer(item)
        | Node::Text(item)
        | Node::Name(item)
        | Node::Call(item, _)
        | Node::CallOn(item, _, _) => item,
        _ => 0,
    }
}

/// The first item of a form.
pub fn front(nodes: &[Node], k: usize) -> usize
    ensures expression { (n : ℕ) (e : Expr n) → IsExpr e nodes.now k → result ≡ front_of e }
    ensures variable { (v : Variable) → IsVariable v nodes.now k → result ≡ front_variable v }
{
    let mut at = k;
    loop {
        match left(node_at(nodes, at)) {
            Some(left) if left < at => at = left,
            _ => return opening(node_at(nodes, at)),
        }
    }
}

/// The item at which a misfit of an expression is told: the first of what stands inside brackets.
pub fn spot(nodes: &[Node], k: usize) -> usize
    ensures { (n : ℕ) (e : Expr n) → IsExpr e nodes.now k → result ≡ spot_of e }
{
    let mut at = k;
    loop {
        match node_at(nodes, at) {
            Node::Paren(_, inner) if inner < at => at = inner,
            _ => return front(nodes, at),
        }
    }
}

/// How many subscripts and selectors stand one behind the other in a variable.
pub fn layers(nodes: &[Node], k: usize) -> usize
    ensures { (v : Variable) → IsVariable v nodes.now k → result ≡ layers_of v }
{
    let mut at = k;
    let mut count = 0;
    loop {
        match left(node_at(nodes, at)) {
            Some(left) if left < at => {
                at = left;
                count += 1;
            }
            _ => return count,
        }
    }
}

/// A variable without its last subscript or selector; a name as it is.
fn strip(nodes: &[Node], k: usize) -> usize
    ensures stripped { (v : Variable) → IsVariable v nodes.now k → IsVariable (stripped v) nodes.now result }
    ensures further { result ≤ k }
{
    match left(node_at(nodes, k)) {
        Some(left) if left < k => left,
        _ => k,
    }
}

/// A variable without its last so many subscripts and selectors.
pub fn layer(nodes: &[Node], k: usize, depth: usize) -> usize
    ensures layer { (v : Variable) → IsVariable v nodes.now k → IsVariable (layer_of v depth) nodes.now result }
    ensures further { result ≤ k }
{
    let mut at = k;
    for _ in 0..depth {
        at = strip(nodes, at);
    }
    at
}
