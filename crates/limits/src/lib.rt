//! What a module may have: no name twice in a scope; of parameters and locals of a procedure no more than a station has room for.
#![tactic(auto)]

pub mod crowds;
pub mod doubles;
pub mod twice;

ghost use Rattle.std.specs.Prelude.{◌≡◌, ◌++◌, option_to_list};
ghost use Rattle.grammar.specs.Trees.{Moditem};
ghost use Rattle.nodes.specs.Nodes.{IsModitem};
ghost use Rattle.statics.specs.JudgeLimits.{least};
ghost use Rattle.limits.specs.Procedures.{Found};

use nodes::{Node, node_at};

/// The earlier of two items.
fn earlier(a: Option<usize>, b: Option<usize>) -> Option<usize>
    ensures { result ≡ least (option_to_list a ++ option_to_list b) }
{
    match (a, b) {
        (Some(a), Some(b)) => Some(a.min(b)),
        (a, b) => a.or(b),
    }
}

/// A procedure of a module: where its parameters stand, and its body.
#[derive(Clone, Copy)]
struct Procedure {
    parameters: usize,
    body: usize,
}

/// The procedure that an item of a module is, if it is one.
fn procedure_at(nodes: &[Node], moditem: usize) -> Option<Procedure>
    ensures { (a : Moditem) → IsModitem a nodes.now moditem → Found nodes.now a result }
{
    let (Node::Own(brick) | Node::Ent(brick)) = node_at(nodes, moditem) else {
        return None;
    };
    let Node::Procedure(heading, body, _) = node_at(nodes, brick) else {
        return None;
    };
    let Node::Heading(_, _, parameters, _) = node_at(nodes, heading) else {
        return None;
    };
    Some(Procedure { parameters, body })
}
