//! Reading assignments and calls of procedures into nodes.
ghost use Rattle.std.specs.Prelude.{◌≡◌, ◌+◌, ◌*◌, ◌<◌, ◌≤◌, [], ◌∷◌, length, MatchResult, slice_index_or};
ghost use Rattle.nodes.specs.Made.{Fewer, MadeFrom, Way, Refused, by_val, VariableWay, VariableRefused, Room, ReadsTo, Reads, ReadsFewer};
ghost use Rattle.nodes.specs.Nodes.{IsMany, IsPrimary, IsVariable, IsDestination, IsStatement, blank_node};
ghost use Rattle.grammar.specs.Symbols.{Says, STOP, NAME, BECOMES, VAL};
ghost use Rattle.grammar.specs.Trees.{Many, Primary, Variable, Destination, Statement, of_variable, of_statement};
ghost use Rattle.grammar.specs.Machine.{tok, parts, start, a_source, a_statement};
ghost use Rattle.statements.specs.Assigning.{Form, Shows, IsPlace, invocation as invocation_of, of_target, of_targets, TargetsWay, ValWay, Onward};

use expressions::{expr, form, variable};
use grammar::Symbol;
use nodes::{Fault, Node, Parsed, Spot, node_at, put};

/// What a form is that begins with a name: a call, by its name, bracket and expressions; a name with one index, which may be a call
/// with one expression or a destination; or any other variable, which can only be a destination.
#[derive(Clone, Copy)]
enum Shape {
    Place,
    Indexed(usize, usize, usize),
    Called(usize, usize),
    CalledOn(usize, usize, usize),
}

/// What the form is whose node has the index k.
fn shape_of(nodes: &[Node], k: usize) -> Shape
    ensures { (t : Primary) → Form t → IsPrimary t nodes.now k → Shows result nodes.now k t }
{
    match node_at(nodes, k) {
        Node::Call(name, bracket) => Shape::Called(name, bracket),
        Node::CallOn(name, bracket, given) => Shape::CalledOn(name, bracket, given),
        Node::Element(base, bracket, index) => match node_at(nodes, base) {
            Node::Name(name) => Shape::Indexed(name, bracket, index),
            _ => Shape::Place,
        },
        _ => Shape::Place,
    }
}

/// Whether a form of this shape, which ends before j, is a destination: a variable with ':=' behind it.
fn destined(from: Spot<'_>, j: usize, shape: Shape) -> bool
    ensures { Says result (IsPlace shape × (slice_index_or from.entry.symbols.now j STOP ≡ BECOMES)) }
{
    matches!(shape, Shape::Place | Shape::Indexed(..)) && from.peek(j) == Symbol::Becomes
}

/// The node of the statement that a form of this shape is, if it is a call.
fn invocation(shape: Shape) -> Option<Node>
    ensures { result ≡ invocation_of shape }
{
    match shape {
        Shape::Place => None,
        Shape::Indexed(name, bracket, index) => Some(Node::InvokeOn(name, bracket, index)),
        Shape::Called(name, bracket) => Some(Node::Invoke(name, bracket)),
        Shape::CalledOn(name, bracket, given) => Some(Node::InvokeOn(name, bracket, given)),
    }
}

/// A variable whose name is there, VAL being in front of it.
fn val_variable(from: Spot<'_>, nodes: &mut [Node]) -> Result<Parsed, Fault>
    requires named { slice_index_or from.symbols.now from.next STOP ≡ NAME }
    requires there { from.next < length from.symbols.now }
    requires room { Room 0 from nodes.old }
    ensures { Reads 0 Variable IsVariable of_variable (VariableWay by_val) (VariableRefused by_val) from.entry nodes.old nodes.new result }
{
    let name = put(nodes, from.used, Node::Name(from.next), from.next + 1);
    variable(from, nodes, name)
}

/// A destination that begins with VAL there, with the ':=' behind it.
fn val_target(from: Spot<'_>, nodes: &mut [Node]) -> Result<Parsed, Fault>
    requires valued { slice_index_or from.symbols.now from.next STOP ≡ VAL }
    requires there { from.next < length from.symbols.now }
    requires room { Room 0 from nodes.old }
    ensures { ReadsFewer 0 Destination IsDestination of_target ValWay (λ d s i f. Refused (tok NAME ∷ parts start ∷ []) d s (i + 1) f) from.entry nodes.old nodes.new result }
{
    from.expect(from.next + 1, Symbol::Name)?;
    let behind = Spot {
        next: from.next + 1,
        ..from
    };
    let v = val_variable(behind, nodes)?;
    from.expect(v.next, Symbol::Becomes)?;
    Ok(put(nodes, v.used, Node::Val(from.next, v.root), v.next + 1))
}

/// Behind a ':=', there: one more destination with the ':=' behind it, or nothing where an expression is.
fn destination(from: Spot<'_>, nodes: &mut [Node]) -> Result<Option<Parsed>, Fault>
    requires room { Room 0 from nodes.old }
    ensures { MatchResult result (λ o. Onward from.entry.depth from.entry.symbols.now from.entry.next from.entry.used nodes.old nodes.new o) (λ f. Refused (a_source ∷ []) from.entry.depth from.entry.symbols.now from.entry.next f) }
{
    match from.peek(from.next) {
        Symbol::Val => val_target(from, nodes).map(Some),
        Symbol::Name => {
            let f = form(from, nodes)?;
            if !destined(from, f.next, shape_of(nodes, f.root)) {
                return Ok(None);
            }
            Ok(Some(Parsed {
                next: f.next + 1,
                ..f
            }))
        }
        _ => Ok(None),
    }
}

// No `read_list`: its entries end in ':=', and whether a further one stands there is known only by reading it.
/// The rest of an assignment that begins there, its first destination having been read, with the ':=' behind it, up to `first`.
fn assignment(from: Spot<'_>, nodes: &mut [Node], first: Parsed) -> Result<Parsed, Fault>
    requires room { Room 0 from nodes.old }
    requires begun { MadeFrom 0 (Many Destination) (IsMany IsDestination) of_targets TargetsWay from nodes.old nodes.old first }
    requires few { Fewer from.next from.used first }
    ensures { ReadsTo 1 Statement IsStatement of_statement (a_statement ∷ []) from.entry nodes.old nodes.new result }
{
    let mut at = first;
    while let Some(d) = destination(from.after(at), nodes)? {
        at = put(nodes, d.used, Node::Also(at.root, d.root), d.next);
    }
    let e = expr(from.after(at), nodes)?;
    Ok(put(nodes, e.used, Node::Assign(at.root, e.root), e.next))
}

/// A statement that begins with VAL there.
pub fn valued(from: Spot<'_>, nodes: &mut [Node]) -> Result<Parsed, Fault>
    requires valued { slice_index_or from.symbols.now from.next STOP ≡ VAL }
    requires there { from.next < length from.symbols.now }
    requires room { Room 1 from nodes.old }
    ensures { ReadsTo 1 Statement IsStatement of_statement (a_statement ∷ []) from.entry nodes.old nodes.new result }
{
    let first = val_target(from, nodes)?;
    assignment(from, nodes, first)
}

/// A statement that begins with a name there.
pub fn named(from: Spot<'_>, nodes: &mut [Node]) -> Result<Parsed, Fault>
    requires named { slice_index_or from.symbols.now from.next STOP ≡ NAME }
    requires there { from.next < length from.symbols.now }
    requires room { Room 1 from nodes.old }
    ensures { ReadsTo 1 Statement IsStatement of_statement (a_statement ∷ []) from.entry nodes.old nodes.new result }
{
    let f = form(from, nodes)?;
    let shape = shape_of(nodes, f.root);
    if destined(from, f.next, shape) {
        let first = Parsed {
            next: f.next + 1,
            ..f
        };
        return assignment(from, nodes, first);
    }
    let call = invocation(shape).ok_or(Fault::Syntax(f.next))?;
    Ok(put(nodes, f.used, call, f.next))
}
