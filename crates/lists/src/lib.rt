//! The entries of a list, from the last to the first: so the nodes of a list are linked.
#![tactic(auto)]

ghost use Rattle.std.specs.Prelude.{◌≡◌, ℕ, ◌+◌, ◌<◌, ◌≤◌, ◌^◌, [], length, IfSome, MatchOption};
ghost use Rattle.std.specs.Iterator.{YieldsFirst, item_count};
ghost use Rattle.grammar.specs.Machine.{Repetition, Single, Whole};
ghost use Rattle.grammar.specs.Trees.{Many, one, more, Expr, Exprs, first, comma, Condition, Entry, Values, only, and, Destination, Arms, Locals, Fields};
ghost use Rattle.nodes.specs.Nodes.{At, IsMany, IsExpr, IsExprs, IsComparison, IsCondition, IsEntry, IsValues, IsDestination, IsArms, IsLocal, IsLocals, IsFields};
ghost use Rattle.nodes.specs.declared.Node.TheVariants.{Absent};
ghost use Rattle.nodes.specs.Lists.{IsSingle, IsWhole};
ghost use Rattle.lists.specs.Lists.{shape_of as shape_at, listed, left, Flat, Stand, of_each, of_whole, of_many, comparisons, of_arms, of_locals, of_fields};

use nodes::{Node, node_at};

/// What a list is made of: no entry; one; or a list in front, and the last entry.
#[derive(Clone, Copy)]
enum Shape {
    Empty,
    One(usize),
    More(usize, usize),
}

/// What the list at k is made of. An entry of components or parameters is the node of the list that ends with it.
fn shape_of(k: usize, node: Node) -> Shape
    ensures { result ≡ shape_at k node }
{
    match node {
        Node::Also(front, last) | Node::Locals(front, last) => Shape::More(front, last),
        Node::AlsoField(front, _) | Node::NextField(front, _, _) => Shape::More(front, k),
        Node::NoLocals | Node::Absent => Shape::Empty,
        _ => Shape::One(k),
    }
}

/// The entries that are left of a list.
#[derive(Clone, Copy)]
pub struct Backwards<'t> {
    nodes: &'t [Node],
    rest: Option<usize>,
}

/// The entries of the list whose node has the index `list`, the last one first. The comparisons of a condition are the entries of its
/// entries. Where something was left out there are none.
pub fn entries(nodes: &[Node], list: usize) -> Backwards<'_>
    ensures listed { left result ≡ listed nodes.now list }
    ensures repeated { (r : Repetition) (t : Whole r) → Flat r → IsWhole r t nodes.now list → Stand (IsSingle r) (of_whole r t) nodes.now (left result) }
    ensures conditions { (t : Condition) → IsCondition t nodes.now list → Stand IsComparison (comparisons t) nodes.now (of_each nodes.now (left result)) }
    ensures destinations { (t : Many Destination) → IsMany IsDestination t nodes.now list → Stand IsDestination (of_many t) nodes.now (left result) }
    ensures arms { (t : Arms) → IsArms t nodes.now list → Stand IsArms (of_arms t) nodes.now (left result) }
    ensures locals { (t : Locals) → IsLocals t nodes.now list → Stand IsLocal (of_locals t) nodes.now (left result) }
    ensures fields { (t : Fields) → IsFields t nodes.now list → Stand IsFields (of_fields t) nodes.now (left result) }
    ensures absent { At nodes.now list Absent → left result ≡ [] }
{
    Backwards {
        nodes,
        rest: Some(list),
    }
}

impl Iterator for Backwards<'_> {
    type Item = usize;

    ghost next_gives = { YieldsFirst left };

    ghost remaining = { item_count left };

    #[tactic(auto, using(crate::proofs::Listed::taken))]
    fn next(&mut self) -> Option<usize> {
        let at = self.rest.take()?;
        match shape_of(at, node_at(self.nodes, at)) {
            Shape::Empty => None,
            Shape::One(entry) => Some(entry),
            Shape::More(front, last) => {
                if front < at {
                    self.rest = Some(front);
                }
                Some(last)
            }
        }
    }
}

/// How many entries are left.
fn count(list: Backwards<'_>) -> usize
    requires { length (left list) < 2 ^ 64 }
    ensures { result ≡ length (left list.entry) }
{
    list.count()
}

/// How many entries a list has.
pub fn how_many(nodes: &[Node], list: usize) -> usize
    requires small { list + 1 < 2 ^ 64 }
    ensures counted { (r : Repetition) (t : Whole r) → Flat r → IsWhole r t nodes.now list → result ≡ length (of_whole r t) }
    ensures few { result ≤ list + 1 }
{
    count(entries(nodes, list))
}

/// The list in front of the last entry of a list of expressions, values or destinations, and this entry; nothing where there is one entry alone.
pub fn parted(nodes: &[Node], list: usize) -> Option<(usize, usize)>
    ensures expressions { (es : Exprs) → IsExprs es nodes.now list → MatchOption result ((e : Expr 5) × IsExpr e nodes.now list × (es ≡ first e)) (λ p. (fs : Exprs) × (e : Expr 5) × IsExprs fs nodes.now p.0 × IsExpr e nodes.now p.1 × (es ≡ comma fs e)) }
    ensures values { (vs : Values) → IsValues vs nodes.now list → MatchOption result ((e : Entry) × IsEntry e nodes.now list × (vs ≡ only e)) (λ p. (us : Values) × (e : Entry) × IsValues us nodes.now p.0 × IsEntry e nodes.now p.1 × (vs ≡ and us e)) }
    ensures destinations { (ds : Many Destination) → IsMany IsDestination ds nodes.now list → MatchOption result ((d : Destination) × IsDestination d nodes.now list × (ds ≡ one d)) (λ p. (es : Many Destination) × (d : Destination) × IsMany IsDestination es nodes.now p.0 × IsDestination d nodes.now p.1 × (ds ≡ more es d)) }
    ensures lower { IfSome result (λ p. (p.0 < list) × (p.1 < list)) }
{
    let Shape::More(front, last) = shape_of(list, node_at(nodes, list)) else {
        return None;
    };
    if front < list && last < list {
        Some((front, last))
    } else {
        None
    }
}
