//! The parameters and locals of procedures.
ghost use Rattle.std.specs.Prelude.{◌≡◌, flat_map, length, map, slice_get, take};
ghost use Rattle.grammar.specs.Trees.{Arms, Body, Condition, Moditem, Module, Sequence, Statement, when};
ghost use Rattle.nodes.specs.Nodes.{IsArms, IsBody, IsModitem, IsModule, IsSequence, IsStatement};
ghost use Rattle.statics.specs.Order.{InModule};
ghost use Rattle.statics.specs.Written.{gather};
ghost use Rattle.statics.specs.Blocks.{arms_blocks, blocks, inner_blocks, statement_blocks};
ghost use Rattle.statics.specs.DeclaredTwice.{block_names};
ghost use Rattle.statics.specs.Crowds.{moditem_allowances};
ghost use Rattle.statics.specs.Modules.{moditem_names};
ghost use Rattle.statics.specs.JudgeLimits.{beyond as beyond_of, judge_locals, least};
ghost use Rattle.statics.specs.Scopes.{Text as Facts};
ghost use Rattle.scopes.specs.Meanings.{Answers};
ghost use Rattle.frames.specs.Frames.{Ahead, Behind, Kept};
ghost use Rattle.frames.specs.Rooms.{Roomy, Room};

use crate::{earlier, procedure_at};
use frames::filling::move_to_front;
use frames::naming::{declare_parameters, put_locals};
use lists::entries;
use nodes::{Node, node_at};
use scopes::Declared;
use statics::Refusal;

/// How many parameters a procedure may have.
const MAX_PARAMETERS: usize = 8;
/// How many locals a procedure may have, parameters counted.
const MAX_LOCALS: usize = 64;

/// Puts the locals of all blocks of a body in front of the others.
#[cycle(locals)]
fn put_body(names: &mut [Declared], start: usize, nodes: &[Node], k: usize) -> usize
    ensures kept { Kept start names.old result names.new }
    ensures put { (x : Facts) (b : Body) → IsBody b nodes.now k → Ahead (λ d. d.item) (blocks (block_names x) b) start names.old result names.new }
{
    let Node::Body(locals, statements) = node_at(nodes, k) else {
        return start;
    };
    if statements >= k {
        return start;
    }
    let start = put_statements(names, start, nodes, statements);
    put_locals(names, start, nodes, locals)
}

/// Puts the locals of the blocks in these statements, or in these conditions with their statements, in front of the others.
#[cycle(locals)]
fn put_statements(names: &mut [Declared], start: usize, nodes: &[Node], k: usize) -> usize
    ensures kept { Kept start names.old result names.new }
    ensures statements { (x : Facts) (ss : Sequence) → IsSequence ss nodes.now k → Ahead (λ d. d.item) (inner_blocks (block_names x) ss) start names.old result names.new }
    ensures arms { (x : Facts) (ws : Arms) → IsArms ws nodes.now k → Ahead (λ d. d.item) (arms_blocks (block_names x) ws) start names.old result names.new }
{
    let mut start = start;
    for entry in entries(nodes, k) {
        // always: an entry stands in front of its list's node, or is it; so the recursion ends
        if entry <= k {
            start = put_statement(names, start, nodes, entry);
        }
    }
    start
}

/// Puts the locals of the blocks in a statement in front of the others.
#[cycle(locals)]
fn put_statement(names: &mut [Declared], start: usize, nodes: &[Node], k: usize) -> usize
    ensures kept { Kept start names.old result names.new }
    ensures statement { (x : Facts) (s : Statement) → IsStatement s nodes.now k → Ahead (λ d. d.item) (statement_blocks (block_names x) s) start names.old result names.new }
    ensures arm { (x : Facts) (c : Condition) (ss : Sequence) → IsArms (when c ss) nodes.now k → Ahead (λ d. d.item) (inner_blocks (block_names x) ss) start names.old result names.new }
{
    match node_at(nodes, k) {
        Node::Block(inner) | Node::Repeat(_, inner) if inner < k => put_body(
            names, start, nodes, inner,
        ),
        Node::Branch(inner) | Node::Loop(_, inner) | Node::When(_, inner) if inner < k =>
            put_statements(names, start, nodes, inner),
        Node::BranchElse(arms, last) if arms < k && last < k => {
            let start = put_statements(names, start, nodes, last);
            put_statements(names, start, nodes, arms)
        }
        _ => start,
    }
}

/// Puts the locals of all blocks of a body behind the first `count` of the table, and answers how many stand there then.
fn declare_body(names: &mut [Declared], count: usize, nodes: &[Node], body: usize) -> usize
    ensures length { length names.new ≡ length names.old }
    ensures front { take count names.new ≡ take count names.old }
    ensures behind { (x : Facts) (b : Body) → IsBody b nodes.now body → Behind (λ d. d.item) (blocks (block_names x) b) count names.old result names.new }
{
    if count > names.len() {
        return count;
    }
    let room = &mut names[count..];
    let end = room.len();
    let start = put_body(room, end, nodes, body);
    count + move_to_front(room, start)
}

/// The item of the name that stands at `index`, if there is one.
fn item_at(names: &[Declared], index: usize) -> Option<usize>
    ensures { result ≡ slice_get (map (λ d. d.item) names.now) index }
{
    names.get(index).map(|name| name.item)
}

/// The first parameter or local that is beyond what a procedure may have. The first `count` of the table are the module's names.
fn beyond(names: &mut [Declared], count: usize, nodes: &[Node], k: usize) -> Option<usize>
    ensures length { length names.new ≡ length names.old }
    ensures front { take count names.new ≡ take count names.old }
    ensures found { (x : Facts) (a : Moditem) → IsModitem a nodes.now k → Roomy x count (length names.old) a → result ≡ least (flat_map beyond_of (moditem_allowances x a)) }
{
    let procedure = procedure_at(nodes, k)?;
    if count > names.len() {
        return None;
    }
    let room = &mut names[count..];
    let given = declare_parameters(room, 0, nodes, procedure.parameters);
    let all = declare_body(room, given, nodes, procedure.body);
    let parameters = room.get(..given).unwrap_or_default();
    let locals = room.get(..all).unwrap_or_default();
    earlier(
        item_at(parameters, MAX_PARAMETERS),
        item_at(locals, MAX_LOCALS),
    )
}

/// A procedure has too many parameters or locals. The first `count` of the table are the module's names.
pub fn crowds(
    names: &mut [Declared],
    count: usize,
    nodes: &[Node],
    root: usize,
) -> Result<(), Refusal>
    ensures length { length names.new ≡ length names.old }
    ensures front { take count names.new ≡ take count names.old }
    ensures judged { (x : Facts) (m : Module) → IsModule m nodes.now root → Room InModule m 0 (length names.old) → count ≡ length (gather (moditem_names x) m) → Answers (λ u. tt) result (judge_locals x m) }
{
    let mut found = None;
    for item in entries(nodes, root) {
        found = earlier(found, beyond(names, count, nodes, item));
    }
    match found {
        Some(item) => Err(Refusal::TooManyLocals(item)),
        None => Ok(()),
    }
}
