//! Judging blocks and statements.
ghost use Rattle.std.specs.Prelude.{◌≡◌, ℕ, ◌+◌, ◌≤◌, length, take};
ghost use Rattle.grammar.specs.Trees.{Arms, when, Body, Condition, Expr, Init, Locals, Many, Sequence, Statement};
ghost use Rattle.nodes.specs.Nodes.{IsArms, IsBody, IsExpr, IsInit, IsLocals, IsMany, IsSequence, IsStatement};
ghost use Rattle.statics.specs.Order.{InArms, InBody, InSequence, InStatement};
ghost use Rattle.statics.specs.Written.{item_names, list_names};
ghost use Rattle.statics.specs.Statements.{entries as names_of_locals};
ghost use Rattle.statics.specs.JudgeStatements.{judge_local_decs, judge_local_items, judge_body, judge_sequence, judge_statement, judge_arms};
ghost use Rattle.texts.specs.Facts.{facts};
ghost use Rattle.modes.specs.Meanings.{mode_means};
ghost use Rattle.scopes.specs.Meanings.{Answers};
ghost use Rattle.frames.specs.Frames.{frame_means};
ghost use Rattle.frames.specs.Rooms.{Room};
ghost use Rattle.blocks.specs.Statements.{with_ready};

use crate::conditions::condition;
use crate::simple::{into, local_item, simple};
use crate::written::written;
use frames::Frame;
use frames::guards::Opened;
use frames::naming::declare_locals;
use lists::entries;
use modes::written::mode_at;
use modes::{INT, Mode};
use nodes::{Node, node_at};
use scopes::Declared;
use statics::Refusal;

/// How many names share a value.
fn sharing(nodes: &[Node], init: usize) -> usize
    ensures { (i : Init (Expr 5)) → IsInit IsExpr i nodes.now init → result ≡ length (item_names i) }
{
    let Node::Given(names, _) = node_at(nodes, init) else {
        return 1;
    };
    let mut count = 0usize;
    for _ in entries(nodes, names) {
        count = count.saturating_add(1);
    }
    count
}

/// The items of one declaration, behind the last of which `ready` names can be used; and how many can before the first.
fn local_items(
    frame: Frame<'_>,
    names: &[Declared],
    nodes: &[Node],
    mode: Mode,
    list: usize,
    ready: usize,
) -> (Result<(), Refusal>, usize)
    ensures { (is : Many (Init (Expr 5))) → IsMany (IsInit IsExpr) is nodes.now list → length (list_names is) ≤ ready → (result.1 + length (list_names is) ≡ ready) × Answers (λ u. tt) result.0 (judge_local_items (with_ready (frame_means frame.entry names.now) result.1) (mode_means (facts frame.entry.text) mode) is) }
{
    let mut result = Ok(());
    let mut ready = ready;
    for item in entries(nodes, list) {
        ready = ready.saturating_sub(sharing(nodes, item));
        let env = Frame { ready, ..frame }.env(names);
        result = local_item(env, nodes, mode, item).and(result);
    }
    (result, ready)
}

/// The declarations of a block, whose names end where the frame's do.
fn local_decs(
    frame: Frame<'_>,
    names: &[Declared],
    nodes: &[Node],
    locals: usize,
) -> Result<(), Refusal>
    ensures { (ls : Locals) → IsLocals ls nodes.now locals → frame.entry.ready + length (names_of_locals (facts frame.entry.text) ls) ≡ frame.entry.count → Answers (λ u. tt) result (judge_local_decs (frame_means frame.entry names.now) ls) }
{
    let mut result = Ok(());
    let mut ready = frame.count;
    for declaration in entries(nodes, locals) {
        if let Node::Local(mode, list) = node_at(nodes, declaration) {
            let (items, before) = local_items(
                frame,
                names,
                nodes,
                mode_at(nodes, mode),
                list,
                ready,
            );
            ready = before;
            let env = Frame { ready, ..frame }.env(names);
            result = written(env, nodes, mode).and(items).and(result);
        }
    }
    result
}

/// The body of a procedure, a block or a loop.
#[cycle(statements)]
pub fn body(
    frame: &mut Frame<'_>,
    names: &mut [Declared],
    nodes: &[Node],
    k: usize,
) -> Result<(), Refusal>
    ensures length { length names.new ≡ length names.old }
    ensures frame { frame.new ≡ frame.old }
    ensures front { take frame.old.count names.new ≡ take frame.old.count names.old }
    ensures judged { (b : Body) → IsBody b nodes.now k → frame.old.ready ≡ frame.old.count → Room InBody b frame.old.count (length names.old) → Answers (λ u. tt) result (judge_body (frame_means frame.old names.old) b) }
{
    let Node::Body(locals, statements) = node_at(nodes, k) else {
        return Err(Refusal::Misfit(k));
    };
    if statements >= k {
        return Err(Refusal::Misfit(k));
    }
    let opened = Opened {
        count: frame.count,
        ready: frame.ready,
        frame,
    };
    opened.frame.count = declare_locals(names, opened.count, nodes, locals);
    local_decs(*opened.frame, names, nodes, locals)?;
    opened.frame.ready = opened.frame.count;
    sequence(opened.frame, names, nodes, statements)
}

/// Statements one behind the other, judged from the last to the first: the earliest refusal is answered.
#[cycle(statements)]
fn sequence(
    frame: &mut Frame<'_>,
    names: &mut [Declared],
    nodes: &[Node],
    k: usize,
) -> Result<(), Refusal>
    ensures length { length names.new ≡ length names.old }
    ensures frame { frame.new ≡ frame.old }
    ensures front { take frame.old.count names.new ≡ take frame.old.count names.old }
    ensures judged { (ss : Sequence) → IsSequence ss nodes.now k → frame.old.ready ≡ frame.old.count → Room InSequence ss frame.old.count (length names.old) → Answers (λ u. tt) result (judge_sequence (frame_means frame.old names.old) ss) }
{
    let mut rest = Ok(());
    for entry in entries(nodes, k) {
        // always: an entry stands in front of its list's node, or is it; so the recursion ends
        if entry <= k {
            rest = statement(frame, names, nodes, entry).and(rest);
        }
    }
    rest
}

/// A statement.
#[cycle(statements)]
fn statement(
    frame: &mut Frame<'_>,
    names: &mut [Declared],
    nodes: &[Node],
    k: usize,
) -> Result<(), Refusal>
    ensures length { length names.new ≡ length names.old }
    ensures frame { frame.new ≡ frame.old }
    ensures front { take frame.old.count names.new ≡ take frame.old.count names.old }
    ensures judged { (s : Statement) → IsStatement s nodes.now k → frame.old.ready ≡ frame.old.count → Room InStatement s frame.old.count (length names.old) → Answers (λ u. tt) result (judge_statement (frame_means frame.old names.old) s) }
{
    match node_at(nodes, k) {
        Node::Block(inner) if inner < k => body(frame, names, nodes, inner),
        Node::Branch(arms) if arms < k => branches(frame, names, nodes, arms),
        Node::BranchElse(arms, last) if arms < k && last < k => {
            branches(frame, names, nodes, arms)?;
            sequence(frame, names, nodes, last)
        }
        Node::Repeat(count, inner) if inner < k => {
            into(frame.env(names), nodes, Some(INT), count, count)?;
            body(frame, names, nodes, inner)
        }
        Node::Loop(test, inner) if inner < k => {
            condition(frame.env(names), nodes, test)?;
            sequence(frame, names, nodes, inner)
        }
        _ => simple(frame.env(names), nodes, k),
    }
}

/// A condition and what is done where it holds.
#[cycle(statements)]
fn arm(
    frame: &mut Frame<'_>,
    names: &mut [Declared],
    nodes: &[Node],
    k: usize,
) -> Result<(), Refusal>
    ensures length { length names.new ≡ length names.old }
    ensures frame { frame.new ≡ frame.old }
    ensures front { take frame.old.count names.new ≡ take frame.old.count names.old }
    ensures judged { (t : Condition) (ss : Sequence) → IsArms (when t ss) nodes.now k → frame.old.ready ≡ frame.old.count → Room InArms (when t ss) frame.old.count (length names.old) → Answers (λ u. tt) result (judge_arms (frame_means frame.old names.old) (when t ss)) }
{
    match node_at(nodes, k) {
        Node::When(test, then) if then < k => {
            condition(frame.env(names), nodes, test)?;
            sequence(frame, names, nodes, then)
        }
        _ => Err(Refusal::Misfit(k)),
    }
}

/// The conditions of IF, each with what is done where it holds.
#[cycle(statements)]
fn branches(
    frame: &mut Frame<'_>,
    names: &mut [Declared],
    nodes: &[Node],
    k: usize,
) -> Result<(), Refusal>
    ensures length { length names.new ≡ length names.old }
    ensures frame { frame.new ≡ frame.old }
    ensures front { take frame.old.count names.new ≡ take frame.old.count names.old }
    ensures judged { (ws : Arms) → IsArms ws nodes.now k → frame.old.ready ≡ frame.old.count → Room InArms ws frame.old.count (length names.old) → Answers (λ u. tt) result (judge_arms (frame_means frame.old names.old) ws) }
{
    let mut rest = Ok(());
    for entry in entries(nodes, k) {
        // always: an entry stands in front of its list's node, or is it; so the recursion ends
        if entry <= k {
            rest = arm(frame, names, nodes, entry).and(rest);
        }
    }
    rest
}
