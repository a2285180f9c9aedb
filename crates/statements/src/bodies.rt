//! Bodies and the statements in them: blocks, branches, loops, returns. They call each other in a cycle, the depth left falling.
ghost use Rattle.std.specs.Prelude.{◌≡◌, ℕ, ◌+◌, ◌-◌, ◌*◌, ◌<◌, ◌≤◌, [], ◌∷◌, length, MatchResult, ◌≢◌, slice_index_or};
ghost use Rattle.grammar.specs.Symbols.{STOP, BLOCK, IF, TO, WHILE, RETURN, THEN, ELSE, ELSEIF};
ghost use Rattle.grammar.specs.Trees.{Body, Sequence, Statement, Arms, of_body, of_sequence, of_statement, of_arms};
ghost use Rattle.grammar.specs.Machine.{a_body, a_statement, all, ors, statements, tok};
ghost use Rattle.nodes.specs.Made.{Fewer, MadeFrom, Way, Refused, Room, ReadsTo};
ghost use Rattle.nodes.specs.Nodes.{IsBody, IsSequence, IsStatement, IsArms};
ghost use Rattle.statements.specs.Bodies.{Arm, IsArm, of_arm, ArmsWay};

use crate::assignments::{named, valued};
use declarations::locals::locals;
use expressions::{bracketed, condition, expr};
use grammar::Symbol;
use nodes::{Fault, Node, Parsed, Spot, put};

/// Declarations of locals, and then statements.
#[cycle(statements)]
pub fn body(from: Spot<'_>, nodes: &mut [Node]) -> Result<Parsed, Fault>
    requires within { from.next ≤ length from.symbols.now }
    requires room { Room 3 from nodes.old }
    ensures { ReadsTo 3 Body IsBody of_body (a_body ∷ []) from.entry nodes.old nodes.new result }
{
    let l = locals(from, nodes)?;
    let q = sequence(from.after(l), nodes)?;
    Ok(put(nodes, q.used, Node::Body(l.root, q.root), q.next))
}

/// One statement, and further ones behind semicolons.
// Not `read_list`, here and in `arms`: tried at the values of a list (crate `declarations`), and a cycle of functions through a trait leaves
// its whole proof to be written by hand.
#[cycle(statements)]
fn sequence(from: Spot<'_>, nodes: &mut [Node]) -> Result<Parsed, Fault>
    requires within { from.next ≤ length from.symbols.now }
    requires room { Room 1 from nodes.old }
    ensures { ReadsTo 1 Sequence IsSequence of_sequence (all statements ∷ []) from.entry nodes.old nodes.new result }
{
    let mut at = statement(from, nodes)?;
    while from.peek(at.next) == Symbol::Semi {
        let e = statement(from.past(at), nodes)?;
        at = put(nodes, e.used, Node::Also(at.root, e.root), e.next);
    }
    Ok(at)
}

#[cycle(statements)]
fn statement(from: Spot<'_>, nodes: &mut [Node]) -> Result<Parsed, Fault>
    requires within { from.next ≤ length from.symbols.now }
    requires room { Room 1 from nodes.old }
    ensures { ReadsTo 1 Statement IsStatement of_statement (a_statement ∷ []) from.entry nodes.old nodes.new result }
{
    match from.peek(from.next) {
        Symbol::Block => block(from, nodes),
        Symbol::If => branch(from, nodes),
        Symbol::To => repeat(from, nodes),
        Symbol::While => while_loop(from, nodes),
        Symbol::Return => returning(from, nodes),
        Symbol::Val => valued(from, nodes),
        Symbol::Name => named(from, nodes),
        _ => Ok(put(nodes, from.used, Node::Dummy, from.next)),
    }
}

/// A block, BLOCK being there.
#[cycle(statements)]
fn block(from: Spot<'_>, nodes: &mut [Node]) -> Result<Parsed, Fault>
    requires opening { slice_index_or from.symbols.now from.next STOP ≡ BLOCK }
    requires there { from.next < length from.symbols.now }
    requires room { Room 1 from nodes.old }
    ensures { ReadsTo 1 Statement IsStatement of_statement (a_statement ∷ []) from.entry nodes.old nodes.new result }
{
    let inside = from.inside(from.next)?;
    let b = body(inside, nodes)?;
    from.expect(b.next, Symbol::Endblock)?;
    Ok(put(nodes, b.used, Node::Block(b.root), b.next + 1))
}

/// A condition there, THEN, and the statements that are obeyed where it holds.
#[cycle(statements)]
fn arm(from: Spot<'_>, nodes: &mut [Node]) -> Result<Parsed, Fault>
    requires within { from.next ≤ length from.symbols.now }
    requires room { Room 0 from nodes.old }
    ensures { ReadsTo 0 Arm IsArm of_arm (all ors ∷ tok THEN ∷ all statements ∷ []) from.entry nodes.old nodes.new result }
{
    let c = condition(from, nodes)?;
    from.expect(c.next, Symbol::Then)?;
    let q = sequence(from.past(c), nodes)?;
    Ok(put(nodes, q.used, Node::When(c.root, q.root), q.next))
}

// That one may open is asked of the caller, which has the fault where none may.
/// IF, being there, and what follows it up to ELSE or END, ELSEIF included.
#[cycle(statements)]
fn arms(from: Spot<'_>, nodes: &mut [Node]) -> Result<Parsed, Fault>
    requires opening { slice_index_or from.symbols.now from.next STOP ≡ IF }
    requires there { from.next < length from.symbols.now }
    requires deep { 0 < from.depth }
    requires room { Room 0 from nodes.old }
    ensures { MatchResult result (λ p. MadeFrom 0 Arms IsArms of_arms ArmsWay from.entry nodes.old nodes.new p × Fewer from.entry.next from.entry.used p × (slice_index_or from.entry.symbols.now p.next STOP ≢ ELSEIF)) (λ f. Refused (a_statement ∷ []) from.entry.depth from.entry.symbols.now from.entry.next f) }
{
    let inside = Spot {
        next: from.next + 1,
        depth: from.depth - 1,
        ..from
    };
    let mut at = arm(inside, nodes)?;
    while from.peek(at.next) == Symbol::Elseif {
        let a = arm(inside.past(at), nodes)?;
        at = put(nodes, a.used, Node::Also(at.root, a.root), a.next);
    }
    Ok(at)
}

// That one may open is asked of the caller, which has the fault where none may.
/// ELSE, being at the end of `at`, the statements behind it, and END.
#[cycle(statements)]
fn otherwise(from: Spot<'_>, nodes: &mut [Node], at: Parsed) -> Result<Parsed, Fault>
    requires behind { slice_index_or from.symbols.now at.next STOP ≡ ELSE }
    requires there { at.next < length from.symbols.now }
    requires deep { 0 < from.depth }
    requires room { Room 1 from nodes.old }
    requires few { Fewer from.next from.used at }
    requires begun { MadeFrom 0 Arms IsArms of_arms ArmsWay from nodes.old nodes.old at }
    ensures { ReadsTo 1 Statement IsStatement of_statement (a_statement ∷ []) from.entry nodes.old nodes.new result }
{
    let inside = Spot {
        next: at.next + 1,
        depth: from.depth - 1,
        used: at.used,
        ..from
    };
    let q = sequence(inside, nodes)?;
    from.expect(q.next, Symbol::End)?;
    Ok(put(nodes, q.used, Node::BranchElse(at.root, q.root), q.next + 1))
}

/// A branch, IF being there.
#[cycle(statements)]
fn branch(from: Spot<'_>, nodes: &mut [Node]) -> Result<Parsed, Fault>
    requires opening { slice_index_or from.symbols.now from.next STOP ≡ IF }
    requires there { from.next < length from.symbols.now }
    requires room { Room 1 from nodes.old }
    ensures { ReadsTo 1 Statement IsStatement of_statement (a_statement ∷ []) from.entry nodes.old nodes.new result }
{
    let _ = from.deeper(from.next)?;
    let w = arms(from, nodes)?;
    match from.peek(w.next) {
        Symbol::End => Ok(put(nodes, w.used, Node::Branch(w.root), w.next + 1)),
        Symbol::Else => otherwise(from, nodes, w),
        _ => Err(Fault::Syntax(w.next)),
    }
}

/// A loop that counts, TO being there.
#[cycle(statements)]
fn repeat(from: Spot<'_>, nodes: &mut [Node]) -> Result<Parsed, Fault>
    requires opening { slice_index_or from.symbols.now from.next STOP ≡ TO }
    requires there { from.next < length from.symbols.now }
    requires room { Room 1 from nodes.old }
    ensures { ReadsTo 1 Statement IsStatement of_statement (a_statement ∷ []) from.entry nodes.old nodes.new result }
{
    let behind = Spot {
        next: from.next + 1,
        ..from
    };
    let e = expr(behind, nodes)?;
    from.expect(e.next, Symbol::Do)?;
    let inside = from.after(e).inside(e.next)?;
    let b = body(inside, nodes)?;
    from.expect(b.next, Symbol::Rep)?;
    Ok(put(nodes, b.used, Node::Repeat(e.root, b.root), b.next + 1))
}

/// A loop that goes on while a condition holds, WHILE being there.
#[cycle(statements)]
fn while_loop(from: Spot<'_>, nodes: &mut [Node]) -> Result<Parsed, Fault>
    requires opening { slice_index_or from.symbols.now from.next STOP ≡ WHILE }
    requires there { from.next < length from.symbols.now }
    requires room { Room 1 from nodes.old }
    ensures { ReadsTo 1 Statement IsStatement of_statement (a_statement ∷ []) from.entry nodes.old nodes.new result }
{
    let behind = Spot {
        next: from.next + 1,
        ..from
    };
    let c = condition(behind, nodes)?;
    from.expect(c.next, Symbol::Do)?;
    let inside = from.after(c).inside(c.next)?;
    let q = sequence(inside, nodes)?;
    from.expect(q.next, Symbol::Rep)?;
    Ok(put(nodes, q.used, Node::Loop(c.root, q.root), q.next + 1))
}

/// RETURN, being there, with an expression in brackets or without.
fn returning(from: Spot<'_>, nodes: &mut [Node]) -> Result<Parsed, Fault>
    requires opening { slice_index_or from.symbols.now from.next STOP ≡ RETURN }
    requires there { from.next < length from.symbols.now }
    requires room { Room 1 from nodes.old }
    ensures { ReadsTo 1 Statement IsStatement of_statement (a_statement ∷ []) from.entry nodes.old nodes.new result }
{
    if from.peek(from.next + 1) != Symbol::Left {
        return Ok(put(nodes, from.used, Node::Return(from.next), from.next + 1));
    }
    let behind = Spot {
        next: from.next + 1,
        ..from
    };
    let e = bracketed(behind, nodes)?;
    Ok(put(
        nodes,
        e.used,
        Node::ReturnWith(from.next, from.next + 1, e.root),
        e.next,
    ))
}
