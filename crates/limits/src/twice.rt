//! Names declared twice in a scope: of a module, of the brackets of a record mode, of a procedure's block with its parameters, of a block.
ghost use Rattle.std.specs.Prelude.{◌≡◌, ℕ, ◌+◌, ◌≤◌, [], ◌∷◌, drop, flat_map, length, map, take};
ghost use Rattle.grammar.specs.Trees.{Arms, Body, Moditem, Module, Sequence, Statement, Condition, when};
ghost use Rattle.nodes.specs.Nodes.{IsArms, IsBody, IsModitem, IsModule, IsSequence, IsStatement};
ghost use Rattle.statics.specs.Order.{InArms, InBody, InModule, InSequence, InStatement};
ghost use Rattle.statics.specs.Written.{gather, items};
ghost use Rattle.statics.specs.Blocks.{arms_blocks, inner_blocks, statement_blocks};
ghost use Rattle.statics.specs.DeclaredTwice.{body_scopes, moditem_scopes};
ghost use Rattle.statics.specs.Modules.{moditem_names};
ghost use Rattle.statics.specs.JudgeLimits.{doubles, judge_twice, least};
ghost use Rattle.texts.specs.Facts.{facts};
ghost use Rattle.scopes.specs.Meanings.{Answers};
ghost use Rattle.frames.specs.Rooms.{Room, Roomy};
ghost use Rattle.limits.specs.Twice.{block_scope, earliest_double};

use crate::doubles::doubled;
use crate::{earlier, procedure_at};
use frames::naming::{declare_components, declare_locals, declare_parameters};
use lists::entries;
use nodes::{Node, node_at};
use scopes::Declared;
use statics::Refusal;
use texts::Text;

/// The first name that the scopes of a body have twice, those of its blocks included. The parameters stand in the table from `base` up to `given`.
#[cycle(scopes)]
fn twice_in_body(
    text: Text<'_>,
    names: &mut [Declared],
    base: usize,
    given: usize,
    nodes: &[Node],
    k: usize,
) -> Option<usize>
    ensures length { length names.new ≡ length names.old }
    ensures front { base ≤ given → take base names.new ≡ take base names.old }
    ensures found { (b : Body) → IsBody b nodes.now k → base ≤ given → Room InBody b given (length names.old) → result ≡ earliest_double (facts text.entry) (body_scopes (facts text.entry) (map (λ d. d.item) (drop base (take given names.old))) b) }
{
    let Node::Body(locals, statements) = node_at(nodes, k) else {
        return None;
    };
    if statements >= k {
        return None;
    }
    let end = declare_locals(names, given, nodes, locals);
    let own = doubled(text, names.get(base..end).unwrap_or_default());
    earlier(
        own,
        twice_in_statements(text, names, base, nodes, statements),
    )
}

/// The first name that a block in these statements, or in these conditions with their statements, has twice.
#[cycle(scopes)]
fn twice_in_statements(
    text: Text<'_>,
    names: &mut [Declared],
    base: usize,
    nodes: &[Node],
    k: usize,
) -> Option<usize>
    ensures length { length names.new ≡ length names.old }
    ensures front { take base names.new ≡ take base names.old }
    ensures statements { (ss : Sequence) → IsSequence ss nodes.now k → Room InSequence ss base (length names.old) → result ≡ earliest_double (facts text.entry) (inner_blocks (block_scope (facts text.entry)) ss) }
    ensures arms { (ws : Arms) → IsArms ws nodes.now k → Room InArms ws base (length names.old) → result ≡ earliest_double (facts text.entry) (arms_blocks (block_scope (facts text.entry)) ws) }
{
    let mut found = None;
    for entry in entries(nodes, k) {
        // always: an entry stands in front of its list's node, or is it; so the recursion ends
        if entry <= k {
            found = earlier(found, twice_in_statement(text, names, base, nodes, entry));
        }
    }
    found
}

/// The first name that a block in a statement has twice.
#[cycle(scopes)]
fn twice_in_statement(
    text: Text<'_>,
    names: &mut [Declared],
    base: usize,
    nodes: &[Node],
    k: usize,
) -> Option<usize>
    ensures length { length names.new ≡ length names.old }
    ensures front { take base names.new ≡ take base names.old }
    ensures statement { (s : Statement) → IsStatement s nodes.now k → Room InStatement s base (length names.old) → result ≡ earliest_double (facts text.entry) (statement_blocks (block_scope (facts text.entry)) s) }
    ensures arm { (c : Condition) (ss : Sequence) → IsArms (when c ss) nodes.now k → Room InArms (when c ss) base (length names.old) → result ≡ earliest_double (facts text.entry) (inner_blocks (block_scope (facts text.entry)) ss) }
{
    match node_at(nodes, k) {
        Node::Block(inner) | Node::Repeat(_, inner) if inner < k => twice_in_body(
            text, names, base, base, nodes, inner,
        ),
        Node::Branch(inner) | Node::Loop(_, inner) | Node::When(_, inner) if inner < k =>
            twice_in_statements(text, names, base, nodes, inner),
        Node::BranchElse(arms, last) if arms < k && last < k => {
            let found = twice_in_statements(text, names, base, nodes, arms);
            earlier(found, twice_in_statements(text, names, base, nodes, last))
        }
        _ => None,
    }
}

/// The first name that an item of a module declares twice in a scope of its own. The first `count` of the table are the module's names.
fn twice_in_moditem(
    text: Text<'_>,
    names: &mut [Declared],
    count: usize,
    nodes: &[Node],
    k: usize,
) -> Option<usize>
    ensures length { length names.new ≡ length names.old }
    ensures front { take count names.new ≡ take count names.old }
    ensures found { (a : Moditem) → IsModitem a nodes.now k → Roomy (facts text.entry) count (length names.old) a → result ≡ earliest_double (facts text.entry) (moditem_scopes (facts text.entry) a) }
{
    if let Node::RecordMode(_, _, list) = node_at(nodes, k) {
        let end = declare_components(names, count, nodes, list);
        return doubled(text, names.get(count..end).unwrap_or_default());
    }
    let procedure = procedure_at(nodes, k)?;
    let given = declare_parameters(names, count, nodes, procedure.parameters);
    twice_in_body(text, names, count, given, nodes, procedure.body)
}

/// A name is declared twice in a scope of the module, whose own names are the first `count` of the table.
pub fn declared_twice(
    text: Text<'_>,
    names: &mut [Declared],
    count: usize,
    nodes: &[Node],
    root: usize,
) -> Result<(), Refusal>
    ensures length { length names.new ≡ length names.old }
    ensures front { take count names.new ≡ take count names.old }
    ensures judged { (m : Module) → IsModule m nodes.now root → Room InModule m 0 (length names.old) → count ≤ length names.old → map (λ d. d.item) (take count names.old) ≡ items (gather (moditem_names (facts text.entry)) m) → Answers (λ u. tt) result (judge_twice (facts text.entry) m) }
{
    let mut found = doubled(text, names.get(..count).unwrap_or_default());
    for item in entries(nodes, root) {
        found = earlier(found, twice_in_moditem(text, names, count, nodes, item));
    }
    match found {
        Some(item) => Err(Refusal::DeclaredTwice(item)),
        None => Ok(()),
    }
}
