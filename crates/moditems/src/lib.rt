//! Judging the items of a module.
#![tactic(auto)]

pub mod data;
pub mod externals;
pub mod written;

ghost use Rattle.std.specs.Prelude.{◌≡◌, ℕ, ◌+◌, ◌≤◌, ◌<◌, ◌^◌, length, take};
ghost use Rattle.grammar.specs.Trees.{Body, Brick, procedure as procedure_tree, Fields, Mode as TreeMode, Moditem, Module, Opt, own};
ghost use Rattle.nodes.specs.declared.Node.TheVariants.{Heading};
ghost use Rattle.nodes.specs.Nodes.{At, IsBody, IsBrick, IsFields, IsMode, IsModitem, IsModule, IsOpt};
ghost use Rattle.statics.specs.Order.{InBody, InModule};
ghost use Rattle.statics.specs.Written.{gather};
ghost use Rattle.statics.specs.Modules.{moditem_names, outermost};
ghost use Rattle.statics.specs.JudgeExpressions.{judge_each};
ghost use Rattle.statics.specs.JudgeModules.{judge_brick, judge_fields, judge_moditem, judge_opt};
ghost use Rattle.texts.specs.Facts.{facts};
ghost use Rattle.scopes.specs.Meanings.{Answers};
ghost use Rattle.frames.specs.Frames.{frame_means};
ghost use Rattle.frames.specs.Rooms.{Room, Roomy};

use blocks::statements::body;
use data::store;
use externals::described;
use frames::naming::{declare_components, declare_locals, declare_parameters};
use frames::{Frame, maybe_mode};
use lists::entries;
use nodes::{Node, node_at};
use scopes::Declared;
use statics::Refusal;
use written::{fields, modes, result_mode};

/// The modes of a procedure's parameters, in the scope of its outermost block.
fn parameters(
    frame: Frame<'_>,
    names: &mut [Declared],
    nodes: &[Node],
    list: usize,
    inner: usize,
) -> Result<(), Refusal>
    ensures length { length names.new ≡ length names.old }
    ensures front { take frame.entry.count names.new ≡ take frame.entry.count names.old }
    ensures judged { (ps : Opt Fields) (b : Body) → IsOpt IsFields ps nodes.now list → IsBody b nodes.now inner → frame.entry.ready ≡ frame.entry.count → Room InBody b frame.entry.count (length names.old) → Answers (λ u. tt) result (judge_opt (judge_fields (outermost (frame_means frame.entry names.old) b)) ps) }
{
    let Node::Body(locals, _) = node_at(nodes, inner) else {
        return Err(Refusal::Misfit(inner));
    };
    let outermost = Frame {
        count: declare_locals(names, frame.count, nodes, locals),
        ..frame
    };
    fields(outermost.env(names), nodes, list)
}

/// A procedure: the modes of its parameters, that of its result, and its body.
fn procedure(
    frame: Frame<'_>,
    names: &mut [Declared],
    nodes: &[Node],
    heading: usize,
    inner: usize,
) -> Result<(), Refusal>
    ensures length { length names.new ≡ length names.old }
    ensures front { take frame.entry.count names.new ≡ take frame.entry.count names.old }
    ensures judged { (n i p q e : ℕ) (ps : Opt Fields) (m : Opt TreeMode) (b : Body) → At nodes.now heading (Heading n i p q) → IsOpt IsFields ps nodes.now p → IsOpt IsMode m nodes.now q → IsBody b nodes.now inner → frame.entry.ready ≡ frame.entry.count → Roomy (facts frame.entry.text) frame.entry.count (length names.old) (own (procedure_tree n i ps m b e)) → Answers (λ u. tt) result (judge_brick (frame_means frame.entry names.old) (procedure_tree n i ps m b e)) }
{
    let Node::Heading(_, _, list, gives) = node_at(nodes, heading) else {
        return Err(Refusal::Misfit(heading));
    };
    let count = declare_parameters(names, frame.count, nodes, list);
    let mut inside = Frame {
        count,
        ready: count,
        result: maybe_mode(nodes, gives),
        ..frame
    };
    parameters(inside, names, nodes, list, inner)?;
    result_mode(frame.env(names), nodes, gives)?;
    body(&mut inside, names, nodes, inner)
}

/// A data brick or a procedure.
fn brick(frame: Frame<'_>, names: &mut [Declared], nodes: &[Node], k: usize) -> Result<(), Refusal>
    requires few { length nodes.now < 2 ^ 32 }
    ensures length { length names.new ≡ length names.old }
    ensures front { take frame.entry.count names.new ≡ take frame.entry.count names.old }
    ensures judged { (b : Brick) → IsBrick b nodes.now k → frame.entry.ready ≡ frame.entry.count → Roomy (facts frame.entry.text) frame.entry.count (length names.old) (own b) → Answers (λ u. tt) result (judge_brick (frame_means frame.entry names.old) b) }
{
    match node_at(nodes, k) {
        Node::Store(_, list) => store(frame.env(names), nodes, list),
        Node::Procedure(heading, inner, _) => procedure(frame, names, nodes, heading, inner),
        _ => Err(Refusal::Misfit(k)),
    }
}

/// An item of a module.
fn moditem(
    frame: Frame<'_>,
    names: &mut [Declared],
    nodes: &[Node],
    k: usize,
) -> Result<(), Refusal>
    requires few { length nodes.now < 2 ^ 32 }
    ensures length { length names.new ≡ length names.old }
    ensures front { take frame.entry.count names.new ≡ take frame.entry.count names.old }
    ensures judged { (a : Moditem) → IsModitem a nodes.now k → frame.entry.ready ≡ frame.entry.count → Roomy (facts frame.entry.text) frame.entry.count (length names.old) a → Answers (λ u. tt) result (judge_moditem (frame_means frame.entry names.old) a) }
{
    match node_at(nodes, k) {
        Node::ExternalProcs(_, takes, gives, list) => {
            let env = frame.env(names);
            modes(env, nodes, takes)?;
            result_mode(env, nodes, gives)?;
            described(frame.text, nodes, takes, gives, list)
        }
        Node::ExternalStore(name, _) => Err(Refusal::WrongName(name)),
        Node::RecordMode(_, _, list) => {
            let inside = Frame {
                count: declare_components(names, frame.count, nodes, list),
                ..frame
            };
            fields(inside.env(names), nodes, list)
        }
        Node::Own(inner) | Node::Ent(inner) => brick(frame, names, nodes, inner),
        _ => Ok(()),
    }
}

/// The items of a module, whose names are the first `count` of the table.
pub fn module(
    frame: Frame<'_>,
    names: &mut [Declared],
    nodes: &[Node],
    root: usize,
) -> Result<(), Refusal>
    requires few { length nodes.now < 2 ^ 32 }
    ensures length { length names.new ≡ length names.old }
    ensures front { take frame.entry.count names.new ≡ take frame.entry.count names.old }
    ensures judged { (m : Module) → IsModule m nodes.now root → frame.entry.ready ≡ frame.entry.count → frame.entry.count ≡ length (gather (moditem_names (facts frame.entry.text)) m) → Room InModule m 0 (length names.old) → Answers (λ u. tt) result (judge_each (judge_moditem (frame_means frame.entry names.old)) m) }
{
    let mut result = Ok(());
    for item in entries(nodes, root) {
        result = moditem(frame, names, nodes, item).and(result);
    }
    result
}
