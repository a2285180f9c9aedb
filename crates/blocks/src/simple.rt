//! Judging statements that have no statements in them, and what a local is given.
ghost use Rattle.std.specs.Prelude.{◌≡◌, ℕ, cond, length, None, Option, Ok, Result, ok_or, option_map, ◌==◌};
ghost use Rattle.grammar.specs.Trees.{Expr, Variable, Many, Init, Destination, Statement};
ghost use Rattle.nodes.specs.Nodes.{IsExpr, IsVariable, IsMany, IsInit, IsDestination, IsStatement};
ghost use Rattle.statics.specs.declared.Refusal.{Refusal as Refused};
ghost use Rattle.statics.specs.declared.Refusal.TheVariants.{Misfit};
ghost use Rattle.statics.specs.Modes.{Mode as ModeOf};
ghost use Rattle.statics.specs.Fronts.{spot as spot_of, front_variable, front_destinations};
ghost use Rattle.statics.specs.JudgeExpressions.{then, bring as bring_of, judge as judge_of, judge_variable};
ghost use Rattle.statics.specs.JudgeStatements.{judge_into, judge_local_item, join, judge_target, judge_targets, judge_statement, silent as silent_of};
ghost use Rattle.texts.specs.Facts.{facts};
ghost use Rattle.modes.specs.Meanings.{mode_means, need_means};
ghost use Rattle.scopes.specs.Meanings.{signature_means, env_means, Answers};
ghost use Rattle.blocks.specs.Statements.{Simple, first_of};

use judging::fronts::{front, spot};
use judging::{arguments, bring, judge, variable};
use lists::parted;
use modes::{Mode, Need};
use nodes::{Node, node_at};
use scopes::{Env, Signature};
use statics::Refusal;

/// An expression that is brought to a mode; where there is none, the construct at the item `at` is a misfit.
pub fn into(
    env: Env<'_>,
    nodes: &[Node],
    wanted: Option<Mode>,
    at: usize,
    k: usize,
) -> Result<(), Refusal>
    ensures { (n : ℕ) (e : Expr n) → IsExpr e nodes.now k → Answers (λ u. tt) result (judge_into (option_map (mode_means (facts env.entry.text)) wanted) at (judge_of (env_means env.entry) e) (spot_of e)) }
{
    let thing = judge(env, nodes, k)?;
    let Some(mode) = wanted else {
        return Err(Refusal::Misfit(at));
    };
    let _ = bring(env, Need::Mode(mode), thing, spot(nodes, k))?;
    Ok(())
}

/// A local of the mode, with its value or without.
pub fn local_item(env: Env<'_>, nodes: &[Node], mode: Mode, k: usize) -> Result<(), Refusal>
    ensures { (i : Init (Expr 5)) → IsInit IsExpr i nodes.now k → Answers (λ u. tt) result (judge_local_item (env_means env.entry) (mode_means (facts env.entry.text) mode) i) }
{
    match node_at(nodes, k) {
        Node::Given(_, value) => into(env, nodes, Some(mode), value, value),
        Node::Plain(item) => match mode {
            Mode::Plain(_) => Ok(()),
            _ => Err(Refusal::NoValue(item)),
        },
        _ => Err(Refusal::Misfit(k)),
    }
}

/// The mode of a variable, brought to what is needed.
fn placed(env: Env<'_>, nodes: &[Node], need: Need, k: usize) -> Result<Mode, Refusal>
    ensures { (v : Variable) → IsVariable v nodes.now k → Answers (mode_means (facts env.entry.text)) result (bring_of (need_means (facts env.entry.text) need) (front_variable v) (judge_variable (env_means env.entry) v)) }
{
    let thing = variable(env, nodes, k)?;
    bring(env, need, thing, front(nodes, k))
}

/// The mode of a destination.
fn target(env: Env<'_>, nodes: &[Node], k: usize) -> Result<Mode, Refusal>
    ensures { (d : Destination) → IsDestination d nodes.now k → Answers (mode_means (facts env.entry.text)) result (judge_target (env_means env.entry) d) }
{
    match node_at(nodes, k) {
        Node::Val(_, place) => placed(env, nodes, Need::Pointed, place),
        _ => placed(env, nodes, Need::Scalar, k),
    }
}

/// The common mode so far, if there is one and this mode is the same.
fn joined(env: Env<'_>, common: Option<Mode>, mode: Mode) -> Option<Mode>
    ensures { option_map (mode_means (facts env.entry.text)) result ≡ join (option_map (mode_means (facts env.entry.text)) common) (mode_means (facts env.entry.text) mode) }
{
    match common {
        Some(first) if first.same(mode, env.text) => Some(first),
        _ => None,
    }
}

/// The common mode of the first destination, of this one and of those behind it, if they have one; or the first that is wrong of this one and
/// those behind it.
fn met(
    env: Env<'_>,
    mode: Result<Mode, Refusal>,
    common: Result<Option<Mode>, Refusal>,
) -> Result<Option<Mode>, Refusal>
    ensures { (m : Result ModeOf Refused) (c : Result (Option ModeOf) Refused) → Answers (mode_means (facts env.entry.text)) mode m → Answers (option_map (mode_means (facts env.entry.text))) common c → Answers (option_map (mode_means (facts env.entry.text))) result (then m (λ k. then c (λ a. Ok (join a k)))) }
{
    let mode = mode?;
    Ok(joined(env, common?, mode))
}

/// The first of the destinations.
fn first_target(nodes: &[Node], k: usize) -> usize
    ensures { (ds : Many Destination) → IsMany IsDestination ds nodes.now k → IsDestination (first_of ds) nodes.now result }
{
    let mut at = k;
    while let Some((front, _)) = parted(nodes, at) {
        at = front;
    }
    at
}

/// The mode that all destinations have, if they have one. Behind the first, they are judged from the last on, so that many take no more of the
/// stack than few.
fn targets(env: Env<'_>, nodes: &[Node], k: usize) -> Result<Option<Mode>, Refusal>
    ensures { (ds : Many Destination) → IsMany IsDestination ds nodes.now k → Answers (option_map (mode_means (facts env.entry.text))) result (judge_targets (env_means env.entry) ds) }
{
    let first = target(env, nodes, first_target(nodes, k))?;
    let mut common = Ok(Some(first));
    let mut at = k;
    while let Some((front, last)) = parted(nodes, at) {
        common = met(env, target(env, nodes, last), common);
        at = front;
    }
    common
}

/// The first item of destinations.
fn front_of_targets(nodes: &[Node], k: usize) -> usize
    ensures { (ds : Many Destination) → IsMany IsDestination ds nodes.now k → result ≡ front_destinations ds }
{
    let first = first_target(nodes, k);
    match node_at(nodes, first) {
        Node::Val(item, _) => item,
        _ => front(nodes, first),
    }
}

/// A call as a statement, with so many expressions: a misfit where these are not as many as the parameters, or it gives something.
fn silent(env: Env<'_>, signature: Signature, name: usize, count: usize) -> Result<(), Refusal>
    ensures { Answers (λ u. tt) result (ok_or (cond (count == length (signature_means env.entry signature).takes) (silent_of (signature_means env.entry signature).gives) None) (Misfit name)) }
{
    match signature.gives {
        None if count == env.parameters(signature).len() => Ok(()),
        _ => Err(Refusal::Misfit(name)),
    }
}

/// A statement that has no statements in it.
pub fn simple(env: Env<'_>, nodes: &[Node], k: usize) -> Result<(), Refusal>
    ensures { (s : Statement) → Simple s → IsStatement s nodes.now k → Answers (λ u. tt) result (judge_statement (env_means env.entry) s) }
{
    match node_at(nodes, k) {
        Node::Dummy => Ok(()),
        Node::Assign(destinations, value) => {
            let wanted = targets(env, nodes, destinations)?;
            into(
                env,
                nodes,
                wanted,
                front_of_targets(nodes, destinations),
                value,
            )
        }
        Node::Invoke(name, _) => {
            let signature = env.runs(name)?;
            silent(env, signature, name, 0)
        }
        Node::InvokeOn(name, _, list) if list < k => {
            let signature = env.runs(name)?;
            let count = arguments(env, nodes, env.parameters(signature), list)?;
            silent(env, signature, name, count)
        }
        Node::Return(item) if env.result.is_some() => Err(Refusal::Misfit(item)),
        Node::Return(_) => Ok(()),
        Node::ReturnWith(item, _, value) => into(env, nodes, env.result, item, value),
        _ => Err(Refusal::Misfit(k)),
    }
}
