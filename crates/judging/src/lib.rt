//! Judging the expressions and conditions of a module by the nodes of its tree.
#![tactic(auto)]

pub mod fronts;
pub mod operators;

ghost use Rattle.grammar.specs.declared.Symbol.{Symbol};
ghost use Rattle.nodes.specs.declared.Node.TheVariants.{Dyadic as DyadicNode, Monadic as MonadicNode};
ghost use Rattle.std.specs.Prelude.{◌≡◌, ℕ, ◌+◌, ◌<◌, ◌≤◌, ◌^◌, IfOk, cond, length, map, None, Ok, Err, Result, MatchResult, ok_or, option_map, ◌==◌};
ghost use Rattle.grammar.specs.Trees.{Expr, Exprs, Variable, name as a_name};
ghost use Rattle.nodes.specs.Nodes.{At, IsExpr, IsExprs, IsVariable};
ghost use Rattle.statics.specs.declared.Refusal.{Refusal as Refused};
ghost use Rattle.statics.specs.declared.Refusal.TheVariants.{Misfit};
ghost use Rattle.statics.specs.Modes.{Mode as ModeOf, Thing as ThingOf};
ghost use Rattle.statics.specs.Fronts.{spot as spot_of, front_variable};
ghost use Rattle.statics.specs.Expressions.{count};
ghost use Rattle.statics.specs.JudgeExpressions.{then, look, heads, yields, bring as bring_of, pass, judge as judge_of, judge_variable, judge_args, judge_subscript, judge_select, judge_head};
ghost use Rattle.texts.specs.Facts.{facts};
ghost use Rattle.modes.specs.Meanings.{mode_means, thing_means, need_means};
ghost use Rattle.scopes.specs.Meanings.{signature_means, env_means, Answers};
ghost use Rattle.judging.specs.Chains.{Apt, before};
ghost use Rattle.judging.specs.Openings.{stripped};

use fronts::{front, layer, layers, spot};
use lists::{how_many, parted};
use modes::{BYTE, Base, Element, INT, Mode, Need, Plain, Thing};
use nodes::{Node, node_at};
use operators::{argument, behind, combined, figure, operand, outcome};
use scopes::{Env, Head, Signature};
use statics::Refusal;

/// What something stands for, brought to what is needed; a misfit at the item `spot` where it can't be.
pub fn bring(env: Env<'_>, need: Need, thing: Thing, spot: usize) -> Result<Mode, Refusal>
    ensures { Answers (mode_means (facts env.entry.text)) result (bring_of (need_means (facts env.entry.text) need) spot (Ok (thing_means (facts env.entry.text) thing))) }
{
    thing.fit(need, env.text).ok_or(Refusal::Misfit(spot))
}

/// An expression brought to what is needed.
#[cycle(expressions)]
pub fn brought(env: Env<'_>, nodes: &[Node], need: Need, k: usize) -> Result<Mode, Refusal>
    ensures { (n : ℕ) (e : Expr n) → IsExpr e nodes.now k → Answers (mode_means (facts env.entry.text)) result (bring_of (need_means (facts env.entry.text) need) (spot_of e) (judge_of (env_means env.entry) e)) }
{
    let thing = judge(env, nodes, k)?;
    bring(env, need, thing, spot(nodes, k))
}

/// An expression in a call: brought to the mode of its parameter, or to nothing where it has none.
#[cycle(expressions)]
pub fn passed(env: Env<'_>, nodes: &[Node], wanted: Option<Mode>, k: usize) -> Result<(), Refusal>
    ensures { (n : ℕ) (e : Expr n) → IsExpr e nodes.now k → Answers (λ u. tt) result (pass (judge_of (env_means env.entry) e) (spot_of e) (option_map (mode_means (facts env.entry.text)) wanted)) }
{
    let thing = judge(env, nodes, k)?;
    if let Some(mode) = wanted {
        let _ = bring(env, Need::Mode(mode), thing, spot(nodes, k))?;
    }
    Ok(())
}

/// The expressions of a call, and how many they are. They are judged from the last to the first, so that a long list takes no more of the stack
/// than a short one; `rest` is the first that is wrong further right.
#[cycle(expressions)]
pub fn arguments(
    env: Env<'_>,
    nodes: &[Node],
    modes: &[Mode],
    list: usize,
) -> Result<usize, Refusal>
    requires small { list + 1 < 2 ^ 64 }
    ensures few { IfOk result (λ n. n ≤ list + 1) }
    ensures judged { (es : Exprs) → IsExprs es nodes.now list → MatchResult result (λ n. (n ≡ count es) × (judge_args (env_means env.entry) (map (mode_means (facts env.entry.text)) modes.now) es ≡ Ok tt)) (λ f. judge_args (env_means env.entry) (map (mode_means (facts env.entry.text)) modes.now) es ≡ Err f) }
{
    let count = how_many(nodes, list);
    let mut before = count;
    let mut rest = Ok(count);
    let mut at = list;
    while let Some((front, last)) = parted(nodes, at) {
        before = before.saturating_sub(1);
        rest = passed(env, nodes, modes.get(before).copied(), last).and(rest);
        at = front;
    }
    passed(env, nodes, modes.first().copied(), at).and(rest)
}

/// What a call with so many expressions stands for: a misfit where these are not as many as the parameters, or it gives nothing.
fn yielded(env: Env<'_>, signature: Signature, name: usize, count: usize) -> Result<Thing, Refusal>
    ensures { Answers (thing_means (facts env.entry.text)) result (ok_or (cond (count == length (signature_means env.entry signature).takes) (yields (signature_means env.entry signature).gives) None) (Misfit name)) }
{
    match signature.gives {
        Some(mode) if count == env.parameters(signature).len() => Ok(Thing::Value(mode)),
        _ => Err(Refusal::Misfit(name)),
    }
}

/// Something with a subscript behind it. Its first item is `front`.
#[cycle(expressions)]
fn subscripted(
    env: Env<'_>,
    nodes: &[Node],
    base: Thing,
    front: usize,
    index: usize,
) -> Result<Thing, Refusal>
    ensures { (n : ℕ) (e : Expr n) → IsExpr e nodes.now index → Answers (thing_means (facts env.entry.text)) result (judge_subscript (Ok (thing_means (facts env.entry.text) base)) front (judge_of (env_means env.entry) e) (spot_of e)) }
{
    let mode = bring(env, Need::Elements, base, front)?;
    let _ = brought(env, nodes, Need::Mode(INT), index)?;
    Ok(mode.subscript())
}

/// A component of something. Its first item is `front`.
fn selected(env: Env<'_>, base: Thing, front: usize, item: usize) -> Result<Thing, Refusal>
    ensures { Answers (thing_means (facts env.entry.text)) result (judge_select (env_means env.entry) (Ok (thing_means (facts env.entry.text) base)) front item) }
{
    match bring(env, Need::Components, base, front)? {
        Mode::RefRecord(owner) => env.selects(owner, item).ok_or(Refusal::WrongName(item)),
        _ => Err(Refusal::WrongName(item)),
    }
}

/// A variable whose first item is `name`. Without its last subscript or selector it stands for `base`.
#[cycle(expressions)]
fn layered(
    env: Env<'_>,
    nodes: &[Node],
    base: Thing,
    name: usize,
    k: usize,
) -> Result<Thing, Refusal>
    ensures { (v : Variable) → IsVariable v nodes.now k → ((n : ℕ) → v ≡ a_name n → ⊥) → name ≡ front_variable v → judge_variable (env_means env.entry) (stripped v) ≡ Ok (thing_means (facts env.entry.text) base) → Answers (thing_means (facts env.entry.text)) result (judge_variable (env_means env.entry) v) }
{
    match node_at(nodes, k) {
        Node::Element(_, _, index) if index < k => subscripted(env, nodes, base, name, index),
        Node::Component(_, item) => selected(env, base, name, item),
        _ => Err(Refusal::Misfit(front(nodes, k))),
    }
}

/// What a variable stands for. It is judged from its name outward, layer by layer, so that a long one takes no more of the stack than a short one.
#[cycle(expressions)]
pub fn variable(env: Env<'_>, nodes: &[Node], k: usize) -> Result<Thing, Refusal>
    ensures { (v : Variable) → IsVariable v nodes.now k → Answers (thing_means (facts env.entry.text)) result (judge_variable (env_means env.entry) v) }
{
    let name = front(nodes, k);
    let mut thing = env.stands(name)?;
    for depth in (0..layers(nodes, k)).rev() {
        thing = layered(env, nodes, thing, name, layer(nodes, k, depth))?;
    }
    Ok(thing)
}

/// A name with one expression in brackets: an element or a call, by what the name is.
#[cycle(expressions)]
fn headed(env: Env<'_>, nodes: &[Node], name: usize, index: usize) -> Result<Thing, Refusal>
    ensures { (n : ℕ) (e : Expr n) → IsExpr e nodes.now index → Answers (thing_means (facts env.entry.text)) result (then (look (env_means env.entry) name heads) (judge_head name (judge_of (env_means env.entry) e) (spot_of e))) }
{
    match env.heads(name)? {
        Head::Thing(thing) => subscripted(env, nodes, thing, name, index),
        Head::Signature(signature) => {
            passed(
                env,
                nodes,
                env.parameters(signature).first().copied(),
                index,
            )?;
            yielded(env, signature, name, 1)
        }
    }
}

/// What an expression stands for.
#[cycle(expressions)]
pub fn judge(env: Env<'_>, nodes: &[Node], k: usize) -> Result<Thing, Refusal>
    ensures { (n : ℕ) (e : Expr n) → IsExpr e nodes.now k → Answers (thing_means (facts env.entry.text)) result (judge_of (env_means env.entry) e) }
{
    match node_at(nodes, k) {
        Node::Dyadic(operator, _, left, right) if left < k && right < k => {
            let need = operand(operator);
            let whole = behind(operator, brought(env, nodes, need, right), Ok(BYTE));
            operated(env, nodes, need, whole, left)
        }
        Node::Monadic(operator, _, inner) if inner < k => {
            let whole = Ok(Thing::Value(outcome(operator)));
            signed(env, nodes, argument(operator), whole, inner)
        }
        _ => primary(env, nodes, k),
    }
}

/// A chain of operators, by the form at `k`, which stands before the operators of its end: it has to meet `need`, and `whole` is what the whole chain
/// gives if it is a BYTE, or the first that is wrong behind it. A chain is judged from its last operand to the first, so that a long one takes no
/// more of the stack than a short one.
#[cycle(expressions)]
fn operated(
    env: Env<'_>,
    nodes: &[Node],
    mut need: Need,
    mut whole: Result<Mode, Refusal>,
    k: usize,
) -> Result<Thing, Refusal>
    ensures { (n : ℕ) (e : Expr n) → IsExpr e nodes.now k → (w : Result ModeOf Refused) → Answers (mode_means (facts env.entry.text)) whole w → Apt (need_means (facts env.entry.text) need) w → Answers (thing_means (facts env.entry.text)) result (before (need_means (facts env.entry.text) need) (spot_of e) (judge_of (env_means env.entry) e) w) }
{
    let mut at = k;
    loop {
        match node_at(nodes, at) {
            Node::Dyadic(operator, _, left, right) if left < at && right < at => {
                need = operand(operator);
                whole = behind(operator, brought(env, nodes, need, right), whole);
                at = left;
            }
            _ => {
                let mode = brought(env, nodes, need, at)?;
                return Ok(Thing::Value(combined(mode, whole?)));
            }
        }
    }
}

/// A row of signs and other operators with one operand, by the form at `k`, which stands behind the outer ones: it has to meet `need`, and `whole` is
/// what the whole row gives if it does. A row is judged from the outermost inward, so that a long one takes no more of the stack than a short one.
#[cycle(expressions)]
fn signed(
    env: Env<'_>,
    nodes: &[Node],
    mut need: Need,
    mut whole: Result<Thing, Refusal>,
    k: usize,
) -> Result<Thing, Refusal>
    ensures { (n : ℕ) (e : Expr n) → IsExpr e nodes.now k → (w : Result ThingOf Refused) → Answers (thing_means (facts env.entry.text)) whole w → Answers (thing_means (facts env.entry.text)) result (then (bring_of (need_means (facts env.entry.text) need) (spot_of e) (judge_of (env_means env.entry) e)) (λ m. w)) }
{
    let mut at = k;
    loop {
        match node_at(nodes, at) {
            Node::Monadic(operator, item, inner) if inner < at => {
                whole = bring(env, need, Thing::Value(outcome(operator)), item).and(whole);
                need = argument(operator);
                at = inner;
            }
            _ => return brought(env, nodes, need, at).and(whole),
        }
    }
}

/// What an expression stands for in which no operator is outside brackets. Not inlined, so that a level of operators takes little of the stack.
#[inline(never)]
#[cycle(expressions)]
fn primary(env: Env<'_>, nodes: &[Node], k: usize) -> Result<Thing, Refusal>
    ensures { (n : ℕ) (e : Expr n) → IsExpr e nodes.now k → ((c : Symbol) (i l r : ℕ) → At nodes.now k (DyadicNode c i l r) → ⊥) → ((c : Symbol) (i r : ℕ) → At nodes.now k (MonadicNode c i r) → ⊥) → Answers (thing_means (facts env.entry.text)) result (judge_of (env_means env.entry) e) }
{
    match node_at(nodes, k) {
        Node::Integer(item) => Ok(figure(env.text.value(item))),
        Node::Text(_) => Ok(STRING),
        Node::Call(name, _) => {
            let signature = env.runs(name)?;
            yielded(env, signature, name, 0)
        }
        Node::CallOn(name, _, list) if list < k => {
            let signature = env.runs(name)?;
            let count = arguments(env, nodes, env.parameters(signature), list)?;
            yielded(env, signature, name, count)
        }
        Node::Paren(_, inner) if inner < k => judge(env, nodes, inner),
        Node::Element(base, _, index) if index < k => match node_at(nodes, base) {
            Node::Name(name) => headed(env, nodes, name, index),
            _ => variable(env, nodes, k),
        },
        _ => variable(env, nodes, k),
    }
}

/// What a string stands for.
const STRING: Thing = Thing::Value(Mode::RefArray(Element {
    arrays: 0,
    base: Base::Plain(Plain::Byte),
}));
