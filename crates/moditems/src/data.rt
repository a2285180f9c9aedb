//! Judging data bricks.
ghost use Rattle.std.specs.Prelude.{◌<◌, ◌^◌, length, option_map};
ghost use Rattle.grammar.specs.Trees.{Dec, Init, Many, Value};
ghost use Rattle.nodes.specs.Nodes.{IsDec, IsInit, IsMany, IsValue};
ghost use Rattle.statics.specs.JudgeExpressions.{judge_each};
ghost use Rattle.statics.specs.JudgeModules.{judge_data_item, judge_data_dec};
ghost use Rattle.texts.specs.Facts.{facts};
ghost use Rattle.scopes.specs.Meanings.{env_means, Answers};
ghost use Rattle.values.specs.Wants.{want_means};

use blocks::written::written;
use lists::entries;
use modes::written::{element_at, mode_at};
use nodes::{Node, node_at};
use scopes::Env;
use statics::Refusal;
use values::{Want, value};

/// What is declared, with or without a value.
fn data_item(env: Env<'_>, nodes: &[Node], want: Want, k: usize) -> Result<(), Refusal>
    requires few { length nodes.now < 2 ^ 32 }
    ensures { (i : Init Value) → IsInit IsValue i nodes.now k → Answers (λ u. tt) result (judge_data_item (env_means env.entry) (want_means (facts env.entry.text) want) i) }
{
    match node_at(nodes, k) {
        Node::Given(_, initial) => value(env, nodes, want, initial),
        Node::Plain(item) if !want.valueless(env) => Err(Refusal::NoValue(item)),
        _ => Ok(()),
    }
}

/// The items of a declaration.
fn data_items(env: Env<'_>, nodes: &[Node], want: Want, list: usize) -> Result<(), Refusal>
    requires few { length nodes.now < 2 ^ 32 }
    ensures { (is : Many (Init Value)) → IsMany (IsInit IsValue) is nodes.now list → Answers (λ u. tt) result (judge_each (judge_data_item (env_means env.entry) (want_means (facts env.entry.text) want)) is) }
{
    let mut result = Ok(());
    for item in entries(nodes, list) {
        result = data_item(env, nodes, want, item).and(result);
    }
    result
}

/// A declaration of a data brick.
fn data_dec(env: Env<'_>, nodes: &[Node], k: usize) -> Result<(), Refusal>
    requires few { length nodes.now < 2 ^ 32 }
    ensures { (d : Dec (Many (Init Value))) → IsDec (IsMany (IsInit IsValue)) d nodes.now k → Answers (λ u. tt) result (judge_data_dec (env_means env.entry) d) }
{
    match node_at(nodes, k) {
        Node::Variables(mode, list) => {
            written(env, nodes, mode)?;
            data_items(env, nodes, Want::Simply(mode_at(nodes, mode)), list)
        }
        Node::Arrays(_, length, mode, list) => {
            written(env, nodes, mode)?;
            let want = Want::Several(env.text.value(length), element_at(nodes, mode));
            data_items(env, nodes, want, list)
        }
        Node::Structures(name, list) => {
            env.shapes(name)?;
            data_items(env, nodes, Want::Recorded(name), list)
        }
        _ => Ok(()),
    }
}

/// The declarations of a data brick.
pub fn store(env: Env<'_>, nodes: &[Node], list: usize) -> Result<(), Refusal>
    requires few { length nodes.now < 2 ^ 32 }
    ensures { (ds : Many (Dec (Many (Init Value)))) → IsMany (IsDec (IsMany (IsInit IsValue))) ds nodes.now list → Answers (λ u. tt) result (judge_each (judge_data_dec (env_means env.entry)) ds) }
{
    let mut result = Ok(());
    for declaration in entries(nodes, list) {
        result = data_dec(env, nodes, declaration).and(result);
    }
    result
}
