//! Judging conditions.
ghost use Rattle.std.specs.Prelude.{◌≡◌, List, Ok};
ghost use Rattle.grammar.specs.Trees.{Comparison, Condition};
ghost use Rattle.nodes.specs.Nodes.{IsComparison, IsCondition};
ghost use Rattle.lists.specs.Lists.{listed, Stand, in_order};
ghost use Rattle.statics.specs.JudgeExpressions.{then, judge_comparison, judge_condition};
ghost use Rattle.scopes.specs.Meanings.{env_means, Answers};

use judging::brought;
use judging::fronts::front;
use judging::operators::{agree, compared};
use lists::entries;
use nodes::{Node, node_at};
use scopes::Env;
use statics::Refusal;

/// Two expressions that are compared.
fn comparison(env: Env<'_>, nodes: &[Node], k: usize) -> Result<(), Refusal>
    ensures { (c : Comparison) → IsComparison c nodes.now k → Answers (λ u. tt) result (judge_comparison (env_means env.entry) c) }
{
    let Node::Compare(comparator, left, right) = node_at(nodes, k) else {
        return Err(Refusal::Misfit(k));
    };
    let need = compared(comparator);
    let a = brought(env, nodes, need, left)?;
    let b = brought(env, nodes, need, right)?;
    if agree(comparator, a, b, env.text) {
        Ok(())
    } else {
        Err(Refusal::Misfit(front(nodes, left)))
    }
}

/// Comparisons joined by AND, judged from the last to the first: the earliest refusal is answered.
fn subcondition(env: Env<'_>, nodes: &[Node], k: usize) -> Result<(), Refusal>
    ensures { (cs : List Comparison) → Stand IsComparison cs nodes.now (listed nodes.now k) → Answers (λ u. tt) result (in_order (λ a b. then a (λ u. b)) (Ok tt) (judge_comparison (env_means env.entry)) cs) }
{
    let mut rest = Ok(());
    for entry in entries(nodes, k) {
        rest = comparison(env, nodes, entry).and(rest);
    }
    rest
}

/// A condition: comparisons joined by AND, and these by OR.
pub fn condition(env: Env<'_>, nodes: &[Node], k: usize) -> Result<(), Refusal>
    ensures { (c : Condition) → IsCondition c nodes.now k → Answers (λ u. tt) result (judge_condition (env_means env.entry) c) }
{
    let mut rest = Ok(());
    for entry in entries(nodes, k) {
        rest = subcondition(env, nodes, entry).and(rest);
    }
    rest
}
