//! Judging the modes of components, parameters and results.
ghost use Rattle.grammar.specs.Trees.{Fields, Many, Mode, Opt};
ghost use Rattle.nodes.specs.Nodes.{IsFields, IsMany, IsMode, IsOpt};
ghost use Rattle.statics.specs.JudgeExpressions.{judge_each};
ghost use Rattle.statics.specs.JudgeStatements.{judge_written};
ghost use Rattle.statics.specs.JudgeModules.{judge_fields, judge_opt};
ghost use Rattle.scopes.specs.Meanings.{env_means, Answers};
ghost use Rattle.moditems.specs.Described.{judge_last};

use blocks::written::written;
use lists::entries;
use nodes::{Node, node_at};
use scopes::Env;
use statics::Refusal;

/// The mode of the last of some components or parameters, if it is written there.
fn last_field(env: Env<'_>, nodes: &[Node], k: usize) -> Result<(), Refusal>
    ensures { (fs : Fields) → IsFields fs nodes.now k → Answers (λ u. tt) result (judge_last (env_means env.entry) fs) }
{
    match node_at(nodes, k) {
        Node::Field(mode, _) | Node::NextField(_, mode, _) => written(env, nodes, mode),
        _ => Ok(()),
    }
}

/// The modes of components or of parameters, if there are any.
pub fn fields(env: Env<'_>, nodes: &[Node], list: usize) -> Result<(), Refusal>
    ensures some { (fs : Fields) → IsFields fs nodes.now list → Answers (λ u. tt) result (judge_fields (env_means env.entry) fs) }
    ensures maybe { (ps : Opt Fields) → IsOpt IsFields ps nodes.now list → Answers (λ u. tt) result (judge_opt (judge_fields (env_means env.entry)) ps) }
{
    let mut result = Ok(());
    for field in entries(nodes, list) {
        result = last_field(env, nodes, field).and(result);
    }
    result
}

/// Modes with commas between them, if there are any.
pub fn modes(env: Env<'_>, nodes: &[Node], list: usize) -> Result<(), Refusal>
    ensures { (ms : Opt (Many Mode)) → IsOpt (IsMany IsMode) ms nodes.now list → Answers (λ u. tt) result (judge_opt (judge_each (judge_written (env_means env.entry))) ms) }
{
    let mut result = Ok(());
    for mode in entries(nodes, list) {
        result = written(env, nodes, mode).and(result);
    }
    result
}

/// The mode of a result, if there is one.
pub fn result_mode(env: Env<'_>, nodes: &[Node], k: usize) -> Result<(), Refusal>
    ensures { (m : Opt Mode) → IsOpt IsMode m nodes.now k → Answers (λ u. tt) result (judge_opt (judge_written (env_means env.entry)) m) }
{
    match node_at(nodes, k) {
        Node::Absent => Ok(()),
        _ => written(env, nodes, k),
    }
}
