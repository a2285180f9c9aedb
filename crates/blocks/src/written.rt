//! Judging modes as they are written: a mode that a mode names must be one of records.
ghost use Rattle.std.specs.Prelude.{◌≡◌};
ghost use Rattle.grammar.specs.Trees.{Mode as TreeMode, Amode};
ghost use Rattle.nodes.specs.Nodes.{IsMode, IsAmode};
ghost use Rattle.statics.specs.JudgeStatements.{judge_written, judge_element};
ghost use Rattle.scopes.specs.Meanings.{env_means, Answers};

use nodes::{Node, node_at};
use scopes::Env;
use statics::Refusal;

/// A mode, or what the elements of an array are.
pub fn written(env: Env<'_>, nodes: &[Node], k: usize) -> Result<(), Refusal>
    ensures mode { (m : TreeMode) → IsMode m nodes.now k → Answers (λ u. tt) result (judge_written (env_means env.entry) m) }
    ensures element { (m : Amode) → IsAmode m nodes.now k → Answers (λ u. tt) result (judge_element (env_means env.entry) m) }
{
    let mut at = k;
    loop {
        match node_at(nodes, at) {
            Node::RefArray(inner) | Node::RefArrayBrackets(_, inner) => {
                if inner >= at {
                    return Ok(());
                }
                at = inner;
            }
            Node::RefRecord(name) | Node::Records(name) => return env.shapes(name),
            _ => return Ok(()),
        }
    }
}
