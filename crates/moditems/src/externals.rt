//! Judging descriptions of procedures outside: there are two of these.
ghost use Rattle.std.specs.Prelude.{◌≡◌, ℕ};
ghost use Rattle.grammar.specs.Trees.{Many, Mode, Opt};
ghost use Rattle.nodes.specs.Nodes.{IsMany, IsMode, IsName, IsOpt};
ghost use Rattle.statics.specs.Scopes.{Signature};
ghost use Rattle.statics.specs.Modules.{maybe_mode, modes};
ghost use Rattle.statics.specs.declared.Refusal.TheVariants.{WrongName};
ghost use Rattle.statics.specs.JudgeExpressions.{check, judge_each};
ghost use Rattle.statics.specs.JudgeModules.{admitted as admitted_of};
ghost use Rattle.texts.specs.Facts.{facts};
ghost use Rattle.scopes.specs.Meanings.{Answers};
ghost use Rattle.moditems.specs.Described.{description};

use lists::entries;
use nodes::{Node, node_at};
use statics::Refusal;
use texts::Text;

/// Whether a described procedure is one of the two that there are.
fn admitted(text: Text<'_>, nodes: &[Node], takes: usize, gives: usize, name: usize) -> bool
    ensures { (ms : Opt (Many Mode)) (m : Opt Mode) → IsOpt (IsMany IsMode) ms nodes.now takes → IsOpt IsMode m nodes.now gives → result ≡ admitted_of ((facts text.entry).word name) (description (facts text.entry) ms m) }
{
    match node_at(nodes, gives) {
        Node::Int => {
            matches!(node_at(nodes, takes), Node::Absent) && text.is_word(name, b"INBYTE")
        }
        Node::Absent => {
            matches!(node_at(nodes, takes), Node::Byte(_)) && text.is_word(name, b"OUTBYTE")
        }
        _ => false,
    }
}

/// One of some described procedures.
fn one_described(
    text: Text<'_>,
    nodes: &[Node],
    takes: usize,
    gives: usize,
    k: usize,
) -> Result<(), Refusal>
    ensures { (ms : Opt (Many Mode)) (m : Opt Mode) (n : ℕ) → IsOpt (IsMany IsMode) ms nodes.now takes → IsOpt IsMode m nodes.now gives → IsName n nodes.now k → Answers (λ u. tt) result (check (admitted_of ((facts text.entry).word n) (description (facts text.entry) ms m)) (WrongName n)) }
{
    match node_at(nodes, k) {
        Node::Name(name) if admitted(text, nodes, takes, gives, name) => Ok(()),
        Node::Name(name) => Err(Refusal::WrongName(name)),
        _ => Ok(()),
    }
}

/// Described procedures.
pub fn described(
    text: Text<'_>,
    nodes: &[Node],
    takes: usize,
    gives: usize,
    list: usize,
) -> Result<(), Refusal>
    ensures { (ms : Opt (Many Mode)) (m : Opt Mode) (ns : Many ℕ) → IsOpt (IsMany IsMode) ms nodes.now takes → IsOpt IsMode m nodes.now gives → IsMany IsName ns nodes.now list → Answers (λ u. tt) result (judge_each (λ n. check (admitted_of ((facts text.entry).word n) (description (facts text.entry) ms m)) (WrongName n)) ns) }
{
    let mut result = Ok(());
    for name in entries(nodes, list) {
        result = one_described(text, nodes, takes, gives, name).and(result);
    }
    result
}
