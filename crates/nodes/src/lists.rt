//! Lists: one entry, and further ones behind a separator.
ghost use Rattle.std.specs.Prelude.{◌≡◌, ℕ, ◌≤◌, [], ◌∷◌, length};
ghost use Rattle.grammar.specs.Machine.{Goal, Repetition, Single, Whole, each, separator as separator_of, of_single, of_whole};
ghost use Rattle.nodes.specs.Made.{Room, ReadsTo};
ghost use Rattle.nodes.specs.Lists.{IsSingle, IsWhole, Begins};

use crate::{Fault, Node, Parsed, Spot, put};
use grammar::Symbol;

/// What a list of a module is made of.
pub trait Entries: Copy {
    // which list it is, how many nodes an entry may need beyond two to an item, and the goal that the list meets
    ghost kind: { Self → Repetition };

    ghost slack: { ℕ };

    ghost goal: { Self → Goal };

    /// What stands between two entries.
    fn separator(self) -> Symbol
        ensures { result ≡ separator_of (kind self) };

    /// Reads one entry.
    fn entry(self, from: Spot<'_>, nodes: &mut [Node]) -> Result<Parsed, Fault>
        requires within { from.next ≤ length from.symbols.now }
        requires room { Room slack from nodes.old }
        ensures { ReadsTo slack (Single (kind self)) (IsSingle (kind self)) (of_single (kind self)) (each (kind self) ∷ []) from.entry nodes.old nodes.new result };

    ghost small: { slack ≤ 1 };

    ghost begins: { (a : Self) → Begins (kind a) (goal a) };
}

/// Reads one entry, and further ones behind separators. The list is linked backwards.
pub fn read_list<L: Entries>(of: L, from: Spot<'_>, nodes: &mut [Node]) -> Result<Parsed, Fault>
    requires within { from.next ≤ length from.symbols.now }
    requires room { Room L.slack from nodes.old }
    ensures { ReadsTo L.slack (Whole (L.kind of)) (IsWhole (L.kind of)) (of_whole (L.kind of)) (L.goal of ∷ []) from.entry nodes.old nodes.new result }
{
    let mut at = of.entry(from, nodes)?;
    while from.peek(at.next) == of.separator() {
        let e = of.entry(from.past(at), nodes)?;
        at = put(nodes, e.used, Node::Also(at.root, e.root), e.next);
    }
    Ok(at)
}
