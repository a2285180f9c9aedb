//! Reading the locals of a body into nodes.
ghost use Rattle.std.specs.Prelude.{◌≡◌, ◌+◌, ◌*◌, ◌<◌, ◌≤◌, true, [], ◌∷◌, length, MatchResult, slice_index_or};
ghost use Rattle.nodes.specs.Made.{Made, Refused, Room, Reads, ReadsFewer};
ghost use Rattle.nodes.specs.Nodes.{IsLocal, IsLocals};
ghost use Rattle.grammar.specs.Symbols.{among, STOP};
ghost use Rattle.grammar.specs.Trees.{Local, Locals, of_locals};
ghost use Rattle.grammar.specs.Machine.{a_body};
ghost use Rattle.declarations.specs.Declaring.{mode_firsts};
ghost use Rattle.declarations.specs.Bodies.{LocalWay, LocalsWay, of_ended};

use crate::{InBlock, begins_mode, mode, names};
use grammar::Symbol;
use nodes::{Fault, Node, Parsed, Spot, put};

/// One declaration of locals with its semicolon, its mode beginning there.
fn local(from: Spot<'_>, nodes: &mut [Node]) -> Result<Parsed, Fault>
    requires begins { among mode_firsts (slice_index_or from.symbols.now from.next STOP) ≡ true }
    requires there { from.next < length from.symbols.now }
    requires room { Room 0 from nodes.old }
    ensures { ReadsFewer 0 Local IsLocal of_ended LocalWay (Refused (a_body ∷ [])) from.entry nodes.old nodes.new result }
{
    let m = mode(from, nodes)?;
    let n = names(InBlock, from.after(m), nodes)?;
    from.expect(n.next, Symbol::Semi)?;
    Ok(put(nodes, n.used, Node::Local(m.root, n.root), n.next + 1))
}

// Not `read_list`: no separator stands between them, and there may be none.
/// The locals of a body, up to where no mode begins.
pub fn locals(from: Spot<'_>, nodes: &mut [Node]) -> Result<Parsed, Fault>
    requires within { from.next ≤ length from.symbols.now }
    requires room { Room 1 from nodes.old }
    ensures { Reads 1 Locals IsLocals of_locals LocalsWay (Refused (a_body ∷ [])) from.entry nodes.old nodes.new result }
{
    let mut at = put(nodes, from.used, Node::NoLocals, from.next);
    while begins_mode(from.peek(at.next)) {
        let l = local(from.after(at), nodes)?;
        at = put(nodes, l.used, Node::Locals(at.root, l.root), l.next);
    }
    Ok(at)
}
