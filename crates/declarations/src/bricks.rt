//! Reading lists of modes, and what a data brick declares, into nodes.
ghost use Rattle.std.specs.Prelude.{◌≡◌, ◌+◌, ◌*◌, ◌<◌, ◌≤◌, true, [], ◌∷◌, length, MatchResult, slice_index_or};
ghost use Rattle.nodes.specs.Made.{Made, Way, Refused, Room, ReadsTo};
ghost use Rattle.nodes.specs.Nodes.{IsMany, IsMode, IsDec};
ghost use Rattle.grammar.specs.Symbols.{among, STOP, NAME, ARRAY, COMMA, SEMI};
ghost use Rattle.grammar.specs.Trees.{Many, of_many, Mode, of_mode, Dec, of_dec};
ghost use Rattle.grammar.specs.Machine.{all, each, modes as the_modes, declareds, decs as the_decs};
ghost use Rattle.declarations.specs.Declaring.{mode_firsts, Listing, IsListing, of_listing};
ghost use Rattle.std.proofs.Common.{rules};
ghost use Rattle.nodes.proofs.Repeat.{modes_begin, decs_begin};

use crate::{Declares, amode, mode, names};
use grammar::Symbol;
use nodes::lists::{Entries, read_list};
use nodes::{Fault, Node, Parsed, Spot, put};

/// Modes with commas between them.
#[derive(Clone, Copy)]
struct ModeList;

impl Entries for ModeList {
    ghost kind = { λ a. the_modes };

    ghost slack = { 0 };

    ghost goal = { λ a. all the_modes };

    fn separator(self) -> Symbol {
        Symbol::Comma
    }

    fn entry(self, from: Spot<'_>, nodes: &mut [Node]) -> Result<Parsed, Fault> {
        mode(from, nodes)
    }

    ghost small = { Prim.search rules };

    ghost begins = { λ a. modes_begin };
}

/// Modes, separated by commas.
pub fn modes(from: Spot<'_>, nodes: &mut [Node]) -> Result<Parsed, Fault>
    requires within { from.next ≤ length from.symbols.now }
    requires room { Room 0 from nodes.old }
    ensures { ReadsTo 0 (Many Mode) (IsMany IsMode) (of_many of_mode COMMA) (all the_modes ∷ []) from.entry nodes.old nodes.new result }
{
    read_list(ModeList, from, nodes)
}

/// The declaration of arrays, ARRAY being there.
fn arrays<D: Declares>(of: D, from: Spot<'_>, nodes: &mut [Node]) -> Result<Parsed, Fault>
    requires array { slice_index_or from.symbols.now from.next STOP ≡ ARRAY }
    requires there { from.next < length from.symbols.now }
    requires room { Room 1 from nodes.old }
    ensures { ReadsTo 1 (Dec (Listing D.sort)) (IsDec (IsListing D.sort)) (of_dec (of_listing D.sort)) (each (the_decs D.sort) ∷ []) from.entry nodes.old nodes.new result }
{
    from.expect(from.next + 1, Symbol::Left)?;
    let _ = from.deeper(from.next + 1)?;
    from.expect(from.next + 2, Symbol::Integer)?;
    from.expect(from.next + 3, Symbol::Right)?;
    let behind = Spot {
        next: from.next + 4,
        ..from
    };
    let m = amode(behind, nodes)?;
    let n = names(of, from.after(m), nodes)?;
    Ok(put(
        nodes,
        n.used,
        Node::Arrays(from.next + 1, from.next + 2, m.root, n.root),
        n.next,
    ))
}

/// The declaration of records, the name of their mode being there.
fn structures<D: Declares>(of: D, from: Spot<'_>, nodes: &mut [Node]) -> Result<Parsed, Fault>
    requires name { slice_index_or from.symbols.now from.next STOP ≡ NAME }
    requires there { from.next < length from.symbols.now }
    requires room { Room 1 from nodes.old }
    ensures { ReadsTo 1 (Dec (Listing D.sort)) (IsDec (IsListing D.sort)) (of_dec (of_listing D.sort)) (each (the_decs D.sort) ∷ []) from.entry nodes.old nodes.new result }
{
    let behind = Spot {
        next: from.next + 1,
        ..from
    };
    let n = names(of, behind, nodes)?;
    Ok(put(nodes, n.used, Node::Structures(from.next, n.root), n.next))
}

/// The declaration of variables of a simple mode, which begins there.
fn variables<D: Declares>(of: D, from: Spot<'_>, nodes: &mut [Node]) -> Result<Parsed, Fault>
    requires begins { among mode_firsts (slice_index_or from.symbols.now from.next STOP) ≡ true }
    requires there { from.next < length from.symbols.now }
    requires room { Room 1 from nodes.old }
    ensures { ReadsTo 1 (Dec (Listing D.sort)) (IsDec (IsListing D.sort)) (of_dec (of_listing D.sort)) (each (the_decs D.sort) ∷ []) from.entry nodes.old nodes.new result }
{
    let m = mode(from, nodes)?;
    let n = names(of, from.after(m), nodes)?;
    Ok(put(nodes, n.used, Node::Variables(m.root, n.root), n.next))
}

/// One declaration, which may be empty.
fn dec<D: Declares>(of: D, from: Spot<'_>, nodes: &mut [Node]) -> Result<Parsed, Fault>
    requires within { from.next ≤ length from.symbols.now }
    requires room { Room 1 from nodes.old }
    ensures { ReadsTo 1 (Dec (Listing D.sort)) (IsDec (IsListing D.sort)) (of_dec (of_listing D.sort)) (each (the_decs D.sort) ∷ []) from.entry nodes.old nodes.new result }
{
    match from.peek(from.next) {
        Symbol::Array => arrays(of, from, nodes),
        Symbol::Name => structures(of, from, nodes),
        Symbol::Int | Symbol::Byte | Symbol::Ref => variables(of, from, nodes),
        _ => Ok(put(nodes, from.used, Node::Nothing, from.next)),
    }
}

/// Declarations with semicolons between them.
#[derive(Clone, Copy)]
struct DecList<D>(D);

impl<D: Declares> Entries for DecList<D> {
    ghost kind = { λ a. the_decs D.sort };

    ghost slack = { 1 };

    ghost goal = { λ a. all (the_decs D.sort) };

    fn separator(self) -> Symbol {
        Symbol::Semi
    }

    fn entry(self, from: Spot<'_>, nodes: &mut [Node]) -> Result<Parsed, Fault> {
        dec(self.0, from, nodes)
    }

    ghost small = { Prim.search rules };

    ghost begins = { λ a. decs_begin D.sort };
}

/// The declarations of a data brick, separated by semicolons.
pub fn decs<D: Declares>(of: D, from: Spot<'_>, nodes: &mut [Node]) -> Result<Parsed, Fault>
    requires within { from.next ≤ length from.symbols.now }
    requires room { Room 1 from nodes.old }
    ensures { ReadsTo 1 (Many (Dec (Listing D.sort))) (IsMany (IsDec (IsListing D.sort))) (of_many (of_dec (of_listing D.sort)) SEMI) (all (the_decs D.sort) ∷ []) from.entry nodes.old nodes.new result }
{
    read_list(DecList(of), from, nodes)
}
