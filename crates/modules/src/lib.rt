//! Reading the items of a module into nodes.
#![tactic(auto)]

ghost use Rattle.std.specs.Prelude.{◌≡◌, ◌+◌, ◌*◌, ◌<◌, ◌≤◌, true, [], ◌∷◌, length, MatchResult, slice_index_or};
ghost use Rattle.grammar.specs.Symbols.{among, STOP, COMMA, DATA, PROC, EXT, MODE, ENT};
ghost use Rattle.grammar.specs.Trees.{Opt, of_opt, Many, of_many, Dec, Fields, of_fields, Mode, of_mode, Brick, of_brick, Moditem, of_moditem, Module, of_module};
ghost use Rattle.grammar.specs.Sentences.{fine, Made as MadeOf};
ghost use Rattle.grammar.specs.Machine.{each, all, moditems, maybe_fields, maybe_mode, maybe_modes, a_brick, a_module, run};
ghost use Rattle.nodes.specs.Made.{Fewer, MadeFrom, Way, Refused, answer, Room, ReadsTo, ReadsFewer};
ghost use Rattle.nodes.specs.Nodes.{IsOpt, IsMany, IsDec, IsFields, IsMode, IsBrick, IsModitem, IsModule};
ghost use Rattle.declarations.specs.Declaring.{Listing, IsListing};
ghost use Rattle.modules.specs.Bricks.{brick_firsts, Storing, of_storing, Head, of_head, IsHead, HeadWay};
ghost use Rattle.std.proofs.Common.{rules};
ghost use Rattle.nodes.proofs.Repeat.{moditems_begin};

use declarations::bricks::{decs, modes};
use declarations::{Declares, Described, Stored, begins_mode, fields, mode, names};
use grammar::Symbol;
use nodes::lists::{Entries, read_list};
use nodes::{Fault, Node, Parsed, Spot, put};
use statements::bodies::body;

/// How deep a module may nest.
pub const MAX_DEPTH: usize = 32;

// The three that may be left out differ in what they call, in its tree and in its goal: a trait over them would have to name all three for
// each, and be longer than they are.

/// Parameters, or none.
fn maybe_fields(from: Spot<'_>, nodes: &mut [Node]) -> Result<Parsed, Fault>
    requires within { from.next ≤ length from.symbols.now }
    requires room { Room 1 from nodes.old }
    ensures { ReadsTo 1 (Opt Fields) (IsOpt IsFields) (of_opt of_fields) (maybe_fields ∷ []) from.entry nodes.old nodes.new result }
{
    if begins_mode(from.peek(from.next)) {
        return fields(from, nodes);
    }
    Ok(put(nodes, from.used, Node::Absent, from.next))
}

/// A mode, or none.
fn maybe_mode(from: Spot<'_>, nodes: &mut [Node]) -> Result<Parsed, Fault>
    requires within { from.next ≤ length from.symbols.now }
    requires room { Room 1 from nodes.old }
    ensures { ReadsTo 1 (Opt Mode) (IsOpt IsMode) (of_opt of_mode) (maybe_mode ∷ []) from.entry nodes.old nodes.new result }
{
    if begins_mode(from.peek(from.next)) {
        return mode(from, nodes);
    }
    Ok(put(nodes, from.used, Node::Absent, from.next))
}

/// Modes separated by commas, or none.
fn maybe_modes(from: Spot<'_>, nodes: &mut [Node]) -> Result<Parsed, Fault>
    requires within { from.next ≤ length from.symbols.now }
    requires room { Room 1 from nodes.old }
    ensures { ReadsTo 1 (Opt (Many Mode)) (IsOpt (IsMany IsMode)) (of_opt (of_many of_mode COMMA)) (maybe_modes ∷ []) from.entry nodes.old nodes.new result }
{
    if begins_mode(from.peek(from.next)) {
        return modes(from, nodes);
    }
    Ok(put(nodes, from.used, Node::Absent, from.next))
}

/// The name of a data brick, there, and its declarations up to ENDDATA.
fn storing<D: Declares>(of: D, from: Spot<'_>, nodes: &mut [Node]) -> Result<Parsed, Fault>
    requires within { from.next ≤ length from.symbols.now }
    requires room { Room 0 from nodes.old }
    ensures { ReadsTo 0 (Many (Dec (Listing D.sort))) (IsMany (IsDec (IsListing D.sort))) (of_storing D.sort from.entry.next) (Storing D.sort) from.entry nodes.old nodes.new result }
{
    from.expect(from.next, Symbol::Name)?;
    from.expect(from.next + 1, Symbol::Semi)?;
    let inside = Spot {
        next: from.next + 2,
        ..from
    };
    let d = decs(of, inside, nodes)?;
    from.expect(d.next, Symbol::Enddata)?;
    Ok(Parsed {
        next: d.next + 1,
        ..d
    })
}

/// A data brick, DATA being there.
fn data_brick(from: Spot<'_>, nodes: &mut [Node]) -> Result<Parsed, Fault>
    requires opening { slice_index_or from.symbols.now from.next STOP ≡ DATA }
    requires there { from.next < length from.symbols.now }
    requires room { Room 0 from nodes.old }
    ensures { ReadsFewer 0 Brick IsBrick of_brick (Way (a_brick ∷ [])) (Refused (a_brick ∷ [])) from.entry nodes.old nodes.new result }
{
    let behind = Spot {
        next: from.next + 1,
        ..from
    };
    let d = storing(Stored, behind, nodes)?;
    Ok(put(nodes, d.used, Node::Store(from.next + 1, d.root), d.next))
}

/// A procedure up to its body, PROC being there.
fn heading(from: Spot<'_>, nodes: &mut [Node]) -> Result<Parsed, Fault>
    requires opening { slice_index_or from.symbols.now from.next STOP ≡ PROC }
    requires there { from.next < length from.symbols.now }
    requires room { Room 0 from nodes.old }
    ensures { MatchResult result (λ p. MadeFrom 0 Head (IsHead from.entry.next) (of_head from.entry.next) HeadWay from.entry nodes.old nodes.new p × Fewer (from.entry.next + 1) from.entry.used p) (λ f. Refused (a_brick ∷ []) from.entry.depth from.entry.symbols.now from.entry.next f) }
{
    from.expect(from.next + 1, Symbol::Name)?;
    from.expect(from.next + 2, Symbol::Left)?;
    let inside = from.inside(from.next + 2)?;
    let f = maybe_fields(inside, nodes)?;
    from.expect(f.next, Symbol::Right)?;
    let m = maybe_mode(from.past(f), nodes)?;
    from.expect(m.next, Symbol::Semi)?;
    Ok(put(
        nodes,
        m.used,
        Node::Heading(from.next + 1, from.next + 2, f.root, m.root),
        m.next + 1,
    ))
}

/// A procedure, PROC being there.
fn procedure(from: Spot<'_>, nodes: &mut [Node]) -> Result<Parsed, Fault>
    requires opening { slice_index_or from.symbols.now from.next STOP ≡ PROC }
    requires there { from.next < length from.symbols.now }
    requires room { Room 0 from nodes.old }
    ensures { ReadsFewer 0 Brick IsBrick of_brick (Way (a_brick ∷ [])) (Refused (a_brick ∷ [])) from.entry nodes.old nodes.new result }
{
    let h = heading(from, nodes)?;
    let b = body(from.after(h), nodes)?;
    from.expect(b.next, Symbol::Endproc)?;
    Ok(put(
        nodes,
        b.used,
        Node::Procedure(h.root, b.root, b.next),
        b.next + 1,
    ))
}

/// A data brick or a procedure.
fn brick(from: Spot<'_>, nodes: &mut [Node]) -> Result<Parsed, Fault>
    requires within { from.next ≤ length from.symbols.now }
    requires room { Room 0 from nodes.old }
    ensures { ReadsFewer 0 Brick IsBrick of_brick (Way (a_brick ∷ [])) (Refused (a_brick ∷ [])) from.entry nodes.old nodes.new result }
{
    match from.peek(from.next) {
        Symbol::Data => data_brick(from, nodes),
        Symbol::Proc => procedure(from, nodes),
        _ => Err(Fault::Syntax(from.next)),
    }
}

/// Described procedures, EXT being there and PROC behind it.
fn external_procs(from: Spot<'_>, nodes: &mut [Node]) -> Result<Parsed, Fault>
    requires opening { slice_index_or from.symbols.now from.next STOP ≡ EXT }
    requires second { slice_index_or from.symbols.now (from.next + 1) STOP ≡ PROC }
    requires there { from.next + 1 < length from.symbols.now }
    requires room { Room 1 from nodes.old }
    ensures { ReadsTo 1 Moditem IsModitem of_moditem (each moditems ∷ []) from.entry nodes.old nodes.new result }
{
    from.expect(from.next + 2, Symbol::Left)?;
    let inside = from.inside(from.next + 2)?;
    let p = maybe_modes(inside, nodes)?;
    from.expect(p.next, Symbol::Right)?;
    let m = maybe_mode(from.past(p), nodes)?;
    let n = names(Described, from.after(m), nodes)?;
    Ok(put(
        nodes,
        n.used,
        Node::ExternalProcs(from.next + 2, p.root, m.root, n.root),
        n.next,
    ))
}

/// A described data brick, EXT being there and DATA behind it.
fn external_store(from: Spot<'_>, nodes: &mut [Node]) -> Result<Parsed, Fault>
    requires opening { slice_index_or from.symbols.now from.next STOP ≡ EXT }
    requires second { slice_index_or from.symbols.now (from.next + 1) STOP ≡ DATA }
    requires there { from.next + 1 < length from.symbols.now }
    requires room { Room 1 from nodes.old }
    ensures { ReadsTo 1 Moditem IsModitem of_moditem (each moditems ∷ []) from.entry nodes.old nodes.new result }
{
    let behind = Spot {
        next: from.next + 2,
        ..from
    };
    let d = storing(Described, behind, nodes)?;
    Ok(put(
        nodes,
        d.used,
        Node::ExternalStore(from.next + 2, d.root),
        d.next,
    ))
}

/// What is described as external, EXT being there.
fn external(from: Spot<'_>, nodes: &mut [Node]) -> Result<Parsed, Fault>
    requires opening { slice_index_or from.symbols.now from.next STOP ≡ EXT }
    requires there { from.next < length from.symbols.now }
    requires room { Room 1 from nodes.old }
    ensures { ReadsTo 1 Moditem IsModitem of_moditem (each moditems ∷ []) from.entry nodes.old nodes.new result }
{
    match from.peek(from.next + 1) {
        Symbol::Proc => external_procs(from, nodes),
        Symbol::Data => external_store(from, nodes),
        _ => Err(Fault::Syntax(from.next + 1)),
    }
}

/// A record mode, MODE being there.
fn record_mode(from: Spot<'_>, nodes: &mut [Node]) -> Result<Parsed, Fault>
    requires opening { slice_index_or from.symbols.now from.next STOP ≡ MODE }
    requires there { from.next < length from.symbols.now }
    requires room { Room 1 from nodes.old }
    ensures { ReadsTo 1 Moditem IsModitem of_moditem (each moditems ∷ []) from.entry nodes.old nodes.new result }
{
    from.expect(from.next + 1, Symbol::Name)?;
    from.expect(from.next + 2, Symbol::Left)?;
    let inside = from.inside(from.next + 2)?;
    let f = fields(inside, nodes)?;
    from.expect(f.next, Symbol::Right)?;
    Ok(put(
        nodes,
        f.used,
        Node::RecordMode(from.next + 1, from.next + 2, f.root),
        f.next + 1,
    ))
}

/// A brick that can be called from outside, ENT being there.
fn entered(from: Spot<'_>, nodes: &mut [Node]) -> Result<Parsed, Fault>
    requires opening { slice_index_or from.symbols.now from.next STOP ≡ ENT }
    requires there { from.next < length from.symbols.now }
    requires room { Room 1 from nodes.old }
    ensures { ReadsTo 1 Moditem IsModitem of_moditem (each moditems ∷ []) from.entry nodes.old nodes.new result }
{
    let behind = Spot {
        next: from.next + 1,
        ..from
    };
    let b = brick(behind, nodes)?;
    Ok(put(nodes, b.used, Node::Ent(b.root), b.next))
}

/// A brick of the module, which begins there.
fn own(from: Spot<'_>, nodes: &mut [Node]) -> Result<Parsed, Fault>
    requires first { among brick_firsts (slice_index_or from.symbols.now from.next STOP) ≡ true }
    requires there { from.next < length from.symbols.now }
    requires room { Room 1 from nodes.old }
    ensures { ReadsTo 1 Moditem IsModitem of_moditem (each moditems ∷ []) from.entry nodes.old nodes.new result }
{
    let b = brick(from, nodes)?;
    Ok(put(nodes, b.used, Node::Own(b.root), b.next))
}

/// One item of a module; it may be empty.
fn moditem(from: Spot<'_>, nodes: &mut [Node]) -> Result<Parsed, Fault>
    requires within { from.next ≤ length from.symbols.now }
    requires room { Room 1 from nodes.old }
    ensures { ReadsTo 1 Moditem IsModitem of_moditem (each moditems ∷ []) from.entry nodes.old nodes.new result }
{
    match from.peek(from.next) {
        Symbol::Ext => external(from, nodes),
        Symbol::Mode => record_mode(from, nodes),
        Symbol::Ent => entered(from, nodes),
        Symbol::Data | Symbol::Proc => own(from, nodes),
        _ => Ok(put(nodes, from.used, Node::Blank, from.next)),
    }
}

/// Items of a module with semicolons between them.
#[derive(Clone, Copy)]
struct ItemList;

impl Entries for ItemList {
    ghost kind = { λ a. moditems };

    ghost slack = { 1 };

    ghost goal = { λ a. all moditems };

    fn separator(self) -> Symbol {
        Symbol::Semi
    }

    fn entry(self, from: Spot<'_>, nodes: &mut [Node]) -> Result<Parsed, Fault> {
        moditem(from, nodes)
    }

    ghost small = { Prim.search rules };

    ghost begins = { λ a. moditems_begin };
}

/// The module that the terminals are: the node that stands for it, or the number of the first terminal that can follow in no module or nests too deep.
pub fn read_module(s: &[Symbol], nodes: &mut [Node]) -> Result<usize, Fault>
    requires room { 1 + 2 * length s.now ≤ length nodes.old }
    ensures { MatchResult result (λ k. (m : Module) × IsModule m nodes.new k × MadeOf m s.now × (run 32 a_module 0 s.now ≡ fine)) (λ f. run 32 a_module 0 s.now ≡ answer f) }
{
    let from = Spot {
        symbols: s,
        next: 0,
        depth: MAX_DEPTH,
        used: 0,
    };
    let m = read_list(ItemList, from, nodes)?;
    if m.next < s.len() {
        return Err(Fault::Syntax(m.next));
    }
    Ok(m.root)
}
