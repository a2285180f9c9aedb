//! Reading modes, components, initial values and declarations into nodes.
#![tactic(auto)]

pub mod bricks;
pub mod locals;

ghost use Rattle.std.specs.Prelude.{◌≡◌, ℕ, ◌+◌, ◌-◌, ◌*◌, ◌<◌, ◌≤◌, true, [], ◌∷◌, length, MatchResult, ◌≢◌, slice_index_or};
ghost use Rattle.nodes.specs.Made.{Fewer, Made, MadeFrom, Way, Refused, FieldsWay, Shares, of_shared, NamesWay, Room, ReadsTo, Reads};
ghost use Rattle.nodes.specs.Nodes.{IsExpr, IsMode, IsAmode, IsFields, IsValue, IsValues, IsEntry, IsMany, IsName, IsInit};
ghost use Rattle.grammar.specs.Symbols.{Says, among, STOP, LEFT, COMMA, REF, ARRAY, PLUS, MINUS};
ghost use Rattle.grammar.specs.Trees.{Expr, of_expr, Mode, Amode, of_mode, of_amode, Fields, Value, Values, Entry, of_fields, of_value, of_values, of_entry, Many, Init, of_init, of_inits, of_name, of_names};
ghost use Rattle.grammar.specs.Machine.{each, all, a_mode, an_amode, the_fields, a_value, entries, declareds, unset, stored, inblock, Setting, Initial as InitialTree, of_initial, set as set_sort, Sort, Declared, of_declared};
ghost use Rattle.declarations.specs.Referring.{Refers, Behind, AmodeMade};
ghost use Rattle.declarations.specs.Declaring.{mode_firsts, goal_of, Listing, IsListing, of_listing};
ghost use Rattle.nodes.specs.Lists.{IsInitial, IsDeclared};
ghost use Rattle.std.proofs.Common.{rules};
ghost use Rattle.nodes.proofs.Repeat.{declareds_begin};

use expressions::expr;
use grammar::Symbol;
use nodes::lists::{Entries, read_list};
use nodes::{Fault, Node, Parsed, Spot, put};

/// Whether a reference to an array is at the number i.
fn refers(from: Spot<'_>, i: usize) -> bool
    ensures { Says result (Refers from.entry.symbols.now i) }
{
    from.peek(i) == Symbol::Ref && from.peek(i + 1) == Symbol::Array
}

/// Where the mode of the elements begins, a reference to an array being at the number i.
fn elements(from: Spot<'_>, i: usize) -> Result<usize, Fault>
    requires reached { Behind from.depth from.symbols.now from.next i }
    requires refers { Refers from.symbols.now i }
    ensures { MatchResult result (λ k. Behind from.entry.depth from.entry.symbols.now from.entry.next k × (i < k)) (λ f. Refused (an_amode ∷ []) from.entry.depth from.entry.symbols.now from.entry.next f) }
{
    if from.peek(i + 2) != Symbol::Left {
        return Ok(i + 2);
    }
    let _ = from.deeper(i + 2)?;
    from.expect(i + 3, Symbol::Right)?;
    Ok(i + 4)
}

/// Where the innermost mode begins, behind all the references to arrays.
fn innermost(from: Spot<'_>) -> Result<usize, Fault>
    ensures { MatchResult result (λ k. Behind from.entry.depth from.entry.symbols.now from.entry.next k × (Refers from.entry.symbols.now k → ⊥)) (λ f. Refused (an_amode ∷ []) from.entry.depth from.entry.symbols.now from.entry.next f) }
{
    let mut i = from.next;
    while refers(from, i) {
        i = elements(from, i)?;
    }
    Ok(i)
}

/// A mode that begins with REF there, and refers to no array.
fn reference(from: Spot<'_>, nodes: &mut [Node]) -> Result<Parsed, Fault>
    requires refers { slice_index_or from.symbols.now from.next STOP ≡ REF }
    requires there { from.next < length from.symbols.now }
    requires bare { Refers from.symbols.now from.next → ⊥ }
    requires room { Room 0 from nodes.old }
    ensures { ReadsTo 0 Mode IsMode of_mode (a_mode ∷ []) from.entry nodes.old nodes.new result }
{
    match from.peek(from.next + 1) {
        Symbol::Int => Ok(put(nodes, from.used, Node::RefInt, from.next + 2)),
        Symbol::Byte => Ok(put(
            nodes,
            from.used,
            Node::RefByte(from.next + 1),
            from.next + 2,
        )),
        Symbol::Name => Ok(put(
            nodes,
            from.used,
            Node::RefRecord(from.next + 1),
            from.next + 2,
        )),
        _ => Err(Fault::Syntax(from.next + 1)),
    }
}

/// The mode of an array's elements that refers to no further array.
fn bare_amode(from: Spot<'_>, nodes: &mut [Node]) -> Result<Parsed, Fault>
    requires bare { Refers from.symbols.now from.next → ⊥ }
    requires room { Room 0 from nodes.old }
    ensures { ReadsTo 0 Amode IsAmode of_amode (an_amode ∷ []) from.entry nodes.old nodes.new result }
{
    match from.peek(from.next) {
        Symbol::Int => Ok(put(nodes, from.used, Node::Int, from.next + 1)),
        Symbol::Byte => Ok(put(nodes, from.used, Node::Byte(from.next), from.next + 1)),
        Symbol::Name => Ok(put(nodes, from.used, Node::Records(from.next), from.next + 1)),
        Symbol::Ref => reference(from, nodes),
        _ => Err(Fault::Syntax(from.next)),
    }
}

/// The mode of an array's elements, as far as it has been read from its end: where it begins there, and what stands for it.
#[derive(Clone, Copy)]
struct Inner {
    begin: usize,
    mode: Parsed,
}

/// The mode with the reference to an array that ends where it begins.
fn referred(from: Spot<'_>, nodes: &mut [Node], inner: Inner) -> Inner
    requires reached { Behind from.depth from.symbols.now from.next inner.begin }
    requires before { from.next ≢ inner.begin }
    requires room { Room 0 from nodes.old }
    requires read { AmodeMade from.depth from.symbols.now inner.begin from.used nodes.old nodes.old inner.mode }
    ensures { Behind from.entry.depth from.entry.symbols.now from.entry.next result.begin × (result.begin < inner.begin) × AmodeMade from.entry.depth from.entry.symbols.now result.begin from.entry.used nodes.old nodes.new result.mode }
{
    let end = inner.begin;
    let elements = inner.mode;
    if from.peek(end - 1) == Symbol::Right {
        let node = Node::RefArrayBrackets(end - 2, elements.root);
        return Inner {
            begin: end - 4,
            mode: put(nodes, elements.used, node, elements.next),
        };
    }
    let node = Node::RefArray(elements.root);
    Inner {
        begin: end - 2,
        mode: put(nodes, elements.used, node, elements.next),
    }
}

/// The mode of an array's elements.
// No function for a mode inside a mode, as the grammar has it: references to arrays stand in one another as often as a text has room for, and
// a loop takes no more of the stack for that. Their nodes are written from the innermost on, since a node stands behind those that it names.
pub fn amode(from: Spot<'_>, nodes: &mut [Node]) -> Result<Parsed, Fault>
    requires within { from.next ≤ length from.symbols.now }
    requires room { Room 0 from nodes.old }
    ensures { ReadsTo 0 Amode IsAmode of_amode (an_amode ∷ []) from.entry nodes.old nodes.new result }
{
    let begin = innermost(from)?;
    let behind = Spot {
        next: begin,
        ..from
    };
    let mode = bare_amode(behind, nodes)?;
    let mut inner = Inner { begin, mode };
    while inner.begin != from.next {
        inner = referred(from, nodes, inner);
    }
    Ok(inner.mode)
}

/// A mode: any that elements may have, but for the bare name of a record mode.
pub fn mode(from: Spot<'_>, nodes: &mut [Node]) -> Result<Parsed, Fault>
    requires within { from.next ≤ length from.symbols.now }
    requires room { Room 0 from nodes.old }
    ensures { ReadsTo 0 Mode IsMode of_mode (a_mode ∷ []) from.entry nodes.old nodes.new result }
{
    if from.peek(from.next) == Symbol::Name {
        return Err(Fault::Syntax(from.next));
    }
    amode(from, nodes)
}

/// Whether a mode begins with the terminal.
pub fn begins_mode(c: Symbol) -> bool
    ensures { result ≡ among mode_firsts c }
{
    matches!(c, Symbol::Int | Symbol::Byte | Symbol::Ref)
}

/// One more component or parameter, a comma being at the end of `at`.
fn further(from: Spot<'_>, nodes: &mut [Node], at: Parsed) -> Result<Parsed, Fault>
    requires comma { slice_index_or from.symbols.now at.next STOP ≡ COMMA }
    requires there { at.next < length from.symbols.now }
    requires room { Room 0 from nodes.old }
    requires begun { MadeFrom 0 Fields IsFields of_fields FieldsWay from nodes.old nodes.old at }
    ensures { MatchResult result (λ p. MadeFrom 0 Fields IsFields of_fields FieldsWay from.entry nodes.old nodes.new p × (at.next < p.next)) (λ f. Refused (the_fields ∷ []) from.entry.depth from.entry.symbols.now from.entry.next f) }
{
    if from.peek(at.next + 1) == Symbol::Name {
        return Ok(put(
            nodes,
            at.used,
            Node::AlsoField(at.root, at.next + 1),
            at.next + 2,
        ));
    }
    let m = mode(from.past(at), nodes)?;
    from.expect(m.next, Symbol::Name)?;
    Ok(put(
        nodes,
        m.used,
        Node::NextField(at.root, m.root, m.next),
        m.next + 1,
    ))
}

/// The components of a record mode, or the parameters of a procedure.
// Not `read_list`: the first has a mode, and those behind it may have none.
pub fn fields(from: Spot<'_>, nodes: &mut [Node]) -> Result<Parsed, Fault>
    requires within { from.next ≤ length from.symbols.now }
    requires room { Room 0 from nodes.old }
    ensures { ReadsTo 0 Fields IsFields of_fields (the_fields ∷ []) from.entry nodes.old nodes.new result }
{
    let m = mode(from, nodes)?;
    from.expect(m.next, Symbol::Name)?;
    let mut at = put(nodes, m.used, Node::Field(m.root, m.next), m.next + 1);
    while from.peek(at.next) == Symbol::Comma {
        at = further(from, nodes, at)?;
    }
    Ok(at)
}

/// An initial value with its sign there.
fn signed(from: Spot<'_>, nodes: &mut [Node]) -> Result<Parsed, Fault>
    requires sign { among (PLUS ∷ MINUS ∷ []) (slice_index_or from.symbols.now from.next STOP) ≡ true }
    requires there { from.next < length from.symbols.now }
    requires room { Room 0 from nodes.old }
    ensures { ReadsTo 0 Value IsValue of_value (a_value ∷ []) from.entry nodes.old nodes.new result }
{
    from.expect(from.next + 1, Symbol::Integer)?;
    let number = if from.peek(from.next) == Symbol::Plus {
        Node::Signed(from.next, from.next + 1)
    } else {
        Node::MinusSigned(from.next, from.next + 1)
    };
    Ok(put(nodes, from.used, number, from.next + 2))
}

/// A list of initial values, its bracket being there.
#[cycle(initials)]
fn list(from: Spot<'_>, nodes: &mut [Node]) -> Result<Parsed, Fault>
    requires opening { slice_index_or from.symbols.now from.next STOP ≡ LEFT }
    requires there { from.next < length from.symbols.now }
    requires room { Room 0 from nodes.old }
    ensures { ReadsTo 0 Value IsValue of_value (a_value ∷ []) from.entry nodes.old nodes.new result }
{
    let inside = from.inside(from.next)?;
    if from.peek(from.next + 1) == Symbol::Right {
        return Ok(put(nodes, from.used, Node::EmptyList(from.next), from.next + 2));
    }
    let v = values(inside, nodes)?;
    from.expect(v.next, Symbol::Right)?;
    Ok(put(nodes, v.used, Node::List(from.next, v.root), v.next + 1))
}

/// An initial value in a data brick.
#[cycle(initials)]
fn value(from: Spot<'_>, nodes: &mut [Node]) -> Result<Parsed, Fault>
    requires within { from.next ≤ length from.symbols.now }
    requires room { Room 0 from nodes.old }
    ensures { ReadsTo 0 Value IsValue of_value (a_value ∷ []) from.entry nodes.old nodes.new result }
{
    match from.peek(from.next) {
        Symbol::Integer => Ok(put(nodes, from.used, Node::Constant(from.next), from.next + 1)),
        Symbol::Name => Ok(put(nodes, from.used, Node::Identifier(from.next), from.next + 1)),
        Symbol::Text => Ok(put(nodes, from.used, Node::Literal(from.next), from.next + 1)),
        Symbol::Plus | Symbol::Minus => signed(from, nodes),
        Symbol::Left => list(from, nodes),
        _ => Err(Fault::Syntax(from.next)),
    }
}

/// A value of a list, and how often it stands.
#[cycle(initials)]
fn entry(from: Spot<'_>, nodes: &mut [Node]) -> Result<Parsed, Fault>
    requires within { from.next ≤ length from.symbols.now }
    requires room { Room 0 from nodes.old }
    ensures { ReadsTo 0 Entry IsEntry of_entry (each entries ∷ []) from.entry nodes.old nodes.new result }
{
    let v = value(from, nodes)?;
    if from.peek(v.next) != Symbol::Left {
        return Ok(v);
    }
    let _ = from.deeper(v.next)?;
    from.expect(v.next + 1, Symbol::Integer)?;
    from.expect(v.next + 2, Symbol::Right)?;
    Ok(put(
        nodes,
        v.used,
        Node::Repeated(v.root, v.next, v.next + 1),
        v.next + 3,
    ))
}

// Not `read_list`: tried, and a cycle through a trait leaves its proof to be written by hand.
/// Values of a list, separated by commas.
#[cycle(initials)]
fn values(from: Spot<'_>, nodes: &mut [Node]) -> Result<Parsed, Fault>
    requires within { from.next ≤ length from.symbols.now }
    requires room { Room 0 from nodes.old }
    ensures { ReadsTo 0 Values IsValues of_values (all entries ∷ []) from.entry nodes.old nodes.new result }
{
    let mut at = entry(from, nodes)?;
    while from.peek(at.next) == Symbol::Comma {
        let e = entry(from.past(at), nodes)?;
        at = put(nodes, e.used, Node::Also(at.root, e.root), e.next);
    }
    Ok(at)
}

/// Whether a name that shares an initial value is there.
fn shares(from: Spot<'_>, i: usize) -> bool
    ensures { Says result (Shares from.entry.symbols.now i) }
{
    from.peek(i) == Symbol::Name && from.peek(i + 1) == Symbol::Becomes
}

// Not `read_list`: ':=' joins the names, and the last is told by what follows two terminals on.
/// The names that share an initial value, the first being there.
fn shared(from: Spot<'_>, nodes: &mut [Node]) -> Parsed
    requires first { Shares from.symbols.now from.next }
    requires room { Room 0 from nodes.old }
    ensures { MadeFrom 0 (Many ℕ) (IsMany IsName) of_shared (λ d. NamesWay) from.entry nodes.old nodes.new result × (Shares from.entry.symbols.now result.next → ⊥) × Fewer from.entry.next from.entry.used result }
{
    let mut at = put(nodes, from.used, Node::Name(from.next), from.next + 2);
    while shares(from, at.next) {
        let name = put(nodes, at.used, Node::Name(at.next), at.next + 1);
        at = put(
            nodes,
            name.used,
            Node::Also(at.root, name.root),
            at.next + 2,
        );
    }
    at
}

/// How names are declared.
pub trait Declares: Copy {
    ghost sort: { Sort };

    /// Reads a declared name, with what follows it.
    fn declared(self, from: Spot<'_>, nodes: &mut [Node]) -> Result<Parsed, Fault>
        requires within { from.next ≤ length from.symbols.now }
        requires room { Room 0 from nodes.old }
        ensures { ReadsTo 0 (Declared sort) (IsDeclared sort) (of_declared sort) (each (declareds sort) ∷ []) from.entry nodes.old nodes.new result };
}

/// Names alone: what they name is described.
#[derive(Clone, Copy)]
pub struct Described;

impl Declares for Described {
    ghost sort = { unset };

    fn declared(self, from: Spot<'_>, nodes: &mut [Node]) -> Result<Parsed, Fault> {
        bare_name(from, nodes)
    }
}

/// What may stand behind `:=` where a name is declared.
trait Initial: Copy {
    ghost setting: { Setting };

    /// Reads an initial value.
    fn value(self, from: Spot<'_>, nodes: &mut [Node]) -> Result<Parsed, Fault>
        requires within { from.next ≤ length from.symbols.now }
        requires room { Room 0 from nodes.old }
        ensures { ReadsTo 0 (InitialTree setting) (IsInitial setting) (of_initial setting) (goal_of setting ∷ []) from.entry nodes.old nodes.new result };
}

/// Names in a data brick, with initial values or without.
#[derive(Clone, Copy)]
pub struct Stored;

impl Initial for Stored {
    ghost setting = { stored };

    fn value(self, from: Spot<'_>, nodes: &mut [Node]) -> Result<Parsed, Fault> {
        value(from, nodes)
    }
}

impl Declares for Stored {
    ghost sort = { set_sort stored };

    fn declared(self, from: Spot<'_>, nodes: &mut [Node]) -> Result<Parsed, Fault> {
        initialized(self, from, nodes)
    }
}

/// Locals of a body, with initial values or without.
#[derive(Clone, Copy)]
pub struct InBlock;

impl Initial for InBlock {
    ghost setting = { inblock };

    fn value(self, from: Spot<'_>, nodes: &mut [Node]) -> Result<Parsed, Fault> {
        expr(from, nodes)
    }
}

impl Declares for InBlock {
    ghost sort = { set_sort inblock };

    fn declared(self, from: Spot<'_>, nodes: &mut [Node]) -> Result<Parsed, Fault> {
        initialized(self, from, nodes)
    }
}

/// A declared name, with its initial value.
fn initialized<V: Initial>(of: V, from: Spot<'_>, nodes: &mut [Node]) -> Result<Parsed, Fault>
    requires within { from.next ≤ length from.symbols.now }
    requires room { Room 0 from nodes.old }
    ensures { ReadsTo 0 (Init (InitialTree V.setting)) (IsInit (IsInitial V.setting)) (of_init (of_initial V.setting)) (each (declareds (set_sort V.setting)) ∷ []) from.entry nodes.old nodes.new result }
{
    from.expect(from.next, Symbol::Name)?;
    if from.peek(from.next + 1) != Symbol::Becomes {
        return Ok(put(nodes, from.used, Node::Plain(from.next), from.next + 1));
    }
    let n = shared(from, nodes);
    let v = of.value(from.after(n), nodes)?;
    Ok(put(nodes, v.used, Node::Given(n.root, v.root), v.next))
}

/// A name that is described or declared without a value.
fn bare_name(from: Spot<'_>, nodes: &mut [Node]) -> Result<Parsed, Fault>
    requires within { from.next ≤ length from.symbols.now }
    requires room { Room 0 from nodes.old }
    ensures { ReadsTo 0 ℕ IsName of_name (each (declareds unset) ∷ []) from.entry nodes.old nodes.new result }
{
    from.expect(from.next, Symbol::Name)?;
    Ok(put(nodes, from.used, Node::Name(from.next), from.next + 1))
}

/// Names as they are declared, with commas between them.
#[derive(Clone, Copy)]
struct NameList<D>(D);

impl<D: Declares> Entries for NameList<D> {
    ghost kind = { λ a. declareds D.sort };

    ghost slack = { 0 };

    ghost goal = { λ a. all (declareds D.sort) };

    fn separator(self) -> Symbol {
        Symbol::Comma
    }

    fn entry(self, from: Spot<'_>, nodes: &mut [Node]) -> Result<Parsed, Fault> {
        self.0.declared(from, nodes)
    }

    ghost small = { Prim.search rules };

    ghost begins = { λ a. declareds_begin D.sort };
}

/// Names as they are declared, separated by commas.
pub fn names<D: Declares>(of: D, from: Spot<'_>, nodes: &mut [Node]) -> Result<Parsed, Fault>
    requires within { from.next ≤ length from.symbols.now }
    requires room { Room 0 from nodes.old }
    ensures { ReadsTo 0 (Listing D.sort) (IsListing D.sort) (of_listing D.sort) (all (declareds D.sort) ∷ []) from.entry nodes.old nodes.new result }
{
    read_list(NameList(of), from, nodes)
}
