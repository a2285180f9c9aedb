//! Reading expressions and conditions into nodes, by recursive descent.
#![tactic(auto)]

ghost use Rattle.std.specs.List.{prefix_len};
ghost use Rattle.std.specs.Prelude.{◌≡◌, ◌+◌, ◌-◌, ◌*◌, ◌<◌, ◌≤◌, [], ◌∷◌, length, MatchResult, slice_index_or};
ghost use Rattle.nodes.specs.Made.{Made, MadeFrom, Way, Refused, LevelWay, LevelRefused, FormWay, FormRefused, Opening, PartsWay, VariableWay, VariableRefused, Counted, ArgsWay, rank as rank_of, monadics, comparators, Room, ReadsTo, Reads, ReadsFewer};
ghost use Rattle.nodes.specs.Nodes.{IsExpr, IsExprs, IsPrimary, IsTerm, IsVariable, IsComparison, IsSubcondition, IsCondition};
ghost use Rattle.grammar.specs.Symbols.{among, STOP, LEFT, RIGHT, NAME};
ghost use Rattle.grammar.specs.Trees.{Expr, Exprs, Primary, Term, Variable, token, key, of_expr, of_exprs, of_primary, of_term, of_variable, Comparison, Subcondition, Condition, of_comparison, of_subcondition, of_condition};
ghost use Rattle.grammar.specs.Machine.{an_expr, a_primary, a_term, tok, each, all, ands, ors};
ghost use Rattle.std.proofs.Common.{rules};
ghost use Rattle.nodes.proofs.Repeat.{ors_begin, conditions_begin};

use grammar::Symbol;
use nodes::lists::{Entries, read_list};
use nodes::{Fault, Node, Parsed, Spot, put};

/// How loosely an operator binds; 5, above them all, for any other terminal.
// No Option: the rules compare ranks as numbers.
fn rank(c: Symbol) -> usize
    ensures { result ≡ rank_of c }
{
    match c {
        Symbol::Star | Symbol::Divide | Symbol::Mod => 0,
        Symbol::Land => 1,
        Symbol::Lor => 2,
        Symbol::Nev => 3,
        Symbol::Plus | Symbol::Minus => 4,
        _ => 5,
    }
}

fn monadic(c: Symbol) -> bool
    ensures { result ≡ among monadics c }
{
    matches!(
        c,
        Symbol::Plus | Symbol::Minus | Symbol::Abs | Symbol::Not | Symbol::Byte | Symbol::Length
    )
}

/// How many monadic operators the terminals begin with.
fn monads(symbols: &[Symbol]) -> usize
    ensures is { result ≡ prefix_len (among monadics) symbols.now }
    ensures fits { result ≤ length symbols.now }
{
    symbols.iter().take_while(|c| monadic(**c)).count()
}

/// '(' expr ')', the bracket being there
#[cycle(expressions)]
pub fn bracketed(from: Spot<'_>, nodes: &mut [Node]) -> Result<Parsed, Fault>
    requires opening { slice_index_or from.symbols.now from.next STOP ≡ LEFT }
    requires within { from.next < length from.symbols.now }
    requires room { Room 0 from nodes.old }
    ensures { ReadsFewer 0 (Expr 5) IsExpr (λ e rest. token LEFT from.entry.next ∷ of_expr e (key RIGHT ∷ rest)) (Way (tok LEFT ∷ an_expr ∷ tok RIGHT ∷ [])) (Refused (tok LEFT ∷ an_expr ∷ tok RIGHT ∷ [])) from.entry nodes.old nodes.new result }
{
    let inside = from.inside(from.next)?;
    let e = expr(inside, nodes)?;
    from.expect(e.next, Symbol::Right)?;
    Ok(Parsed {
        next: e.next + 1,
        ..e
    })
}

/// The further parts of a variable whose name is there, and which was read up to `start`.
#[cycle(expressions)]
pub fn variable(from: Spot<'_>, nodes: &mut [Node], start: Parsed) -> Result<Parsed, Fault>
    requires room { Room 0 from nodes.old }
    requires counted { Counted from.symbols.now from.next from.used start }
    ensures { (b : Opening) → MadeFrom 0 Variable IsVariable of_variable (PartsWay b) from.entry nodes.old nodes.old start → Reads 0 Variable IsVariable of_variable (VariableWay b) (VariableRefused b) from.entry nodes.old nodes.new result }
{
    let mut at = start;
    loop {
        match from.peek(at.next) {
            Symbol::Left => {
                let e = bracketed(from.after(at), nodes)?;
                at = put(
                    nodes,
                    e.used,
                    Node::Element(at.root, at.next, e.root),
                    e.next,
                );
            }
            Symbol::Dot => {
                from.expect(at.next + 1, Symbol::Name)?;
                at = put(
                    nodes,
                    at.used,
                    Node::Component(at.root, at.next + 1),
                    at.next + 2,
                );
            }
            _ => return Ok(at),
        }
    }
}

// Not `read_list`, here and in `level`: the first expression is read before it is known that a list begins; and a cycle of functions through
// a trait leaves its whole proof to be written by hand (tried at the values of a list).
// That one may open is asked of the caller, which has the fault where none may.
/// The further expressions of a call whose name is there, its first expression having been read up to `at`, where a comma is.
#[cycle(expressions)]
fn calls(from: Spot<'_>, nodes: &mut [Node], at: Parsed) -> Result<Parsed, Fault>
    requires deep { 0 < from.depth }
    requires named { slice_index_or from.symbols.now from.next STOP ≡ NAME }
    requires opening { slice_index_or from.symbols.now (from.next + 1) STOP ≡ LEFT }
    requires within { from.next + 1 < length from.symbols.now }
    requires room { Room 0 from nodes.old }
    requires begun { Made 0 Exprs IsExprs of_exprs (ArgsWay from.depth from.symbols.now from.next) from.symbols.now (from.next + 2) (from.used + 1) nodes.old nodes.old at }
    ensures { Reads 0 Primary IsPrimary of_primary FormWay FormRefused from.entry nodes.old nodes.new result }
{
    let mut at = at;
    while from.peek(at.next) == Symbol::Comma {
        let further = Spot {
            next: at.next + 1,
            depth: from.depth - 1,
            used: at.used,
            ..from
        };
        let e = expr(further, nodes)?;
        at = put(nodes, e.used, Node::Also(at.root, e.root), e.next);
    }
    from.expect(at.next, Symbol::Right)?;
    Ok(put(
        nodes,
        at.used,
        Node::CallOn(from.next, from.next + 1, at.root),
        at.next + 1,
    ))
}

/// A form whose name is there, a bracket behind it.
#[cycle(expressions)]
fn applied(from: Spot<'_>, nodes: &mut [Node]) -> Result<Parsed, Fault>
    requires named { slice_index_or from.symbols.now from.next STOP ≡ NAME }
    requires opening { slice_index_or from.symbols.now (from.next + 1) STOP ≡ LEFT }
    requires within { from.next + 1 < length from.symbols.now }
    requires room { Room 0 from nodes.old }
    ensures { Reads 0 Primary IsPrimary of_primary FormWay FormRefused from.entry nodes.old nodes.new result }
{
    let inside = from.inside(from.next + 1)?;
    if from.peek(from.next + 2) == Symbol::Right {
        return Ok(put(
            nodes,
            from.used,
            Node::Call(from.next, from.next + 1),
            from.next + 3,
        ));
    }
    let name = put(nodes, from.used, Node::Name(from.next), from.next + 1);
    let first = Spot {
        used: name.used,
        ..inside
    };
    let e = expr(first, nodes)?;
    match from.peek(e.next) {
        Symbol::Comma => calls(from, nodes, e),
        Symbol::Right => {
            let at = put(
                nodes,
                e.used,
                Node::Element(name.root, from.next + 1, e.root),
                e.next + 1,
            );
            variable(from, nodes, at)
        }
        _ => Err(Fault::Syntax(e.next)),
    }
}

/// A form whose name is there.
#[cycle(expressions)]
pub fn form(from: Spot<'_>, nodes: &mut [Node]) -> Result<Parsed, Fault>
    requires named { slice_index_or from.symbols.now from.next STOP ≡ NAME }
    requires within { from.next < length from.symbols.now }
    requires room { Room 0 from nodes.old }
    ensures { Reads 0 Primary IsPrimary of_primary FormWay FormRefused from.entry nodes.old nodes.new result }
{
    if from.peek(from.next + 1) == Symbol::Left {
        return applied(from, nodes);
    }
    let at = put(nodes, from.used, Node::Name(from.next), from.next + 1);
    variable(from, nodes, at)
}

#[cycle(expressions)]
fn primary(from: Spot<'_>, nodes: &mut [Node]) -> Result<Parsed, Fault>
    requires within { from.next ≤ length from.symbols.now }
    requires room { Room 0 from nodes.old }
    ensures { ReadsTo 0 Primary IsPrimary of_primary (a_primary ∷ []) from.entry nodes.old nodes.new result }
{
    match from.peek(from.next) {
        Symbol::Integer => Ok(put(nodes, from.used, Node::Integer(from.next), from.next + 1)),
        Symbol::Text => Ok(put(nodes, from.used, Node::Text(from.next), from.next + 1)),
        Symbol::Name => form(from, nodes),
        Symbol::Left => {
            let e = bracketed(from, nodes)?;
            Ok(put(nodes, e.used, Node::Paren(from.next, e.root), e.next))
        }
        _ => Err(Fault::Syntax(from.next)),
    }
}

#[cycle(expressions)]
fn term(from: Spot<'_>, nodes: &mut [Node]) -> Result<Parsed, Fault>
    requires within { from.next ≤ length from.symbols.now }
    requires room { Room 0 from nodes.old }
    ensures { ReadsTo 0 Term IsTerm of_term (a_term ∷ []) from.entry nodes.old nodes.new result }
{
    let end = from.next + monads(&from.symbols[from.next..]);
    let mut at = primary(Spot { next: end, ..from }, nodes)?;
    for k in (from.next..end).rev() {
        at = put(
            nodes,
            at.used,
            Node::Monadic(from.peek(k), k, at.root),
            at.next,
        );
    }
    Ok(at)
}

/// An expression of the level n.
#[cycle(expressions)]
fn level(from: Spot<'_>, nodes: &mut [Node], n: usize) -> Result<Parsed, Fault>
    requires level { n ≤ 5 }
    requires within { from.next ≤ length from.symbols.now }
    requires room { Room 0 from nodes.old }
    ensures { Reads 0 (Expr n) IsExpr of_expr (LevelWay n) LevelRefused from.entry nodes.old nodes.new result }
{
    if n == 0 {
        return term(from, nodes);
    }
    let mut at = level(from, nodes, n - 1)?;
    while rank(from.peek(at.next)) == n - 1 {
        let e = level(from.past(at), nodes, n - 1)?;
        at = put(
            nodes,
            e.used,
            Node::Dyadic(from.peek(at.next), at.next, at.root, e.root),
            e.next,
        );
    }
    Ok(at)
}

#[cycle(expressions)]
pub fn expr(from: Spot<'_>, nodes: &mut [Node]) -> Result<Parsed, Fault>
    requires within { from.next ≤ length from.symbols.now }
    requires room { Room 0 from nodes.old }
    ensures { ReadsTo 0 (Expr 5) IsExpr of_expr (an_expr ∷ []) from.entry nodes.old nodes.new result }
{
    level(from, nodes, 5)
}

fn comparator(c: Symbol) -> bool
    ensures { result ≡ among comparators c }
{
    matches!(
        c,
        Symbol::Equal
            | Symbol::Hash
            | Symbol::Less
            | Symbol::AtMost
            | Symbol::More
            | Symbol::AtLeast
            | Symbol::Is
            | Symbol::Isnt
    )
}

fn comparison(from: Spot<'_>, nodes: &mut [Node]) -> Result<Parsed, Fault>
    requires within { from.next ≤ length from.symbols.now }
    requires room { Room 0 from nodes.old }
    ensures { ReadsTo 0 Comparison IsComparison of_comparison (each ands ∷ []) from.entry nodes.old nodes.new result }
{
    let a = expr(from, nodes)?;
    let c = from.peek(a.next);
    if !comparator(c) {
        return Err(Fault::Syntax(a.next));
    }
    let b = expr(from.past(a), nodes)?;
    Ok(put(nodes, b.used, Node::Compare(c, a.root, b.root), b.next))
}

/// Comparisons with AND between them.
#[derive(Clone, Copy)]
struct Comparisons;

impl Entries for Comparisons {
    ghost kind = { λ a. ands };

    ghost slack = { 0 };

    ghost goal = { λ a. each ors };

    fn separator(self) -> Symbol {
        Symbol::And
    }

    fn entry(self, from: Spot<'_>, nodes: &mut [Node]) -> Result<Parsed, Fault> {
        comparison(from, nodes)
    }

    ghost small = { Prim.search rules };

    ghost begins = { λ a. ors_begin };
}

/// Subconditions with OR between them.
#[derive(Clone, Copy)]
struct Subconditions;

impl Entries for Subconditions {
    ghost kind = { λ a. ors };

    ghost slack = { 0 };

    ghost goal = { λ a. all ors };

    fn separator(self) -> Symbol {
        Symbol::Or
    }

    fn entry(self, from: Spot<'_>, nodes: &mut [Node]) -> Result<Parsed, Fault> {
        read_list(Comparisons, from, nodes)
    }

    ghost small = { Prim.search rules };

    ghost begins = { λ a. conditions_begin };
}

/// Subconditions, separated by OR.
pub fn condition(from: Spot<'_>, nodes: &mut [Node]) -> Result<Parsed, Fault>
    requires within { from.next ≤ length from.symbols.now }
    requires room { Room 0 from nodes.old }
    ensures { ReadsTo 0 Condition IsCondition of_condition (all ors ∷ []) from.entry nodes.old nodes.new result }
{
    read_list(Subconditions, from, nodes)
}
