//! The nodes of a module's tree, and reading terminals.
#![tactic(auto)]

pub mod lists;

ghost use Rattle.nodes.specs.declared.Fault.TheVariants.{Syntax, Deep};
ghost use Rattle.std.specs.Prelude.{MatchResult, ◌-◌, ◌+◌, ◌≡◌, ◌<◌, ◌≤◌, length, ◌≢◌, slice_index_or, slice_set};
ghost use Rattle.grammar.specs.Symbols.{STOP};
ghost use Rattle.nodes.specs.Nodes.{blank_node};

use grammar::Symbol;

/// A node of a tree. The table of nodes stands for a tree: each node names the nodes below it by their index, which is lower, and the items
/// that it keeps by their number. Lists are linked backwards: `Also` is a list and one more.
// A table and no boxes: the library has no heap, and the table is lent with a fixed size.
#[derive(Clone, Copy)]
pub enum Node {
    // expressions: an item; a list or a variable first, then its bracket or name, then what is inside
    Integer(usize),
    Text(usize),
    Name(usize),
    Element(usize, usize, usize),
    Component(usize, usize),
    Call(usize, usize),
    CallOn(usize, usize, usize),
    Paren(usize, usize),
    Monadic(Symbol, usize, usize),
    Dyadic(Symbol, usize, usize, usize),
    Compare(Symbol, usize, usize),
    // a list and one more; nothing, where something may be left out
    Also(usize, usize),
    Absent,
    // modes, components and parameters
    Int,
    Byte(usize),
    RefInt,
    RefByte(usize),
    RefRecord(usize),
    RefArray(usize),
    RefArrayBrackets(usize, usize),
    Records(usize),
    Field(usize, usize),
    AlsoField(usize, usize),
    NextField(usize, usize, usize),
    // a declared name without a value; names and their value; initial values
    Plain(usize),
    Given(usize, usize),
    Constant(usize),
    Signed(usize, usize),
    MinusSigned(usize, usize),
    Identifier(usize),
    Literal(usize),
    EmptyList(usize),
    List(usize, usize),
    Repeated(usize, usize, usize),
    // declarations
    Nothing,
    Variables(usize, usize),
    Arrays(usize, usize, usize, usize),
    Structures(usize, usize),
    Local(usize, usize),
    NoLocals,
    Locals(usize, usize),
    // statements
    Val(usize, usize),
    Body(usize, usize),
    Dummy,
    Block(usize),
    Assign(usize, usize),
    Invoke(usize, usize),
    InvokeOn(usize, usize, usize),
    Branch(usize),
    BranchElse(usize, usize),
    Repeat(usize, usize),
    Loop(usize, usize),
    Return(usize),
    ReturnWith(usize, usize, usize),
    When(usize, usize),
    // bricks and module items; a heading is name, bracket, parameters and result; a procedure is heading, body and ENDPROC
    Store(usize, usize),
    Heading(usize, usize, usize, usize),
    Procedure(usize, usize, usize),
    Blank,
    ExternalProcs(usize, usize, usize, usize),
    ExternalStore(usize, usize),
    RecordMode(usize, usize, usize),
    Own(usize),
    Ent(usize),
}

/// What was read: the number of the item behind it, how many nodes are used, and the node that stands for it.
#[derive(Clone, Copy)]
pub struct Parsed {
    pub next: usize,
    pub used: usize,
    pub root: usize,
}

/// Why nothing was read: the number of the first item that can follow in no module, or of the first that nests too deep.
#[derive(Clone, Copy, PartialEq, Eq, Debug)]
pub enum Fault {
    Syntax(usize),
    Deep(usize),
}

/// Where reading stands: the terminals of the module, the number of the next one, how much deeper it may still go (a bracket, BLOCK, IF and
/// DO each go one deeper), and how many nodes are used.
// That `next` is within the terminals, or that a certain one is there, is a clause, and no ghost field: of a struct with one, Rattle takes no
// literal with `..from` (tried), and each spot that is made would name all its fields.
// The number of used nodes goes with the spot, and not with the table: a form may be read again from an earlier spot, and then its nodes
// are overwritten with nothing to take back.
#[derive(Clone, Copy)]
pub struct Spot<'s> {
    pub symbols: &'s [Symbol],
    pub next: usize,
    pub depth: usize,
    pub used: usize,
}

/// The node with the index k; behind the last, one that says nothing.
pub fn node_at(nodes: &[Node], k: usize) -> Node
    ensures { result ≡ slice_index_or nodes.now k blank_node }
{
    nodes.get(k).copied().unwrap_or(Node::Integer(0))
}

/// Writes a node behind the used ones. It stands for what ends before the item `next`.
pub fn put(nodes: &mut [Node], used: usize, node: Node, next: usize) -> Parsed
    requires { used < length nodes.old }
    ensures written { nodes.new ≡ slice_set nodes.old used node }
    ensures is { result ≡ record { next = next; used = used + 1; root = used } }
{
    nodes[used] = node;
    Parsed {
        next,
        used: used + 1,
        root: used,
    }
}

impl<'s> Spot<'s> {
    /// The terminal with the number i; behind the last, one that stands in no module.
    pub fn peek(self, i: usize) -> Symbol
        ensures is { result ≡ slice_index_or self.entry.symbols.now i STOP }
        ensures there { (result ≢ STOP) → i < length self.entry.symbols.now }
    {
        self.symbols.get(i).copied().unwrap_or(Symbol::Stop)
    }

    /// Whether the terminal with the number i is the one that must come; the fault where it isn't.
    pub fn expect(self, i: usize, wanted: Symbol) -> Result<(), Fault>
        ensures { MatchResult result (λ _. slice_index_or self.entry.symbols.now i STOP ≡ wanted) (λ f. (f ≡ Syntax i) × (slice_index_or self.entry.symbols.now i STOP ≢ wanted)) }
    {
        if self.peek(i) != wanted {
            return Err(Fault::Syntax(i));
        }
        Ok(())
    }

    /// The spot behind what was read.
    pub fn after(self, read: Parsed) -> Spot<'s>
        ensures { result ≡ record { symbols = self.entry.symbols; next = read.next; depth = self.entry.depth; used = read.used } }
    {
        Spot {
            next: read.next,
            used: read.used,
            ..self
        }
    }

    /// The spot behind what was read and the terminal that follows it.
    pub fn past(self, read: Parsed) -> Spot<'s>
        requires { read.next < length self.symbols.now }
        ensures is { result ≡ record { symbols = self.entry.symbols; next = read.next + 1; depth = self.entry.depth; used = read.used } }
        ensures within { result.next ≤ length result.symbols.now }
    {
        Spot {
            next: read.next + 1,
            used: read.used,
            ..self
        }
    }

    /// How many may still open behind the terminal with the number i, which opens; the fault where none may.
    pub fn deeper(self, i: usize) -> Result<usize, Fault>
        ensures { MatchResult result (λ d. (d ≡ self.entry.depth - 1) × (0 < self.entry.depth)) (λ f. (f ≡ Deep i) × (self.entry.depth ≡ 0)) }
    {
        self.depth.checked_sub(1).ok_or(Fault::Deep(i))
    }

    /// The spot behind the terminal with the number i, which opens, one deeper; the fault where none may open.
    pub fn inside(self, i: usize) -> Result<Spot<'s>, Fault>
        requires { i < length self.symbols.now }
        ensures { MatchResult result (λ a. (a ≡ record { symbols = self.entry.symbols; next = i + 1; depth = self.entry.depth - 1; used = self.entry.used }) × (0 < self.entry.depth)) (λ f. (f ≡ Deep i) × (self.entry.depth ≡ 0)) }
    {
        let depth = self.deeper(i)?;
        Ok(Spot {
            next: i + 1,
            depth,
            ..self
        })
    }
}
