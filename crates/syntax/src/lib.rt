//! The syntax of a text: from its items to the tree of the module, or the decline.
#![tactic(auto)]

ghost use Rattle.std.specs.Prelude.{◌≡◌, ◌+◌, length, replicate};
ghost use Rattle.lexer.specs.Tables.{items_of};
ghost use Rattle.nodes.specs.Nodes.{blank_node};
ghost use Rattle.nodes.specs.declared.Fault.{Fault};
ghost use Rattle.syntax.specs.Parsing.{place_of, Parses, Reads};
ghost use Rattle.syntax.specs.Declining.{declined};

use answers::{Decline, Place};
use grammar::Symbol;
use lexer::cutter::cut;
use lexer::table::{ItemTable, MAX_ITEMS};
use modules::read_module;
use nodes::{Fault, Node};
use symbols::Entry;
use terminals::classify;

/// How many nodes the tree of a module can have: two for each of its items, and one.
pub const MAX_NODES: usize = 2 * MAX_ITEMS + 1;

/// The nodes of a module's tree, each behind those that it names.
// Of a fixed size, and no `ArrayVec`: the library has no heap, and reading says in the spot how many are used.
#[derive(Clone, Copy)]
pub struct NodeTable {
    pub nodes: [Node; MAX_NODES],
}

impl NodeTable {
    /// A table in which nothing stands yet.
    pub fn new() -> NodeTable
        ensures { result.nodes ≡ replicate 8193 blank_node }
    {
        NodeTable {
            nodes: [Node::Integer(0); MAX_NODES],
        }
    }
}

/// The place of the item with the number i; behind the last one, the end of the text.
pub fn item_place(items: &[Entry], end: Place, i: usize) -> Place
    ensures { result ≡ place_of items.now end i }
{
    items.get(i).map_or(end, |entry| entry.start)
}

/// The decline that tells of a fault.
fn decline(fault: Fault, items: &[Entry], end: Place) -> Decline
    ensures { result ≡ declined items.now end fault }
{
    match fault {
        Fault::Syntax(i) => Decline::Unexpected(item_place(items, end, i)),
        Fault::Deep(i) => Decline::TooDeep(item_place(items, end, i)),
    }
}

/// The tree of the module whose items stand in the table, in a text that ends at `end`: the node that stands for it, or the decline.
pub fn parse(items: &ItemTable, end: Place, tree: &mut NodeTable) -> Result<usize, Decline>
    ensures { Parses (items_of items.now) end tree.new.nodes result }
{
    let items = items.items();
    // An array with a length beside it: `classify` fills a slice that is lent, and no `ArrayVec` can be lent with room behind its items.
    let mut terminals = [Symbol::Stop; MAX_ITEMS];
    let length = classify(items, &mut terminals);
    // No `map_err`: an edit that answers another node would add a call, and be refused since the proof names none.
    match read_module(&terminals[..length], &mut tree.nodes) {
        Ok(root) => Ok(root),
        Err(fault) => Err(decline(fault, items, end)),
    }
}

/// Cuts the text into its items and reads the tree of the module that they are: the node that stands for it, or the decline.
pub fn read(text: &[u8], items: &mut ItemTable, tree: &mut NodeTable) -> Result<usize, Decline>
    ensures { Reads text.now (items_of items.new) tree.new.nodes result }
{
    cut(text, items)?;
    // Not the lexer's `place`, which is its own, since it asks for a small number and no public function may. `as`: a text that was cut has at
    // most 32,768 bytes, so an error of `try_from` would never come.
    let end = Place {
        offset: text.len() as u16,
    };
    parse(items, end, tree)
}
