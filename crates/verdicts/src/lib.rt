//! The verdict on a text: from its bytes through its items, its syntax and the static rules to the line that says it.
#![tactic(auto)]

ghost use Rattle.std.specs.Prelude.{◌≡◌, [], length, replicate};
ghost use Rattle.answers.specs.Declines.{place};
ghost use Rattle.answers.specs.Declines as declines;
ghost use Rattle.statics.specs.Refusals as refusals;
ghost use Rattle.symbols.specs.Cut.{entry, max_items};
ghost use Rattle.symbols.specs.declared.Symbol.TheVariants.{Name};
ghost use Rattle.lexer.specs.Tables.{items_of};
ghost use Rattle.nodes.specs.Nodes.{blank_node};
ghost use Rattle.checker.specs.Blanks.{blank_tables};
ghost use Rattle.verdicts.specs.Verdicts.{decline_of, OneVerdict, Verdict};
ghost use Rattle.verdicts.specs.Facts.{FactsRight};
ghost use Rattle.verdicts.specs.Lines.{JudgeOf, number_of, OneLine};
ghost use Rattle.verdicts.specs.Examples.{Examples};

use answers::{Decline, LINE_BYTES, Place};
use checker::{CheckTable, check};
use lexer::table::ItemTable;
use statics::Refusal;
use symbols::Entry;
use syntax::{MAX_NODES, NodeTable, item_place, read};
use texts::Text;

/// The memory that judging a text needs. What stands in it before changes no result, and what stands in it afterwards is left open.
#[derive(Clone, Copy)]
pub struct WorkTable {
    items: ItemTable,
    tree: NodeTable,
    tables: CheckTable,
}

impl WorkTable {
    /// A table in which nothing stands yet.
    pub fn new() -> WorkTable
        ensures items { items_of result.items ≡ [] }
        ensures entries { result.items.entries ≡ replicate max_items (entry Name 0 0) }
        ensures tree { result.tree.nodes ≡ replicate MAX_NODES blank_node }
        ensures tables { result.tables ≡ blank_tables }
    {
        WorkTable {
            items: ItemTable::new(),
            tree: NodeTable::new(),
            tables: CheckTable::new(),
        }
    }
}

/// The buffer for a line has fewer than 16 bytes.
#[derive(Clone, Copy, PartialEq, Eq, Debug)]
pub struct BufferTooShort;

impl BufferTooShort {
    /// The number of the decline.
    pub fn number(self) -> u8
        ensures { result ≡ number_of self }
    {
        19
    }
}

/// The line of an accepted text.
const ACCEPTED: &[u8] = b"accepted\n";

/// What the verdict takes an item to stand for is what the rules of items say of its bytes.
pub fn facts_right()
    ensures { FactsRight }
{}

/// Every text has exactly one verdict.
pub fn one_verdict()
    ensures { OneVerdict }
{}

/// Every text has exactly one line.
pub fn one_line()
    ensures { OneLine }
{}

/// The decline that tells what is wrong with the module whose items these are, in a text that ends at `end`.
fn declined(refusal: Refusal, items: &[Entry], end: Place) -> Decline
    ensures is { result ≡ decline_of items.now end refusal }
    ensures number { declines.number_of result ≡ refusals.number_of refusal }
{
    let place = item_place(items, end, refusal.place());
    match refusal {
        Refusal::DeclaredTwice(_) => Decline::DeclaredTwice(place),
        Refusal::WrongName(_) => Decline::WrongName(place),
        Refusal::Misfit(_) => Decline::Misfit(place),
        Refusal::NoValue(_) => Decline::NoValue(place),
        Refusal::TooManyPlaces(_) => Decline::TooManyPlaces(place),
        Refusal::TooManyLocals(_) => Decline::TooManyLocals(place),
    }
}

/// The verdict on the text: its cut into items, their syntax, and then the static rules. The promise does not speak of the table: what stands
/// in it before changes no verdict, for each text has one, and what stands in it afterwards is left open.
pub fn verdict(text: &[u8], table: &mut WorkTable) -> Result<(), Decline>
    ensures { Verdict text.now result }
{
    let root = read(text, &mut table.items, &mut table.tree)?;
    let items = table.items.items();
    // `as`: a text that was cut has at most 32,768 bytes, so an error of `try_from` would never come.
    let end = Place {
        offset: text.len() as u16,
    };
    let module = Text { bytes: text, items };
    let checked = check(module, &table.tree, root, &mut table.tables);
    checked.map_err(|refusal| declined(refusal, items, end))
}

/// Writes the verdict on the text to the front of the buffer, nothing behind it, and answers its length: `accepted`, or the line of the
/// decline, `LINE:COLUMN: NUMBER`, and a byte 10. A buffer of fewer than 16 bytes is declined and left as it is. The promise does not
/// speak of the table: what stands in it before changes no result, for each text has one line, and what stands in it afterwards is left open.
pub fn judge(text: &[u8], table: &mut WorkTable, buffer: &mut [u8]) -> Result<usize, BufferTooShort>
    ensures { JudgeOf text.now buffer.old buffer.new result }
{
    if buffer.len() < LINE_BYTES {
        return Err(BufferTooShort);
    }
    match verdict(text, table) {
        Ok(()) => {
            buffer[..ACCEPTED.len()].copy_from_slice(ACCEPTED);
            Ok(ACCEPTED.len())
        }
        Err(decline) => decline.write_line(text, buffer).ok_or(BufferTooShort),
    }
}

/// The empty text is accepted; an INT that is brought to a BYTE has its line.
pub fn examples()
    ensures { Examples }
{}
