//! The table of a text's items.
ghost use Rattle.std.specs.Prelude.{◌≡◌, ◌-◌, ◌<◌, ◌≤◌, [], ◌∷◌, ◌++◌, length, take, drop, replicate, Some, OnOk, OnErr, IfErr};
ghost use Rattle.scanner.specs.Seen.{bytes_of, symbol_of};
ghost use Rattle.symbols.specs.Cut.{covered, entry as entry_of, max_items};
ghost use Rattle.symbols.specs.declared.Symbol.TheVariants.{Name};

use answers::{Decline, Place};
use scanner::item::Item;
use symbols::{Entry, Symbol};

/// How many items a text may have, comments not counted.
pub const MAX_ITEMS: usize = 4096;

/// The items of a text, in their order.
// No `ArrayVec`: it hides what stands behind its items, and `new` has always promised blanks there, which may not go.
#[derive(Clone, Copy)]
pub struct ItemTable {
    pub entries: [Entry; MAX_ITEMS],
    count: usize,
    ghost few: { count ≤ max_items },
}

impl ItemTable {
    ghost use Rattle.lexer.specs.Tables.{items_of};

    /// A table in which nothing stands yet.
    pub fn new() -> ItemTable
        ensures empty { items_of result ≡ [] }
        ensures blank { result.entries ≡ replicate max_items (entry_of Name 0 0) }
    {
        let blank = Entry {
            symbol: Symbol::Name,
            start: Place { offset: 0 },
            end: Place { offset: 0 },
        };
        ItemTable {
            entries: [blank; MAX_ITEMS],
            count: 0,
        }
    }

    /// The items that stand in the table.
    pub fn items(&self) -> &[Entry]
        ensures is { result.now ≡ items_of self.now }
        ensures few { length result.now ≤ max_items }
    {
        &self.entries[..self.count]
    }

    /// The first `count` entries, or all that there is room for. What stands behind the items is free.
    pub fn first(&self, count: usize) -> &[Entry]
        ensures is { result.now ≡ take count self.now.entries }
        ensures few { length result.now ≤ max_items }
    {
        &self.entries[..count.min(MAX_ITEMS)]
    }

    /// Takes all items out of the table.
    pub fn clear(&mut self)
        ensures { items_of self.new ≡ [] }
    {
        self.count = 0;
    }

    /// Puts an item behind the others, or declines it where the table is full.
    pub fn push(&mut self, entry: Entry) -> Result<(), Decline>
        ensures put { OnOk result (items_of self.new ≡ items_of self.old ++ (entry ∷ [])) }
        ensures full { OnErr result ((length (items_of self.old) ≡ max_items) × (items_of self.new ≡ items_of self.old)) }
        ensures decline { IfErr result (λ d. d ≡ Decline.TooManyItems entry.start) }
    {
        if self.count == MAX_ITEMS {
            return Err(Decline::TooManyItems(entry.start));
        }
        // The count is read once: a write to the entries would have it read again.
        let count = self.count + 1;
        self.entries[self.count] = entry;
        self.count = count;
        Ok(())
    }
}

/// What stands in the text from one place to another.
fn part(text: &[u8], start: usize, end: usize) -> &[u8]
    ensures { result.now ≡ take (end - start) (drop start text.now) }
{
    let rest = text.get(start..).unwrap_or_default();
    rest.get(..end.saturating_sub(start)).unwrap_or(rest)
}

/// The item of an entry: its symbol, and the part of the text that it covers.
pub fn item_of(text: &[u8], entry: Entry) -> Item<'_>
    ensures symbol { symbol_of result ≡ Some entry.symbol }
    ensures bytes { bytes_of result ≡ covered text.now entry }
{
    let bytes = part(text, entry.start.offset.into(), entry.end.offset.into());
    match entry.symbol {
        Symbol::Name => Item::Name(bytes),
        Symbol::Integer => Item::Integer(bytes),
        Symbol::Text => Item::Text(bytes),
        Symbol::Word(keyword) => Item::Word(keyword, bytes),
        Symbol::Mark(separator) => Item::Mark(separator, bytes),
    }
}
