//! An item, and what stands where there is none.
ghost use Rattle.std.specs.Prelude.{◌≡◌};
ghost use Rattle.scanner.specs.Seen.{bytes_of, kind_of, symbol_of};

use symbols::{Keyword, Separator, Symbol};

/// An item with the part of the text that it covers.
#[derive(Clone, Copy)]
pub enum Item<'t> {
    Name(&'t [u8]),
    Word(Keyword, &'t [u8]),
    Integer(&'t [u8]),
    Text(&'t [u8]),
    Mark(Separator, &'t [u8]),
    Comment(&'t [u8]),
}

impl<'t> Item<'t> {
    /// The part of the text that the item covers.
    pub fn bytes(self) -> &'t [u8]
        ensures { result.now ≡ bytes_of self.entry }
    {
        match self {
            Item::Name(bytes)
            | Item::Word(_, bytes)
            | Item::Integer(bytes)
            | Item::Text(bytes)
            | Item::Mark(_, bytes)
            | Item::Comment(bytes) => bytes,
        }
    }

    /// What its kind is called.
    // No `Display` of the item: what it covers is bytes, and a formatter takes text.
    pub fn kind(self) -> &'static str
        ensures { result.now ≡ kind_of self.entry }
    {
        match self {
            Item::Name(_) => "name",
            Item::Word(_, _) => "keyword",
            Item::Integer(_) => "integer",
            Item::Text(_) => "string",
            Item::Mark(_, _) => "separator",
            Item::Comment(_) => "comment",
        }
    }

    /// What the item counts as: a comment as nothing.
    pub fn symbol(self) -> Option<Symbol>
        ensures { result ≡ symbol_of self.entry }
    {
        match self {
            Item::Name(_) => Some(Symbol::Name),
            Item::Word(keyword, _) => Some(Symbol::Word(keyword)),
            Item::Integer(_) => Some(Symbol::Integer),
            Item::Text(_) => Some(Symbol::Text),
            Item::Mark(separator, _) => Some(Symbol::Mark(separator)),
            Item::Comment(_) => None,
        }
    }
}

/// Why no item stands at the front of a text.
#[derive(Clone, Copy, PartialEq, Eq, Debug)]
pub enum Stop {
    /// The text ends inside an item.
    Short,
    /// The byte behind so many can continue no item.
    Stuck(usize),
}
