//! What the items of a module's text stand for: a name's word, an integer's value, how many bytes a string has.
#![tactic(auto)]

ghost use Rattle.std.specs.Prelude.{◌≡◌};
ghost use Rattle.names.specs.Spelling.{uppers};
ghost use Rattle.statics.specs.Scopes.{same_word};
ghost use Rattle.texts.specs.Facts.{spelling, facts};

use lexer::table::item_of;
use names::same_name;
use scanner::value::{integer_value, string_bytes};
use symbols::Entry;

/// The text of a module, and its items.
#[derive(Clone, Copy)]
pub struct Text<'t> {
    pub bytes: &'t [u8],
    pub items: &'t [Entry],
}

impl<'t> Text<'t> {
    /// What the text has where the item with this number stands; nothing behind the last.
    pub fn spelling(self, item: usize) -> &'t [u8]
        ensures { result.now ≡ spelling self.entry item }
    {
        self.items
            .get(item)
            .map_or(&[], |entry| item_of(self.bytes, *entry).bytes())
    }

    /// Whether two items are one word, whatever the case of their letters.
    pub fn same_word(self, a: usize, b: usize) -> bool
        ensures { result ≡ same_word ((facts self.entry).word a) ((facts self.entry).word b) }
    {
        same_name(self.spelling(a), self.spelling(b))
    }

    /// Whether an item is this word.
    pub fn is_word(self, item: usize, word: &[u8]) -> bool
        ensures { result ≡ same_word ((facts self.entry).word item) (uppers word.now) }
    {
        same_name(self.spelling(item), word)
    }

    /// The value of an integer.
    pub fn value(self, item: usize) -> u16
        ensures { result ≡ (facts self.entry).value item }
    {
        integer_value(self.spelling(item)).unwrap_or(0)
    }

    /// How many bytes a string has.
    pub fn size(self, item: usize) -> usize
        ensures { result ≡ (facts self.entry).size item }
    {
        string_bytes(self.spelling(item)).len()
    }
}
