//! One step of the cut: layout, a comment or an item is passed.
ghost use Rattle.std.specs.Prelude.{◌≡◌, ◌+◌, ◌^◌, ◌<◌, ◌≤◌, length};
ghost use Rattle.answers.specs.Declines.{place as place_at};
ghost use Rattle.scanner.specs.Seen.{large_of};
ghost use Rattle.lexer.specs.Steps.{Stepped, decline_of, reach};
ghost use Rattle.symbols.specs.Bytes.{blank};

use answers::{Decline, Place};
use scanner::item::{Item, Stop};
use scanner::scan::next_item;
use scanner::value::integer_value;
use symbols::Symbol;

/// What was passed, if it has a symbol, and the place behind it.
#[derive(Clone, Copy)]
pub struct Passed {
    pub symbol: Option<Symbol>,
    pub end: usize,
}

/// Is the byte layout?
fn is_blank(b: u8) -> bool
    ensures { result ≡ blank b }
{
    matches!(b, b'\t' | b'\n' | b' ')
}

/// Is the item an integer that is too large?
fn is_too_large(item: Item<'_>) -> bool
    ensures { result ≡ large_of item.entry }
{
    matches!(item, Item::Integer(bytes) if integer_value(bytes).is_none())
}

/// The place behind so many bytes of the text.
// No `TryFrom`: each place of a short text fits, so its error would never come.
pub fn place(at: usize) -> Place
    requires { at < 2 ^ 16 }
    ensures { result ≡ place_at at }
{
    Place { offset: at as u16 }
}

/// The decline of a text in which no item stands at `at`.
fn declined(stop: Stop, at: usize) -> Decline
    requires { at + reach stop < 2 ^ 16 }
    ensures { result ≡ decline_of stop at }
{
    match stop {
        Stop::Short => Decline::UnfinishedItem(place(at)),
        Stop::Stuck(n) => Decline::BadByte(place(at + n)),
    }
}

/// Passes what stands in the text at `at`.
pub fn step(text: &[u8], at: usize) -> Result<Passed, Decline>
    requires within { at < length text.now }
    requires short { length text.now ≤ 32768 }
    ensures { Stepped text.now at result }
{
    if is_blank(text[at]) {
        return Ok(Passed {
            symbol: None,
            end: at + 1,
        });
    }
    // No `map_err`: tried, and that the place of the stop has 16 bits stays open, since it hangs on which stop came.
    match next_item(&text[at..]) {
        Ok(item) if is_too_large(item) => Err(Decline::IntegerTooLarge(place(at))),
        Ok(item) => Ok(Passed {
            symbol: item.symbol(),
            end: at + item.bytes().len(),
        }),
        Err(stop) => Err(declined(stop, at)),
    }
}
