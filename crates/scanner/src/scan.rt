//! The item at the front of a text.
ghost use Rattle.std.specs.Prelude.{◌≡◌, ◌<◌, ◌≤◌, length, take, drop, Some};
ghost use Rattle.scanner.specs.Classes.{holds};
ghost use Rattle.scanner.specs.Seen.{Compound, Marked, Part, Sees, Shows, SimpleIs, bytes_of, symbol_of};
ghost use Rattle.symbols.specs.See.{keyword_of, named as named_as, see, see_behind, see_enclosed, see_mark, see_quoted, see_word, marks};

use crate::bytes::{Class, run};
use crate::item::{Item, Stop};
use crate::words::{base, keyword};
use symbols::{Base, Separator};

/// The separator of one character.
fn simple(b: u8) -> Option<Separator>
    ensures { SimpleIs b result }
{
    match char::from(b) {
        '(' => Some(Separator::LeftBracket),
        ')' => Some(Separator::RightBracket),
        '*' => Some(Separator::Star),
        '+' => Some(Separator::Plus),
        '-' => Some(Separator::Minus),
        ',' => Some(Separator::Comma),
        '.' => Some(Separator::Point),
        '/' => Some(Separator::Slash),
        ':' => Some(Separator::Colon),
        ';' => Some(Separator::Semicolon),
        '<' => Some(Separator::Less),
        '=' => Some(Separator::Equal),
        '>' => Some(Separator::Greater),
        '#' => Some(Separator::Hash),
        _ => None,
    }
}

/// The separator of several characters at the front of the text, the longest that stands there, and the rest of the text.
fn compound(text: &[u8]) -> Option<(Separator, &[u8])>
    ensures { Compound text.now result }
{
    match text {
        [b':', b'=', b':', rest @ ..] => Some((Separator::Same, rest)),
        [b':', b'#', b':', rest @ ..] => Some((Separator::Differs, rest)),
        [b':', b'=', rest @ ..] => Some((Separator::Becomes, rest)),
        [b':', b'/', rest @ ..] => Some((Separator::Divide, rest)),
        [b'/', b'/', rest @ ..] => Some((Separator::DoubleSlash, rest)),
        [b'<', b'=', rest @ ..] => Some((Separator::AtMost, rest)),
        [b'>', b'=', rest @ ..] => Some((Separator::AtLeast, rest)),
        _ => None,
    }
}

/// The separator at the front of the text, the longest that stands there, and the rest of the text.
fn mark(text: &[u8]) -> Option<(Separator, &[u8])>
    ensures { Marked text.now result }
{
    // Matches one in the other, and no `?`: with `if let` and `?` the compiler makes more instructions of each separator.
    match compound(text) {
        Some(found) => Some(found),
        None => match text {
            [b, rest @ ..] => match simple(*b) {
                Some(separator) => Some((separator, rest)),
                None => None,
            },
            [] => None,
        },
    }
}

/// A name is a keyword or an identifier.
fn named(name: &[u8]) -> Item<'_>
    ensures symbol { symbol_of result ≡ Some (named_as (keyword_of name.now)) }
    ensures bytes { bytes_of result ≡ name.now }
{
    match keyword(name) {
        Some(word) => Item::Word(word, name),
        None => Item::Name(name),
    }
}

/// Behind the word of a base, which ends at `end`: an integer, or the word alone is the item.
fn based(text: &[u8], end: usize, base: Base) -> Item<'_>
    requires { end ≤ length text.now }
    ensures { Shows text.now (see_behind (take end text.now) end (drop end text.now) (Some base)) result }
{
    let (word, rest) = text.split_at(end);
    let spaces = run(rest, Class::Space);
    let digits = run(&rest[spaces..], Class::DigitIn(base));
    if spaces > 0 && digits > 0 {
        Item::Integer(&text[..end + spaces + digits])
    } else {
        named(word)
    }
}

/// The text begins with a letter.
fn word(text: &[u8]) -> Item<'_>
    ensures { Shows text.now (see_word text.now) result }
{
    let end = run(text, Class::NameByte);
    let name = &text[..end];
    match base(name) {
        Some(base) => based(text, end, base),
        None => named(name),
    }
}

/// The text begins with a quote; bytes of the class stand between it and the next one.
fn enclosed(text: &[u8], quote: u8, class: Class) -> Result<&[u8], Stop>
    requires { 0 < length text.now }
    ensures { Part text.now (λ f. see_enclosed f quote (holds class) (drop 1 text.now)) result }
{
    let end = 1 + run(&text[1..], class);
    match &text[end..] {
        [] => Err(Stop::Short),
        [b, ..] if *b == quote => Ok(&text[..end + 1]),
        _ => Err(Stop::Stuck(end)),
    }
}

/// The text begins with a single quote: one string character stands between it and the next one.
fn quoted(text: &[u8]) -> Result<Item<'_>, Stop>
    requires { 0 < length text.now }
    ensures { Sees text.now (see_quoted (drop 1 text.now)) result }
{
    match text {
        [_, b, ..] if !Class::StringByte.has(*b) => Err(Stop::Stuck(1)),
        [_, _, b'\'', ..] => Ok(Item::Integer(&text[..3])),
        [_, _, _, ..] => Err(Stop::Stuck(2)),
        _ => Err(Stop::Short),
    }
}

/// The text begins with a byte that begins no other item than a separator.
fn separator(text: &[u8]) -> Result<Item<'_>, Stop>
    ensures { Sees text.now (see_mark marks text.now) result }
{
    let (separator, rest) = mark(text).ok_or(Stop::Stuck(0))?;
    let length = text.len() - rest.len();
    Ok(Item::Mark(separator, &text[..length]))
}

/// The item at the front of the text, or why there is none.
pub fn next_item(text: &[u8]) -> Result<Item<'_>, Stop>
    ensures { Sees text.now (see text.now) result }
{
    match text {
        [b'A'..=b'Z' | b'a'..=b'z', ..] => Ok(word(text)),
        [b'0'..=b'9', ..] => Ok(Item::Integer(&text[..run(text, Class::Digit)])),
        [b'"', ..] => enclosed(text, b'"', Class::StringByte).map(Item::Text),
        [b'%', ..] => enclosed(text, b'%', Class::CommentByte).map(Item::Comment),
        [b'\'', ..] => quoted(text),
        [_, ..] => separator(text),
        [] => Err(Stop::Short),
    }
}
