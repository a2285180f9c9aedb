//! What the calls answer: places in a text, and the declines with their numbers and places.
#![tactic(auto)]

ghost use Rattle.std.specs.Prelude.{◌≡◌, ◌+◌, ◌≤◌, ◌++◌, length, take, decimal};
ghost use Rattle.std.specs.List.{suffix_len};
ghost use Rattle.arrayvec.specs.ArrayString.{array_string_len};
ghost use Rattle.answers.specs.Declines.{number_of, place_of};
ghost use Rattle.answers.specs.Lines.{column_of, line_of, within_line};
ghost use Rattle.answers.specs.Said.{LineOf, Says};

use arrayvec::ArrayString;
use itoa::Buffer;

/// A place in a text: the number of bytes before it.
#[derive(Clone, Copy, PartialEq, Eq, Debug)]
pub struct Place {
    pub offset: u16,
}

/// Why a text is declined.
#[derive(Clone, Copy, PartialEq, Eq, Debug)]
pub enum Decline {
    /// The text is longer than 32,768 bytes.
    TextTooLong,
    /// A byte can neither begin nor continue an item there.
    BadByte(Place),
    /// The text ends inside an item.
    UnfinishedItem(Place),
    /// An integer is above 32,767.
    IntegerTooLarge(Place),
    /// There are more than 4,096 items, comments not counted.
    TooManyItems(Place),
    /// An item can follow the earlier ones in no module, or the text ends too early.
    Unexpected(Place),
    /// An item opens a depth of 33.
    TooDeep(Place),
    /// A name is declared that the same scope already has.
    DeclaredTwice(Place),
    /// A name is unknown, used too early or of the wrong class, or another EXT is described.
    WrongName(Place),
    /// A construct whose parts fit does not itself fit.
    Misfit(Place),
    /// A variable that has a REF place has no initial value.
    NoValue(Place),
    /// There are more than 4,096 places of data and strings.
    TooManyPlaces(Place),
    /// A procedure has more than 8 parameters, or more than 64 locals with them.
    TooManyLocals(Place),
}

/// How many bytes the line of a decline may have.
pub const LINE_BYTES: usize = 16;

impl Decline {
    pub fn number(self) -> u8
        ensures { result ≡ number_of self }
    {
        match self {
            Decline::TextTooLong => 2,
            Decline::BadByte(_) => 3,
            Decline::UnfinishedItem(_) => 4,
            Decline::IntegerTooLarge(_) => 5,
            Decline::TooManyItems(_) => 6,
            Decline::Unexpected(_) => 7,
            Decline::TooDeep(_) => 8,
            Decline::DeclaredTwice(_) => 9,
            Decline::WrongName(_) => 10,
            Decline::Misfit(_) => 11,
            Decline::NoValue(_) => 12,
            Decline::TooManyPlaces(_) => 13,
            Decline::TooManyLocals(_) => 14,
        }
    }

    pub fn place(self) -> Place
        ensures { result ≡ place_of self }
    {
        match self {
            Decline::TextTooLong => Place { offset: 32_768 },
            Decline::BadByte(place)
            | Decline::UnfinishedItem(place)
            | Decline::IntegerTooLarge(place)
            | Decline::TooManyItems(place)
            | Decline::Unexpected(place)
            | Decline::TooDeep(place)
            | Decline::DeclaredTwice(place)
            | Decline::WrongName(place)
            | Decline::Misfit(place)
            | Decline::NoValue(place)
            | Decline::TooManyPlaces(place)
            | Decline::TooManyLocals(place) => place,
        }
    }

    /// The line of the decline, `LINE:COLUMN: NUMBER` and a byte 10.
    #[tactic(auto, using(crate::proofs::Figures::five_at_most, crate::proofs::Figures::two_at_most))]
    fn line(self, text: &[u8]) -> ArrayString<LINE_BYTES>
        ensures { Says self text.now result.bytes }
    {
        // `write!` was tried: none of its clauses says when it succeeds, so the pieces are put in one by one.
        let place = self.place();
        let mut line = ArrayString::new();
        push_figures(&mut line, place.line(text));
        line.push_str(":");
        push_figures(&mut line, place.column(text));
        line.push_str(": ");
        push_figures(&mut line, u32::from(self.number()));
        line.push_str("\n");
        line
    }

    /// Writes the line of the decline, `LINE:COLUMN: NUMBER` and a byte 10, to the front of the buffer, and answers its length. A
    /// buffer of fewer than 16 bytes is left as it is.
    pub fn write_line(self, text: &[u8], out: &mut [u8]) -> Option<usize>
        ensures { LineOf self text.now out.old out.new result }
    {
        // The buffer is the caller's, since the call `judge` is lent one, and there is no heap.
        if out.len() < LINE_BYTES {
            return None;
        }
        let line = self.line(text);
        out[..line.len()].copy_from_slice(line.as_str().as_bytes());
        Some(line.len())
    }
}

/// Puts the figures of the number behind the line.
fn push_figures(line: &mut ArrayString<LINE_BYTES>, n: u32)
    requires { array_string_len line.old + length (decimal n) ≤ LINE_BYTES }
    ensures bytes { line.new.bytes ≡ line.old.bytes ++ decimal n }
    ensures len { array_string_len line.new ≡ array_string_len line.old + length (decimal n) }
{
    line.push_str(Buffer::new().format(n));
}

impl Place {
    /// The text before the place, or all of it where the place is past its end.
    fn text_before(self, text: &[u8]) -> &[u8]
        ensures is { result.now ≡ take self.offset text.now }
        ensures few { length result.now ≤ self.offset }
    {
        &text[..text.len().min(usize::from(self.offset))]
    }

    /// The line of the place in the text, from 1.
    pub fn line(self, text: &[u8]) -> u32
        ensures is { result ≡ line_of text.now self.offset }
        ensures few { result ≤ 65536 }
    {
        // A loop and not `filter` with `count`, which the compiler does not vectorize: it takes two to five times as long.
        let mut line = 1;
        for b in self.text_before(text) {
            if *b == b'\n' {
                line += 1;
            }
        }
        line
    }

    /// The column of the place in its line, from 1.
    pub fn column(self, text: &[u8]) -> u32
        ensures is { result ≡ column_of text.now self.offset }
        ensures few { result ≤ 65536 }
    {
        // `as`: a place has 16 bits, so an error of `try_from` would never come.
        1 + last_line_len(self.text_before(text)) as u32
    }
}

/// How many bytes stand behind the last byte 10 of the text.
fn last_line_len(text: &[u8]) -> usize
    ensures is { result ≡ suffix_len within_line text.now }
    ensures few { result ≤ length text.now }
{
    text.iter().rev().take_while(|b| **b != b'\n').count()
}
