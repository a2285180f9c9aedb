//! The items of a module's text: what each is called, how it is spelled, and where it stands. The rules of items and
//! of the cut are in specs/; this crate has the types that they speak of.
#![tactic(auto)]

pub mod laws;

use answers::Place;

/// The words that no identifier may be.
#[derive(Clone, Copy, PartialEq, Eq, Debug)]
pub enum Keyword {
    Abs,
    And,
    Array,
    Bin,
    Block,
    By,
    Byte,
    Code,
    Data,
    Do,
    Else,
    ElseIf,
    End,
    EndBlock,
    EndData,
    EndProc,
    Ent,
    Ext,
    For,
    Frac,
    Goto,
    Hex,
    If,
    Int,
    Label,
    Land,
    Length,
    Let,
    Lor,
    Mod,
    Mode,
    Nev,
    Not,
    Oct,
    Of,
    Option,
    Or,
    Proc,
    Real,
    Ref,
    Rep,
    Return,
    Rtl,
    Sha,
    Shl,
    Sla,
    Sll,
    Sra,
    Srl,
    Stack,
    Svc,
    Switch,
    Then,
    Title,
    To,
    Val,
    While,
}

/// Punctuation and operators.
#[derive(Clone, Copy, PartialEq, Eq, Debug)]
pub enum Separator {
    /// `(`
    LeftBracket,
    /// `)`
    RightBracket,
    /// `*`
    Star,
    /// `+`
    Plus,
    /// `-`
    Minus,
    /// `,`
    Comma,
    /// `.`
    Point,
    /// `/`
    Slash,
    /// `:`
    Colon,
    /// `;`
    Semicolon,
    /// `<`
    Less,
    /// `=`
    Equal,
    /// `>`
    Greater,
    /// `#`
    Hash,
    /// `:=`
    Becomes,
    /// `:/`
    Divide,
    /// `//`
    DoubleSlash,
    /// `<=`
    AtMost,
    /// `>=`
    AtLeast,
    /// `:=:`
    Same,
    /// `:#:`
    Differs,
}

/// What an item counts as: identifiers, integers and strings each alike, every keyword and separator for itself.
#[derive(Clone, Copy, PartialEq, Eq, Debug)]
pub enum Symbol {
    Name,
    Integer,
    Text,
    Word(Keyword),
    Mark(Separator),
}

/// The bases that a word in front of an integer's digits names.
#[derive(Clone, Copy, PartialEq, Eq, Debug)]
pub enum Base {
    Binary,
    Octal,
    Hexadecimal,
}

/// An item in the table of a text's items: its symbol, its first place and the place behind it.
#[derive(Clone, Copy, PartialEq, Eq, Debug)]
pub struct Entry {
    pub symbol: Symbol,
    pub start: Place,
    pub end: Place,
}
