//! From the symbols of a text's items to the terminals of the grammar.
#![tactic(auto)]

ghost use Rattle.std.specs.Prelude.{◌≡◌, min, length, take, drop};
ghost use Rattle.terminals.specs.Signs.{mark_sign, sign, signs, word_sign};

use grammar::Symbol as Terminal;
use symbols::{Entry, Keyword, Separator, Symbol};

/// The terminal of a keyword; those that stand in no module are all alike.
fn word_terminal(keyword: Keyword) -> Terminal
    ensures { result ≡ word_sign keyword }
{
    match keyword {
        Keyword::Abs => Terminal::Abs,
        Keyword::And => Terminal::And,
        Keyword::Array => Terminal::Array,
        Keyword::Block => Terminal::Block,
        Keyword::Byte => Terminal::Byte,
        Keyword::Data => Terminal::Data,
        Keyword::Do => Terminal::Do,
        Keyword::Else => Terminal::Else,
        Keyword::ElseIf => Terminal::Elseif,
        Keyword::End => Terminal::End,
        Keyword::EndBlock => Terminal::Endblock,
        Keyword::EndData => Terminal::Enddata,
        Keyword::EndProc => Terminal::Endproc,
        Keyword::Ent => Terminal::Ent,
        Keyword::Ext => Terminal::Ext,
        Keyword::If => Terminal::If,
        Keyword::Int => Terminal::Int,
        Keyword::Land => Terminal::Land,
        Keyword::Length => Terminal::Length,
        Keyword::Lor => Terminal::Lor,
        Keyword::Mod => Terminal::Mod,
        Keyword::Mode => Terminal::Mode,
        Keyword::Nev => Terminal::Nev,
        Keyword::Not => Terminal::Not,
        Keyword::Or => Terminal::Or,
        Keyword::Proc => Terminal::Proc,
        Keyword::Ref => Terminal::Ref,
        Keyword::Rep => Terminal::Rep,
        Keyword::Return => Terminal::Return,
        Keyword::Then => Terminal::Then,
        Keyword::To => Terminal::To,
        Keyword::Val => Terminal::Val,
        Keyword::While => Terminal::While,
        _ => Terminal::Stop,
    }
}

/// The terminal of a separator, likewise.
fn mark_terminal(separator: Separator) -> Terminal
    ensures { result ≡ mark_sign separator }
{
    match separator {
        Separator::LeftBracket => Terminal::Left,
        Separator::RightBracket => Terminal::Right,
        Separator::Star => Terminal::Star,
        Separator::Plus => Terminal::Plus,
        Separator::Minus => Terminal::Minus,
        Separator::Comma => Terminal::Comma,
        Separator::Point => Terminal::Dot,
        Separator::Semicolon => Terminal::Semi,
        Separator::Less => Terminal::Less,
        Separator::Equal => Terminal::Equal,
        Separator::Greater => Terminal::More,
        Separator::Hash => Terminal::Hash,
        Separator::Becomes => Terminal::Becomes,
        Separator::Divide => Terminal::Divide,
        Separator::AtMost => Terminal::AtMost,
        Separator::AtLeast => Terminal::AtLeast,
        Separator::Same => Terminal::Is,
        Separator::Differs => Terminal::Isnt,
        Separator::Slash | Separator::Colon | Separator::DoubleSlash => Terminal::Stop,
    }
}

/// What a symbol counts as in the grammar.
// No `From`: both types are of other crates.
pub fn terminal(symbol: Symbol) -> Terminal
    ensures { result ≡ sign symbol }
{
    match symbol {
        Symbol::Name => Terminal::Name,
        Symbol::Integer => Terminal::Integer,
        Symbol::Text => Terminal::Text,
        Symbol::Word(keyword) => word_terminal(keyword),
        Symbol::Mark(separator) => mark_terminal(separator),
    }
}

/// Writes the terminals of the items to the front of `out`, as many as there is room for, and answers how many. What stands
/// behind them stays as it is.
pub fn classify(items: &[Entry], out: &mut [Terminal]) -> usize
    ensures count { result ≡ min (length items.now) (length out.old) }
    ensures front { take result out.new ≡ take result (signs items.now) }
    ensures behind { drop result out.new ≡ drop result out.old }
{
    let count = items.len().min(out.len());
    // The index is of `out`: behind `iter_mut().zip(..)` a proof knows nothing of what was written (tried).
    for (i, entry) in items[..count].iter().enumerate() {
        out[i] = terminal(entry.symbol);
    }
    count
}
