//! The words: keywords and the bases of integers.
ghost use Rattle.std.specs.Prelude.{◌≡◌, filter, length, map, nat_eq};
ghost use Rattle.names.specs.Spelling.{uppers, alone};
ghost use Rattle.symbols.specs.See.{Spelt, keywords};
ghost use Rattle.symbols.specs.Spellings.{base_word, spelling};

use names::{Name, Named, last};
use symbols::{Base, Keyword};

/// A reserved word in capitals, and what it stands for.
#[derive(Clone, Copy)]
struct Reserved(&'static [u8], Keyword);

impl Named<()> for Reserved {
    ghost spelled = { λ _ w. alone w.0.now };

    fn name<'n>(&'n self, _: &'n ()) -> Name<'n> {
        Name::alone(self.0)
    }
}

/// The reserved words, in rows by how many letters they have: a name is looked for among those of its own length alone.
const KEYWORDS: [&[Reserved]; 9] = [
    &[],
    &[],
    &[
        Reserved(b"BY", Keyword::By),
        Reserved(b"DO", Keyword::Do),
        Reserved(b"IF", Keyword::If),
        Reserved(b"OF", Keyword::Of),
        Reserved(b"OR", Keyword::Or),
        Reserved(b"TO", Keyword::To),
    ],
    &[
        Reserved(b"ABS", Keyword::Abs),
        Reserved(b"AND", Keyword::And),
        Reserved(b"BIN", Keyword::Bin),
        Reserved(b"END", Keyword::End),
        Reserved(b"ENT", Keyword::Ent),
        Reserved(b"EXT", Keyword::Ext),
        Reserved(b"FOR", Keyword::For),
        Reserved(b"HEX", Keyword::Hex),
        Reserved(b"INT", Keyword::Int),
        Reserved(b"LET", Keyword::Let),
        Reserved(b"LOR", Keyword::Lor),
        Reserved(b"MOD", Keyword::Mod),
        Reserved(b"NEV", Keyword::Nev),
        Reserved(b"NOT", Keyword::Not),
        Reserved(b"OCT", Keyword::Oct),
        Reserved(b"REF", Keyword::Ref),
        Reserved(b"REP", Keyword::Rep),
        Reserved(b"RTL", Keyword::Rtl),
        Reserved(b"SHA", Keyword::Sha),
        Reserved(b"SHL", Keyword::Shl),
        Reserved(b"SLA", Keyword::Sla),
        Reserved(b"SLL", Keyword::Sll),
        Reserved(b"SRA", Keyword::Sra),
        Reserved(b"SRL", Keyword::Srl),
        Reserved(b"SVC", Keyword::Svc),
        Reserved(b"VAL", Keyword::Val),
    ],
    &[
        Reserved(b"BYTE", Keyword::Byte),
        Reserved(b"CODE", Keyword::Code),
        Reserved(b"DATA", Keyword::Data),
        Reserved(b"ELSE", Keyword::Else),
        Reserved(b"FRAC", Keyword::Frac),
        Reserved(b"GOTO", Keyword::Goto),
        Reserved(b"LAND", Keyword::Land),
        Reserved(b"MODE", Keyword::Mode),
        Reserved(b"PROC", Keyword::Proc),
        Reserved(b"REAL", Keyword::Real),
        Reserved(b"THEN", Keyword::Then),
    ],
    &[
        Reserved(b"ARRAY", Keyword::Array),
        Reserved(b"BLOCK", Keyword::Block),
        Reserved(b"LABEL", Keyword::Label),
        Reserved(b"STACK", Keyword::Stack),
        Reserved(b"TITLE", Keyword::Title),
        Reserved(b"WHILE", Keyword::While),
    ],
    &[
        Reserved(b"ELSEIF", Keyword::ElseIf),
        Reserved(b"LENGTH", Keyword::Length),
        Reserved(b"OPTION", Keyword::Option),
        Reserved(b"RETURN", Keyword::Return),
        Reserved(b"SWITCH", Keyword::Switch),
    ],
    &[
        Reserved(b"ENDDATA", Keyword::EndData),
        Reserved(b"ENDPROC", Keyword::EndProc),
    ],
    &[Reserved(b"ENDBLOCK", Keyword::EndBlock)],
];

/// The reserved words of so many letters.
fn of_length(letters: usize) -> &'static [Reserved]
    ensures meanings { map (λ w. w.1) result.now ≡ filter (λ k. nat_eq (length (spelling k)) letters) keywords }
    ensures spelled { map (λ w. uppers w.0.now) result.now ≡ map (λ w. spelling w.1) result.now }
{
    KEYWORDS.get(letters).copied().unwrap_or_default()
}

/// The keyword that a name is, if it is one.
// Not the match of `base` below: tried over all keywords, and the cut was slower. Not inlined: within `word` its loop is short of registers,
// and a cut of short items takes over half as long again.
#[inline(never)]
pub fn keyword(name: &[u8]) -> Option<Keyword>
    ensures { Spelt spelling (uppers name.now) result }
{
    let words = of_length(name.len());
    let i = last(words, &(), Name::alone(name))?;
    Some(words[i].1)
}

/// The base that a name is the word of, if it is one.
pub fn base(name: &[u8]) -> Option<Base>
    ensures { Spelt base_word (uppers name.now) result }
{
    match name {
        [b'B' | b'b', b'I' | b'i', b'N' | b'n'] => Some(Base::Binary),
        [b'O' | b'o', b'C' | b'c', b'T' | b't'] => Some(Base::Octal),
        [b'H' | b'h', b'E' | b'e', b'X' | b'x'] => Some(Base::Hexadecimal),
        _ => None,
    }
}
