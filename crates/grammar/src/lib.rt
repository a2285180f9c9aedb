//! The grammar of modules: the symbols that items count as, and the theorems on the trees and sentences of specs/.
#![tactic(auto)]

ghost use Rattle.std.specs.Prelude.{◌≡◌};
ghost use Rattle.grammar.specs.Symbols.{Says, code};
ghost use Rattle.grammar.specs.Sentences.{Balanced, OneAnswer, OneTree, Unique, MadeSentence, NothingAfter};
ghost use Rattle.grammar.specs.Machine.{RunRight, ViableFronts, Accepted};
ghost use Rattle.grammar.specs.Examples.{Examples};

/// The symbols of a module: what an item counts as in the syntax. `Stop` stands behind the last item.
// Not `symbols::Symbol`: that has no mark past the end and two levels, and a match would say `Symbol::Mark(Separator::LeftBracket)` for `Left`.
#[derive(Clone, Copy, PartialEq, Eq)]
pub enum Symbol {
    Stop,
    Name,
    Integer,
    Text,
    Abs,
    And,
    Array,
    Bin,
    Block,
    By,
    Byte,
    Code,
    Data,
    Do,
    Else,
    Elseif,
    End,
    Endblock,
    Enddata,
    Endproc,
    Ent,
    Ext,
    For,
    Frac,
    Goto,
    Hex,
    If,
    Int,
    Label,
    Land,
    Length,
    Let,
    Lor,
    Mod,
    Mode,
    Nev,
    Not,
    Oct,
    Of,
    Option,
    Or,
    Proc,
    Real,
    Ref,
    Rep,
    Return,
    Rtl,
    Sha,
    Shl,
    Sla,
    Sll,
    Sra,
    Srl,
    Stack,
    Svc,
    Switch,
    Then,
    Title,
    To,
    Val,
    While,
    Left,
    Right,
    Star,
    Plus,
    Minus,
    Comma,
    Dot,
    Slash,
    Colon,
    Semi,
    Less,
    Equal,
    More,
    Hash,
    Becomes,
    Divide,
    Slashes,
    AtMost,
    AtLeast,
    Is,
    Isnt,
}

/// Whether two symbols are the same one.
pub fn alike(a: Symbol, b: Symbol) -> bool
    ensures { Says result (a ≡ b) }
{
    a == b
}

/// A number for each symbol.
pub fn ordinal(c: Symbol) -> u8
    ensures { result ≡ code c }
{
    c as u8
}

/// Of the symbols of a text exactly one is so: they are a module within the depth allowed; or a first one can follow in no module; or a
/// first one opens too many.
pub fn one_answer()
    ensures { OneAnswer }
{}

/// The items of a text whose symbols are a sentence have exactly one tree.
pub fn one_tree()
    ensures { OneTree }
{}

/// No two trees are made of the same items.
pub fn unique()
    ensures { Unique }
{}

/// What a tree is made of is a sentence.
pub fn made_sentence()
    ensures { MadeSentence }
{}

/// Behind symbols that begin no sentence none goes on.
pub fn nothing_after()
    ensures { NothingAfter }
{}

/// In no front of a sentence are more closed than opened, and in a sentence as many are.
pub fn balanced_depth()
    ensures { Balanced }
{}

/// What the stack machine answers is what is to be said.
pub fn run_right()
    ensures { RunRight }
{}

/// The stack machine takes exactly the fronts of sentences.
pub fn viable_fronts()
    ensures { ViableFronts }
{}

/// The stack machine accepts exactly the sentences.
pub fn accepted()
    ensures { Accepted }
{}

/// Examples.
pub fn examples()
    ensures { Examples }
{}
