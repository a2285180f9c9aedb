//! The static rules of a module: what its names mean, what fits, what is wrong, and which wrong is answered.
#![tactic(auto)]

ghost use Rattle.std.specs.Prelude.{◌≡◌};
ghost use Rattle.statics.specs.Refusals.{number_of, place_of};
ghost use Rattle.statics.specs.Theorems.{ExpressionsRight, ConditionsRight, StatementsRight, ModulesRight, StaticRight, InOrder, OneReading, WordsRight, MovingRight};
ghost use Rattle.statics.specs.Examples.{Examples};

/// What is wrong with a module, and at which item.
#[derive(Clone, Copy, PartialEq, Eq, Debug)]
pub enum Refusal {
    /// A name is declared that the same scope already has.
    DeclaredTwice(usize),
    /// A name is unknown, used too early or of the wrong class, or another EXT is described.
    WrongName(usize),
    /// A construct whose parts fit does not itself fit.
    Misfit(usize),
    /// A variable that has a REF place has no initial value.
    NoValue(usize),
    /// There are more than 4,096 places of data and strings.
    TooManyPlaces(usize),
    /// A procedure has more than 8 parameters, or more than 64 locals with them.
    TooManyLocals(usize),
}

impl Refusal {
    pub fn number(self) -> u8
        ensures { result ≡ number_of self }
    {
        match self {
            Refusal::DeclaredTwice(_) => 9,
            Refusal::WrongName(_) => 10,
            Refusal::Misfit(_) => 11,
            Refusal::NoValue(_) => 12,
            Refusal::TooManyPlaces(_) => 13,
            Refusal::TooManyLocals(_) => 14,
        }
    }

    /// The number of the item at which it is wrong.
    pub fn place(self) -> usize
        ensures { result ≡ place_of self }
    {
        match self {
            Refusal::DeclaredTwice(item)
            | Refusal::WrongName(item)
            | Refusal::Misfit(item)
            | Refusal::NoValue(item)
            | Refusal::TooManyPlaces(item)
            | Refusal::TooManyLocals(item) => item,
        }
    }
}

/// What is judged of an expression is the verdict of the rules: what it stands for, or the earliest wrong.
pub fn expressions_right()
    ensures { ExpressionsRight }
{}

/// The same of conditions.
pub fn conditions_right()
    ensures { ConditionsRight }
{}

/// The same of the body of a procedure, a block or a loop, with all its declarations and statements.
pub fn statements_right()
    ensures { StatementsRight }
{}

/// The same of a whole module: what is judged of it is the earliest of its wrong names, misfits and references without a value.
pub fn modules_right()
    ensures { ModulesRight }
{}

/// A module whose tree is made of the items of a text has exactly one static verdict: declared twice; or else the earliest name, misfit or
/// reference without a value; or else too many places; or else too many locals; or accepted. What is judged of it is this verdict.
pub fn static_right()
    ensures { StaticRight }
{}

/// The items that the rules name lie in the tree in the order of the text, none of them beyond its end.
pub fn in_order()
    ensures { InOrder }
{}

/// With places that grow with the items, as the bytes at which they begin, the one answer is what is judged, at the moved place.
pub fn moving_right()
    ensures { MovingRight }
{}

/// What can be brought to a mode is brought to it by one number of reads.
pub fn one_reading()
    ensures { OneReading }
{}

/// The test of words, by which components of a record mode are gathered, passes exactly on equal ones.
pub fn words_right()
    ensures { WordsRight }
{}

/// The empty module and a small one are accepted; an INT brought to a BYTE is a misfit at its first item; and further examples.
pub fn examples()
    ensures { Examples }
{}
