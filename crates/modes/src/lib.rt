//! Modes, what an expression stands for, and what that can be brought to.
#![tactic(auto)]

pub mod written;

ghost use Rattle.std.specs.Prelude.{◌≡◌, option_map};
ghost use Rattle.texts.specs.Facts.{facts};
ghost use Rattle.statics.specs.Scopes.{Text as Facts};
ghost use Rattle.statics.specs.Modes.{plain, element_thing, subscript};
ghost use Rattle.statics.specs.JudgeExpressions.{same_mode, same_element, number_of, ref_of, fit_mode, fit_ref, fit as fit_of};
ghost use Rattle.modes.specs.Meanings.{plain_means, base_means, element_means, mode_means, thing_means, need_means};

use texts::Text;

/// The modes of numbers.
#[derive(Clone, Copy, PartialEq, Eq, Debug)]
pub enum Plain {
    Int,
    Byte,
}

/// What stands behind the REF ARRAYs in a mode. A record mode is told by the item that names it.
#[derive(Clone, Copy, PartialEq, Eq, Debug)]
pub enum Base {
    Plain(Plain),
    Ref(Plain),
    RefRecord(usize),
    Record(usize),
}

/// What the elements of an array are: so many REF ARRAYs, and what stands behind them.
// No `Box` of an element in an element: there is no heap, and the chain has nothing in it but its length.
#[derive(Clone, Copy, PartialEq, Eq, Debug)]
pub struct Element {
    pub arrays: usize,
    pub base: Base,
}

/// A simple mode.
#[derive(Clone, Copy, PartialEq, Eq, Debug)]
pub enum Mode {
    Plain(Plain),
    Ref(Plain),
    RefRecord(usize),
    RefArray(Element),
}

pub const INT: Mode = Mode::Plain(Plain::Int);

pub const BYTE: Mode = Mode::Plain(Plain::Byte);

/// What an expression stands for.
#[derive(Clone, Copy, PartialEq, Eq, Debug)]
pub enum Thing {
    Value(Mode),
    /// A place, with an address or without.
    Place(bool, Mode),
    Array(Element),
    Record(usize),
}

/// What an environment requires.
#[derive(Clone, Copy, PartialEq, Eq, Debug)]
pub enum Need {
    Mode(Mode),
    /// INT or BYTE.
    Number,
    /// Some reference.
    Reference,
    /// An array, or a reference to one.
    Elements,
    /// A record, or a reference to one.
    Components,
    /// A place to store into.
    Scalar,
    /// A place that refers to one of a plain mode.
    Pointed,
}

impl Base {
    /// Whether two are the same; record modes are, if their names are.
    pub fn same(self, other: Base, text: Text<'_>) -> bool
        ensures { result ≡ same_element (base_means (facts text.entry) self) (base_means (facts text.entry) other) }
    {
        match (self, other) {
            (Base::Plain(a), Base::Plain(b)) | (Base::Ref(a), Base::Ref(b)) => a == b,
            (Base::RefRecord(a), Base::RefRecord(b)) | (Base::Record(a), Base::Record(b)) =>
                text.same_word(a, b),
            _ => false,
        }
    }
}

impl Element {
    /// Whether two are the same.
    pub fn same(self, other: Element, text: Text<'_>) -> bool
        ensures { result ≡ same_element (element_means (facts text.entry) self) (element_means (facts text.entry) other) }
    {
        self.arrays == other.arrays && self.base.same(other.base, text)
    }

    /// What an element of an array of these stands for.
    pub fn thing(self) -> Thing
        ensures { (x : Facts) → thing_means x result ≡ element_thing (element_means x self) }
    {
        match (self.arrays.checked_sub(1), self.base) {
            (Some(arrays), base) => Thing::Place(true, Mode::RefArray(Element { arrays, base })),
            (None, Base::Plain(k)) => Thing::Place(true, Mode::Plain(k)),
            (None, Base::Ref(k)) => Thing::Place(true, Mode::Ref(k)),
            (None, Base::RefRecord(name)) => Thing::Place(true, Mode::RefRecord(name)),
            (None, Base::Record(name)) => Thing::Record(name),
        }
    }
}

impl Mode {
    /// Whether two are the same.
    pub fn same(self, other: Mode, text: Text<'_>) -> bool
        ensures { result ≡ same_mode (mode_means (facts text.entry) self) (mode_means (facts text.entry) other) }
    {
        match (self, other) {
            (Mode::Plain(a), Mode::Plain(b)) | (Mode::Ref(a), Mode::Ref(b)) => a == b,
            (Mode::RefRecord(a), Mode::RefRecord(b)) => text.same_word(a, b),
            (Mode::RefArray(a), Mode::RefArray(b)) => a.same(b, text),
            _ => false,
        }
    }

    /// What a subscript behind something of this mode gives.
    pub fn subscript(self) -> Thing
        ensures { (x : Facts) → thing_means x result ≡ subscript (mode_means x self) }
    {
        match self {
            Mode::RefArray(element) => element.thing(),
            mode => Thing::Value(mode),
        }
    }
}

impl Thing {
    /// The number that it can be brought to: INT or BYTE.
    pub fn number(self) -> Option<Plain>
        ensures { (x : Facts) → option_map plain_means result ≡ number_of (thing_means x self) }
    {
        match self {
            Thing::Value(Mode::Plain(k) | Mode::Ref(k))
            | Thing::Place(_, Mode::Plain(k) | Mode::Ref(k)) => Some(k),
            _ => None,
        }
    }

    /// The REF mode that it can be brought to.
    pub fn reference(self) -> Option<Mode>
        ensures { (x : Facts) → option_map (mode_means x) result ≡ ref_of (thing_means x self) }
    {
        match self {
            Thing::Value(Mode::Plain(_)) | Thing::Place(false, Mode::Plain(_)) => None,
            Thing::Place(true, Mode::Plain(k)) => Some(Mode::Ref(k)),
            Thing::Value(mode) | Thing::Place(_, mode) => Some(mode),
            Thing::Array(element) => Some(Mode::RefArray(element)),
            Thing::Record(name) => Some(Mode::RefRecord(name)),
        }
    }

    /// The plain mode wanted, where it can be brought to that: BYTE widens to INT.
    fn widened(self, wanted: Plain) -> Option<Mode>
        ensures { (x : Facts) → option_map (mode_means x) result ≡ fit_mode (plain (plain_means wanted)) (thing_means x self) }
    {
        match (self.number()?, wanted) {
            (Plain::Int, Plain::Byte) => None,
            _ => Some(Mode::Plain(wanted)),
        }
    }

    /// The REF mode wanted, where it can be brought to that.
    fn wanted(self, wanted: Mode, text: Text<'_>) -> Option<Mode>
        ensures { option_map (mode_means (facts text.entry)) result ≡ fit_ref (mode_means (facts text.entry) wanted) (thing_means (facts text.entry) self) }
    {
        if self.reference()?.same(wanted, text) {
            Some(wanted)
        } else {
            None
        }
    }

    /// The mode at hand, where it meets what is needed.
    pub fn fit(self, need: Need, text: Text<'_>) -> Option<Mode>
        ensures { option_map (mode_means (facts text.entry)) result ≡ fit_of (need_means (facts text.entry) need) (thing_means (facts text.entry) self) }
    {
        match need {
            Need::Mode(Mode::Plain(wanted)) => self.widened(wanted),
            Need::Mode(wanted) => self.wanted(wanted, text),
            Need::Number => self.number().map(Mode::Plain),
            Need::Reference => self.reference(),
            Need::Elements => match self.reference()? {
                Mode::RefArray(element) => Some(Mode::RefArray(element)),
                _ => None,
            },
            Need::Components => match self.reference()? {
                Mode::RefRecord(name) => Some(Mode::RefRecord(name)),
                _ => None,
            },
            Need::Scalar => match self {
                Thing::Place(_, mode) => Some(mode),
                _ => None,
            },
            Need::Pointed => match self {
                Thing::Place(_, Mode::Ref(k)) => Some(Mode::Plain(k)),
                _ => None,
            },
        }
    }
}
