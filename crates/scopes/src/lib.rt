//! The names in scope where a construct of a module stands, and what they mean there.
#![tactic(auto)]

ghost use Rattle.std.specs.Prelude.{take, drop, ◌≡◌, ◌<◌, ◌&&◌, length, IfSome, option_map, slice_get};
ghost use Rattle.statics.specs.Scopes.{same_word, component_at, record_modes};
ghost use Rattle.statics.specs.JudgeExpressions.{seek, look, called_at, stands, keeps, runs, heads, shapes, selects};
ghost use Rattle.names.specs.Spelling.{alone};
ghost use Rattle.texts.specs.Facts.{facts, spelling};
ghost use Rattle.modes.specs.Meanings.{mode_means, thing_means};
ghost use Rattle.scopes.specs.Meanings.{class_means, class_called, signature_means, head_means, env_means, Answers};

use modes::{Mode, Thing};
use names::{Name, Named, last};
use statics::Refusal;
use texts::Text;

/// What a procedure takes and gives. The modes of its parameters stand in the table of all parameters, from `first` on.
#[derive(Clone, Copy)]
pub struct Signature {
    pub first: usize,
    pub count: usize,
    pub gives: Option<Mode>,
}

/// The classes of names.
#[derive(Clone, Copy)]
pub enum Class {
    RecordMode,
    /// A data brick.
    Brick,
    /// A data variable, and what its name stands for.
    Stored(Thing),
    /// A local or a parameter.
    Local(Mode),
    /// A procedure.
    Routine(Signature),
    /// A component, inside the brackets of its record mode.
    Part,
}

/// A name, by the item that declares it.
#[derive(Clone, Copy)]
pub struct Declared {
    pub item: usize,
    pub class: Class,
}

impl Named<Text<'_>> for Declared {
    ghost spelled = { λ text d. alone (spelling text d.item) };

    fn name<'n>(&'n self, text: &'n Text<'_>) -> Name<'n> {
        Name::alone(text.spelling(self.item))
    }
}

/// A component of the record mode that the item `owner` names.
#[derive(Clone, Copy)]
pub struct Component {
    pub owner: usize,
    pub item: usize,
    pub mode: Mode,
}

impl Named<Text<'_>> for Component {
    ghost spelled = { λ text c. record { of = spelling text c.owner; own = spelling text c.item } };

    fn name<'n>(&'n self, text: &'n Text<'_>) -> Name<'n> {
        Name {
            of: text.spelling(self.owner),
            own: text.spelling(self.item),
        }
    }
}

/// What stands before brackets with one expression: a variable or a procedure.
#[derive(Clone, Copy)]
pub enum Head {
    Thing(Thing),
    Signature(Signature),
}

/// What is in scope: the names, the innermost last, of which the first `ready` can be used; the components of all record modes; the modes of
/// all parameters; and what the procedure round it gives.
#[derive(Clone, Copy)]
pub struct Env<'w> {
    pub text: Text<'w>,
    pub names: &'w [Declared],
    pub ready: usize,
    pub parts: &'w [Component],
    pub takes: &'w [Mode],
    pub result: Option<Mode>,
}

impl<'w> Env<'w> {
    /// The number of the innermost declaration of a name, if that can be used.
    pub fn called_at(self, item: usize) -> Option<usize>
        ensures called { result ≡ called_at (env_means self.entry) item }
        ensures within { IfSome result (λ i. i < length self.entry.names.now) }
    {
        let wanted = Name::alone(self.text.spelling(item));
        let i = last(self.names, &self.text, wanted)?;
        if i < self.ready { Some(i) } else { None }
    }

    /// The class of a name, if it is known and can be used.
    fn class_of(self, item: usize) -> Option<Class>
        ensures { option_map (class_means self.entry) result ≡ class_called (env_means self.entry) item }
    {
        let i = self.called_at(item)?;
        Some(self.names[i].class)
    }

    /// What the name of a variable stands for.
    pub fn stands(self, item: usize) -> Result<Thing, Refusal>
        ensures { Answers (thing_means (facts self.entry.text)) result (look (env_means self.entry) item stands) }
    {
        match self.class_of(item) {
            Some(Class::Stored(thing)) => Ok(thing),
            Some(Class::Local(mode)) => Ok(Thing::Place(false, mode)),
            _ => Err(Refusal::WrongName(item)),
        }
    }

    /// What the name of a data variable stands for.
    pub fn keeps(self, item: usize) -> Result<Thing, Refusal>
        ensures { Answers (thing_means (facts self.entry.text)) result (look (env_means self.entry) item keeps) }
    {
        match self.class_of(item) {
            Some(Class::Stored(kept)) => Ok(kept),
            _ => Err(Refusal::WrongName(item)),
        }
    }

    /// What a procedure takes and gives.
    pub fn runs(self, item: usize) -> Result<Signature, Refusal>
        ensures { Answers (signature_means self.entry) result (look (env_means self.entry) item runs) }
    {
        match self.class_of(item) {
            Some(Class::Routine(signature)) => Ok(signature),
            _ => Err(Refusal::WrongName(item)),
        }
    }

    /// What stands before brackets with one expression.
    pub fn heads(self, item: usize) -> Result<Head, Refusal>
        ensures { Answers (head_means self.entry) result (look (env_means self.entry) item heads) }
    {
        match self.class_of(item) {
            Some(Class::Stored(thing)) => Ok(Head::Thing(thing)),
            Some(Class::Local(mode)) => Ok(Head::Thing(Thing::Place(false, mode))),
            Some(Class::Routine(signature)) => Ok(Head::Signature(signature)),
            _ => Err(Refusal::WrongName(item)),
        }
    }

    /// That a name is a record mode's.
    pub fn shapes(self, item: usize) -> Result<(), Refusal>
        ensures { Answers (λ u. tt) result (look (env_means self.entry) item shapes) }
    {
        match self.class_of(item) {
            Some(Class::RecordMode) => Ok(()),
            _ => Err(Refusal::WrongName(item)),
        }
    }

    /// Which of all components is the last one of a record mode that has the name.
    pub fn component_called(self, owner: usize, item: usize) -> Option<usize>
        ensures called { result ≡ seek (length (env_means self.entry).parts) (λ k. same_word (component_at (env_means self.entry) k).owner ((facts self.entry.text).word owner) && same_word (component_at (env_means self.entry) k).word ((facts self.entry.text).word item)) }
        ensures within { IfSome result (λ i. i < length self.entry.parts.now) }
    {
        let wanted = Name {
            of: self.text.spelling(owner),
            own: self.text.spelling(item),
        };
        last(self.parts, &self.text, wanted)
    }

    /// What the component of a record mode is that has the name.
    pub fn selects(self, owner: usize, item: usize) -> Option<Thing>
        ensures { option_map (thing_means (facts self.entry.text)) result ≡ selects (env_means self.entry) ((facts self.entry.text).word owner) item }
    {
        let i = self.component_called(owner, item)?;
        Some(Thing::Place(true, self.parts[i].mode))
    }

    /// How many components a record mode has.
    pub fn components(self, owner: usize) -> usize
        ensures { result ≡ length (record_modes (env_means self.entry).parts ((facts self.entry.text).word owner)) }
    {
        self.parts
            .iter()
            .filter(|component| self.text.same_word(component.owner, owner))
            .count()
    }

    /// The mode of the component of a record mode that has the number `k`.
    pub fn component(self, owner: usize, k: usize) -> Option<Mode>
        ensures { option_map (mode_means (facts self.entry.text)) result ≡ slice_get (record_modes (env_means self.entry).parts ((facts self.entry.text).word owner)) k }
    {
        self.parts
            .iter()
            .filter(|c| self.text.same_word(c.owner, owner))
            .nth(k)
            .map(|c| c.mode)
    }

    /// The modes of a procedure's parameters.
    pub fn parameters(self, signature: Signature) -> &'w [Mode]
        ensures { result.now ≡ take signature.count (drop signature.first self.entry.takes.now) }
    {
        let rest = self.takes.get(signature.first..).unwrap_or_default();
        rest.get(..signature.count).unwrap_or(rest)
    }
}
