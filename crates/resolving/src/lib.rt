//! Parts of what a resolved tree has at a node, answered from tables filled as for judging: how often a form is read and whether it is then widened,
//! what the name of a variable is, which component of its record mode a name is, where data and strings lie. Nothing is judged again.
#![tactic(auto)]

ghost use Rattle.std.specs.Prelude.{◌≡◌, ◌<◌, ◌^◌, IfSome, length, map, sum_by, take, option_map, slice_get};
ghost use Rattle.statics.specs.Scopes.{Text as Facts};
ghost use Rattle.statics.specs.JudgeExpressions.{number_of};
ghost use Rattle.texts.specs.Facts.{facts};
ghost use Rattle.resolved.specs.Places.{laid};
ghost use Rattle.resolved.specs.Grounds.{Ground, home_at};
ghost use Rattle.resolved.specs.ResolveExpressions.{resolve_name};
ghost use Rattle.resolved.specs.Reads.{plain_reads as plain_reads_of, reference_reads as reference_reads_of, reads as reads_of, widens_for};
ghost use Rattle.modes.specs.Meanings.{need_means, thing_means};
ghost use Rattle.scopes.specs.Meanings.{env_means, Answers};
ghost use Rattle.space.specs.Charges.{charge_means};
ghost use Rattle.resolving.specs.Meanings.{Grounds, OwnGround, known_means, part_means, component_parts, span_means};

use modes::{Mode, Need, Plain, Thing};
use scopes::{Class, Env};
use space::Charge;
use statics::Refusal;

/// Where what a variable's name stands for is kept: in a slot of the procedure, or as a data variable, told by the item that declares it.
#[derive(Clone, Copy, PartialEq, Eq, Debug)]
pub enum Held {
    Slot(usize),
    Stored(usize),
}

/// Where a data variable or a string lies: the item that declares it, its first place, how many it has.
#[derive(Clone, Copy, PartialEq, Eq, Debug)]
pub struct Span {
    pub item: usize,
    pub first: usize,
    pub size: usize,
}

/// How often what stands for this is read to have a number.
fn plain_reads(thing: Thing) -> usize
    ensures { (x : Facts) → result ≡ plain_reads_of (thing_means x thing) }
{
    match thing {
        Thing::Value(Mode::Ref(_)) | Thing::Place(_, Mode::Plain(_)) => 1,
        Thing::Place(..) => 2,
        _ => 0,
    }
}

/// How often it is read to have a reference.
fn reference_reads(thing: Thing) -> usize
    ensures { (x : Facts) → result ≡ reference_reads_of (thing_means x thing) }
{
    match thing {
        Thing::Place(_, Mode::Plain(_)) => 0,
        Thing::Place(..) => 1,
        _ => 0,
    }
}

/// How often the form of what stands for this is read, to meet a need.
pub fn reads(need: Need, thing: Thing) -> usize
    ensures { (x : Facts) → result ≡ reads_of (need_means x need) (thing_means x thing) }
{
    match need {
        Need::Mode(Mode::Plain(_)) | Need::Number => plain_reads(thing),
        Need::Scalar => 0,
        Need::Pointed => 1,
        _ => reference_reads(thing),
    }
}

/// Whether what is read is then widened: exactly where INT is needed of a BYTE.
pub fn widens(need: Need, thing: Thing) -> bool
    ensures { (x : Facts) → result ≡ widens_for (need_means x need) (number_of (thing_means x thing)) }
{
    matches!(
        (need, thing.number()),
        (Need::Mode(Mode::Plain(Plain::Int)), Some(Plain::Byte))
    )
}

/// Where the first names of a table are those of a module, `variable` tells what the resolved tree of that module has.
pub fn own_ground()
    ensures { OwnGround }
{}

/// The item that declares the `i`-th name, if that is one of the module's, which are the first `outer`; and else 0.
fn home_item(env: Env<'_>, outer: usize, i: usize) -> usize
    requires { i < length env.names.now }
    ensures { (G : Ground) → Grounds env.entry.names.now outer G → result ≡ (home_at G i).item }
{
    if i < outer { env.names[i].item } else { 0 }
}

/// What the name of a variable stands for, and where that is kept, the first `outer` names being the module's: what the tree has at the name, with any
/// list of the module's names whose items are those of the first `outer`. A data variable among the other names, which no module has, would have
/// the item 0.
pub fn variable(env: Env<'_>, outer: usize, item: usize) -> Result<(Thing, Held), Refusal>
    ensures { (G : Ground) → Grounds env.entry.names.now outer G → Answers (known_means (facts env.entry.text)) result (resolve_name G (env_means env.entry) item) }
{
    let i = env.called_at(item).ok_or(Refusal::WrongName(item))?;
    match env.names[i].class {
        Class::Stored(thing) => Ok((thing, Held::Stored(home_item(env, outer, i)))),
        Class::Local(mode) => Ok((
            Thing::Place(false, mode),
            Held::Slot(i.saturating_sub(outer)),
        )),
        _ => Err(Refusal::WrongName(item)),
    }
}

/// What the component of a record mode stands for that has the name, and its number among the components of that mode, the first having 0.
pub fn component(env: Env<'_>, owner: usize, item: usize) -> Option<(Thing, usize)>
    ensures { option_map (part_means (facts env.entry.text)) result ≡ component_parts (env_means env.entry) ((facts env.entry.text).word owner) item }
{
    let k = env.component_called(owner, item)?;
    let before = Env {
        parts: &env.parts[..k],
        ..env
    };
    Some((
        Thing::Place(true, env.parts[k].mode),
        before.components(owner),
    ))
}

/// How many places are charged; if they are more than a number can hold, the greatest number.
fn places(charges: &[Charge]) -> usize
    ensures { sum_by (λ c. c.amount) charges.now < 2 ^ 64 → result ≡ sum_by (λ c. c.amount) charges.now }
{
    let mut places = 0usize;
    for charge in charges {
        places = places.saturating_add(charge.amount);
    }
    places
}

/// Where the `i`-th data variable or string lies, if there is one: right behind those before it.
pub fn span_at(charges: &[Charge], i: usize) -> Option<Span>
    ensures { sum_by (λ c. c.amount) (take i charges.now) < 2 ^ 64 → option_map span_means result ≡ slice_get (laid 0 (map charge_means charges.now)) i }
{
    let charge = charges.get(i)?;
    Some(Span {
        item: charge.item,
        first: places(&charges[..i]),
        size: charge.amount,
    })
}
