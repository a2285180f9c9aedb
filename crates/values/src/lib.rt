//! Judging initial values in a data brick.
#![tactic(auto)]

ghost use Rattle.std.specs.Prelude.{◌≡◌, ℕ, ◌+◌, ◌*◌, ◌<◌, ◌≤◌, ◌^◌, length, Ok, Err, IfOk, MatchResult};
ghost use Rattle.grammar.specs.Trees.{Value, Values, Entry};
ghost use Rattle.nodes.specs.Nodes.{IsValue, IsValues, IsEntry};
ghost use Rattle.statics.specs.Scopes.{Text as Facts, record_modes};
ghost use Rattle.statics.specs.Values.{front_value as front_of, how_many as how_many_of, inner as inner_of, times, total};
ghost use Rattle.statics.specs.Space.{scalars as scalars_of, element_scalars as scalars_of_element};
ghost use Rattle.std.specs.List.{list_all};
ghost use Rattle.statics.specs.declared.Refusal.TheVariants.{Misfit};
ghost use Rattle.statics.specs.JudgeExpressions.{then, check as check_of};
ghost use Rattle.statics.specs.JudgeStatements.{is_plain};
ghost use Rattle.statics.specs.JudgeModules.{takes_integer, takes_name, takes_string, takes_list, repeats, element_starts, valueless, judge_value, judge_values, judge_entry};
ghost use Rattle.texts.specs.Facts.{facts};
ghost use Rattle.modes.specs.Meanings.{thing_means, element_means};
ghost use Rattle.scopes.specs.Meanings.{env_means, Answers};
ghost use Rattle.values.specs.Wants.{want_means};

use lists::{how_many, parted};
use modes::{Base, Element, Mode, Plain, Thing};
use nodes::{Node, node_at};
use scopes::Env;
use statics::Refusal;

/// What a value is to be put into.
#[derive(Clone, Copy)]
pub enum Want {
    /// Nothing in particular.
    Free,
    /// A place of a mode.
    Simply(Mode),
    /// An array of so many elements.
    Several(u16, Element),
    /// A record.
    Recorded(usize),
}

const BYTES: Element = Element {
    arrays: 0,
    base: Base::Plain(Plain::Byte),
};

impl Want {
    /// An integer, with a sign or without.
    fn takes_integer(self, signed: bool, value: u16) -> bool
        ensures { (x : Facts) → result ≡ takes_integer (want_means x self) signed value }
    {
        match self {
            Want::Free | Want::Simply(Mode::Plain(Plain::Int)) => true,
            Want::Simply(Mode::Plain(Plain::Byte)) => !signed && value < 256,
            _ => false,
        }
    }

    /// A name gives its address, never its contents.
    fn takes_name(self, thing: Thing, env: Env<'_>) -> bool
        ensures { result ≡ takes_name (want_means (facts env.entry.text) self) (thing_means (facts env.entry.text) thing) }
    {
        let Want::Simply(mode) = self else {
            return matches!(self, Want::Free);
        };
        match thing {
            Thing::Place(_, Mode::Plain(k)) => Mode::Ref(k).same(mode, env.text),
            Thing::Array(element) => Mode::RefArray(element).same(mode, env.text),
            Thing::Record(name) => Mode::RefRecord(name).same(mode, env.text),
            _ => false,
        }
    }

    /// A string of so many bytes.
    fn takes_string(self, size: usize, env: Env<'_>) -> bool
        ensures { result ≡ takes_string (want_means (facts env.entry.text) self) size }
    {
        match self {
            Want::Free => true,
            Want::Simply(mode) => Mode::RefArray(BYTES).same(mode, env.text),
            Want::Several(length, element) => BYTES.same(element, env.text)
                && usize::from(length) == size,
            Want::Recorded(_) => false,
        }
    }

    /// A list of so many values, with their repetitions so many.
    fn takes_list(self, values: usize, places: usize, env: Env<'_>) -> bool
        ensures { result ≡ takes_list (env_means env.entry) (want_means (facts env.entry.text) self) values places }
    {
        match self {
            Want::Free => true,
            Want::Simply(_) => false,
            Want::Several(length, _) => places == usize::from(length),
            Want::Recorded(name) => values == env.components(name),
        }
    }

    /// In a record's list no value is repeated.
    fn repeats(self) -> bool
        ensures { (x : Facts) → result ≡ repeats (want_means x self) }
    {
        !matches!(self, Want::Recorded(_))
    }

    /// What the value with the number k of a list is put into.
    fn inner(self, k: usize, env: Env<'_>) -> Want
        ensures { want_means (facts env.entry.text) result ≡ inner_of (env_means env.entry) (want_means (facts env.entry.text) self) k }
    {
        match self {
            Want::Several(_, element) => match element.thing() {
                Thing::Place(_, mode) => Want::Simply(mode),
                Thing::Record(name) => Want::Recorded(name),
                _ => Want::Free,
            },
            Want::Recorded(name) => env.component(name, k).map_or(Want::Free, Want::Simply),
            _ => Want::Free,
        }
    }

    /// Whether it needs no value: no REF place is in it.
    pub fn valueless(self, env: Env<'_>) -> bool
        ensures { result ≡ valueless (env_means env.entry) (want_means (facts env.entry.text) self) }
    {
        match self {
            Want::Free => true,
            Want::Simply(mode) => matches!(mode, Mode::Plain(_)),
            Want::Several(length, element) => length == 0 || starts(element, env),
            Want::Recorded(name) => plain_parts(name, env),
        }
    }

    /// How many scalars it has.
    pub fn scalars(self, env: Env<'_>) -> usize
        requires few { length env.parts.now < 2 ^ 32 }
        ensures { result ≡ scalars_of (env_means env.entry).parts (want_means (facts env.entry.text) self) }
    {
        match self {
            Want::Free => 0,
            Want::Simply(_) => 1,
            Want::Several(length, element) => usize::from(length) * element_scalars(element, env),
            Want::Recorded(name) => env.components(name),
        }
    }
}

/// Whether all components of a record mode are INT or BYTE.
fn plain_parts(name: usize, env: Env<'_>) -> bool
    ensures { result ≡ list_all is_plain (record_modes (env_means env.entry).parts ((facts env.entry.text).word name)) }
{
    env.parts
        .iter()
        .filter(|c| env.text.same_word(c.owner, name))
        .all(|c| matches!(c.mode, Mode::Plain(_)))
}

/// Whether an element needs no value.
fn starts(element: Element, env: Env<'_>) -> bool
    ensures { result ≡ element_starts (env_means env.entry) (element_means (facts env.entry.text) element) }
{
    match element.thing() {
        Thing::Place(_, mode) => matches!(mode, Mode::Plain(_)),
        Thing::Record(name) => plain_parts(name, env),
        _ => true,
    }
}

/// How many scalars an element has.
fn element_scalars(element: Element, env: Env<'_>) -> usize
    ensures is { result ≡ scalars_of_element (env_means env.entry).parts (element_means (facts env.entry.text) element) }
    ensures few { result ≤ length env.entry.parts.now + 1 }
{
    match element.thing() {
        Thing::Record(name) => env.components(name),
        _ => 1,
    }
}

/// A misfit, unless the test passes.
fn check(test: bool, item: usize) -> Result<(), Refusal>
    ensures { Answers (λ u. tt) result (check_of test (Misfit item)) }
{
    if test {
        Ok(())
    } else {
        Err(Refusal::Misfit(item))
    }
}

/// An integer, with or without a sign. Its first item is `front`.
fn integer(env: Env<'_>, want: Want, item: usize, signed: bool, front: usize) -> Result<(), Refusal>
    ensures { Answers (λ u. tt) result (check_of (takes_integer (want_means (facts env.entry.text) want) signed ((facts env.entry.text).value item)) (Misfit front)) }
{
    check(want.takes_integer(signed, env.text.value(item)), front)
}

/// The first item of a value.
fn front_value(nodes: &[Node], k: usize) -> usize
    ensures { (v : Value) → IsValue v nodes.now k → result ≡ front_of v }
{
    match node_at(nodes, k) {
        Node::Constant(item)
        | Node::Signed(item, _)
        | Node::MinusSigned(item, _)
        | Node::Identifier(item)
        | Node::Literal(item)
        | Node::EmptyList(item)
        | Node::List(item, _) => item,
        _ => 0,
    }
}

/// An initial value.
#[cycle(values)]
pub fn value(env: Env<'_>, nodes: &[Node], want: Want, k: usize) -> Result<(), Refusal>
    requires few { length nodes.now < 2 ^ 32 }
    ensures { (v : Value) → IsValue v nodes.now k → Answers (λ u. tt) result (judge_value (env_means env.entry) (want_means (facts env.entry.text) want) v) }
{
    match node_at(nodes, k) {
        Node::Constant(item) => integer(env, want, item, false, item),
        Node::Signed(sign, item) => integer(env, want, item, true, sign),
        Node::MinusSigned(sign, item) => integer(env, want, item, true, sign),
        Node::Identifier(item) => {
            let thing = env.keeps(item)?;
            check(want.takes_name(thing, env), item)
        }
        Node::Literal(item) => check(want.takes_string(env.text.size(item), env), item),
        Node::EmptyList(item) => check(want.takes_list(0, 0, env), item),
        Node::List(item, list) if list < k => {
            let (many, places) = values(env, nodes, want, list)?;
            check(want.takes_list(many, places, env), item)
        }
        // in a table that stands for a tree, a node names lower ones
        Node::List(item, _) => Err(Refusal::Misfit(item)),
        _ => Err(Refusal::Misfit(k)),
    }
}

/// The places of the values behind a value, and its own; or the first of them that is wrong.
fn added(times: Result<u16, Refusal>, places: Result<usize, Refusal>) -> Result<usize, Refusal>
    requires { IfOk places (λ p. p < 2 ^ 63) }
    ensures sum { result ≡ then times (λ n. then places (λ p. Ok (p + n))) }
    ensures few { (b : ℕ) → IfOk places (λ p. p ≤ b) → IfOk result (λ s. s ≤ b + 65535) }
{
    let times = times?;
    Ok(places? + usize::from(times))
}

/// The values of a list: how many they are, and how many with their repetitions. They are judged from the last to the first, so that a long list
/// takes no more of the stack than a short one.
#[cycle(values)]
fn values(env: Env<'_>, nodes: &[Node], want: Want, list: usize) -> Result<(usize, usize), Refusal>
    requires few { length nodes.now < 2 ^ 32 }
    requires low { list < 2 ^ 32 }
    ensures { (vs : Values) → IsValues vs nodes.now list → MatchResult result (λ r. (r.0 ≡ how_many_of vs) × (r.1 ≡ total (facts env.entry.text).value vs) × (judge_values (env_means env.entry) (want_means (facts env.entry.text) want) vs ≡ Ok tt)) (λ f. judge_values (env_means env.entry) (want_means (facts env.entry.text) want) vs ≡ Err f) }
{
    let many = how_many(nodes, list);
    let mut before = many;
    let mut places = Ok(0);
    let mut at = list;
    while let Some((front, last)) = parted(nodes, at) {
        before = before.saturating_sub(1);
        places = added(entry(env, nodes, want, before, last), places);
        at = front;
    }
    let places = added(entry(env, nodes, want, 0, at), places)?;
    Ok((many, places))
}

/// The value with the number `number` of a list: how often it stands there.
#[cycle(values)]
fn entry(env: Env<'_>, nodes: &[Node], want: Want, number: usize, k: usize) -> Result<u16, Refusal>
    requires few { length nodes.now < 2 ^ 32 }
    ensures { (e : Entry) → IsEntry e nodes.now k → MatchResult result (λ n. (n ≡ times (facts env.entry.text).value e) × (judge_entry (env_means env.entry) (want_means (facts env.entry.text) want) number e ≡ Ok tt)) (λ f. judge_entry (env_means env.entry) (want_means (facts env.entry.text) want) number e ≡ Err f) }
{
    let wanted = want.inner(number, env);
    match node_at(nodes, k) {
        Node::Repeated(repeated, _, times) if repeated < k => {
            value(env, nodes, wanted, repeated)?;
            check(want.repeats(), front_value(nodes, repeated))?;
            Ok(env.text.value(times))
        }
        _ => {
            value(env, nodes, wanted, k)?;
            Ok(1)
        }
    }
}
