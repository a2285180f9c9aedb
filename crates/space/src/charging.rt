//! What the names and strings of a module add to its places, put into a table from the last to the first.
ghost use Rattle.std.specs.Prelude.{ℕ, ◌<◌, ◌^◌, length, map};
ghost use Rattle.grammar.specs.Trees.{Brick, Dec, Init, Many, Moditem, Module, Value};
ghost use Rattle.nodes.specs.Nodes.{IsBrick, IsDec, IsInit, IsMany, IsModitem, IsModule, IsName, IsValue};
ghost use Rattle.statics.specs.Modules.{names_of};
ghost use Rattle.statics.specs.Written.{gather};
ghost use Rattle.statics.specs.Space.{brick_charges, dec_charges, item_charges, moditem_charges};
ghost use Rattle.texts.specs.Facts.{facts};
ghost use Rattle.scopes.specs.Meanings.{env_means};
ghost use Rattle.frames.specs.Frames.{Ahead, Kept};
ghost use Rattle.space.specs.Charges.{charge, charge_means};

use crate::Charge;
use crate::strings::put_strings;
use frames::filling::put;
use lists::entries;
use modes::written::{element_at, mode_at};
use nodes::{Node, node_at};
use scopes::Env;
use texts::Text;
use values::Want;

/// So much for each name of a list.
fn put_shared(
    charges: &mut [Charge],
    start: usize,
    nodes: &[Node],
    amount: usize,
    list: usize,
) -> usize
    ensures kept { Kept start charges.old result charges.new }
    ensures put { (ns : Many ℕ) → IsMany IsName ns nodes.now list → Ahead charge_means (map (charge amount) (names_of ns)) start charges.old result charges.new }
{
    let mut start = start;
    for name in entries(nodes, list) {
        if let Node::Name(item) = node_at(nodes, name) {
            start = put(charges, start, Charge { item, amount });
        }
    }
    start
}

/// What is declared, with or without a value: so much for each name, and the strings of the value.
fn put_item(
    text: Text<'_>,
    charges: &mut [Charge],
    start: usize,
    nodes: &[Node],
    amount: usize,
    k: usize,
) -> usize
    ensures kept { Kept start charges.old result charges.new }
    ensures put { (i : Init Value) → IsInit IsValue i nodes.now k → Ahead charge_means (item_charges (facts text.entry) amount i) start charges.old result charges.new }
{
    match node_at(nodes, k) {
        Node::Plain(item) => put(charges, start, Charge { item, amount }),
        Node::Given(shared, value) => {
            let start = put_strings(charges, start, text, nodes, value);
            put_shared(charges, start, nodes, amount, shared)
        }
        _ => start,
    }
}

/// The items of a declaration, each name of which has so many places.
fn put_items(
    text: Text<'_>,
    charges: &mut [Charge],
    start: usize,
    nodes: &[Node],
    amount: usize,
    list: usize,
) -> usize
    ensures kept { Kept start charges.old result charges.new }
    ensures put { (is : Many (Init Value)) → IsMany (IsInit IsValue) is nodes.now list → Ahead charge_means (gather (item_charges (facts text.entry) amount) is) start charges.old result charges.new }
{
    let mut start = start;
    for item in entries(nodes, list) {
        start = put_item(text, charges, start, nodes, amount, item);
    }
    start
}

/// A declaration of a data brick.
fn put_dec(env: Env<'_>, charges: &mut [Charge], start: usize, nodes: &[Node], k: usize) -> usize
    requires few { length env.parts.now < 2 ^ 32 }
    ensures kept { Kept start charges.old result charges.new }
    ensures put { (d : Dec (Many (Init Value))) → IsDec (IsMany (IsInit IsValue)) d nodes.now k → Ahead charge_means (dec_charges (facts env.entry.text) (env_means env.entry).parts d) start charges.old result charges.new }
{
    let (want, list) = match node_at(nodes, k) {
        Node::Variables(mode, list) => (Want::Simply(mode_at(nodes, mode)), list),
        Node::Arrays(_, length, mode, list) => (
            Want::Several(env.text.value(length), element_at(nodes, mode)),
            list,
        ),
        Node::Structures(name, list) => (Want::Recorded(name), list),
        _ => return start,
    };
    put_items(env.text, charges, start, nodes, want.scalars(env), list)
}

/// The declarations of a data brick.
fn put_store(
    env: Env<'_>,
    charges: &mut [Charge],
    start: usize,
    nodes: &[Node],
    list: usize,
) -> usize
    requires few { length env.parts.now < 2 ^ 32 }
    ensures kept { Kept start charges.old result charges.new }
    ensures put { (ds : Many (Dec (Many (Init Value)))) → IsMany (IsDec (IsMany (IsInit IsValue))) ds nodes.now list → Ahead charge_means (gather (dec_charges (facts env.entry.text) (env_means env.entry).parts) ds) start charges.old result charges.new }
{
    let mut start = start;
    for declaration in entries(nodes, list) {
        start = put_dec(env, charges, start, nodes, declaration);
    }
    start
}

/// A data brick or a procedure.
fn put_brick(env: Env<'_>, charges: &mut [Charge], start: usize, nodes: &[Node], k: usize) -> usize
    requires few { length env.parts.now < 2 ^ 32 }
    ensures kept { Kept start charges.old result charges.new }
    ensures put { (b : Brick) → IsBrick b nodes.now k → Ahead charge_means (brick_charges (facts env.entry.text) (env_means env.entry).parts b) start charges.old result charges.new }
{
    match node_at(nodes, k) {
        Node::Store(_, list) => put_store(env, charges, start, nodes, list),
        Node::Procedure(_, body, _) => put_strings(charges, start, env.text, nodes, body),
        _ => start,
    }
}

/// An item of a module.
fn put_moditem(
    env: Env<'_>,
    charges: &mut [Charge],
    start: usize,
    nodes: &[Node],
    k: usize,
) -> usize
    requires few { length env.parts.now < 2 ^ 32 }
    ensures kept { Kept start charges.old result charges.new }
    ensures put { (a : Moditem) → IsModitem a nodes.now k → Ahead charge_means (moditem_charges (facts env.entry.text) (env_means env.entry).parts a) start charges.old result charges.new }
{
    match node_at(nodes, k) {
        Node::Own(brick) | Node::Ent(brick) => put_brick(env, charges, start, nodes, brick),
        _ => start,
    }
}

/// The items of a module.
pub fn put_module(
    env: Env<'_>,
    charges: &mut [Charge],
    start: usize,
    nodes: &[Node],
    root: usize,
) -> usize
    requires few { length env.parts.now < 2 ^ 32 }
    ensures kept { Kept start charges.old result charges.new }
    ensures put { (m : Module) → IsModule m nodes.now root → Ahead charge_means (gather (moditem_charges (facts env.entry.text) (env_means env.entry).parts) m) start charges.old result charges.new }
{
    let mut start = start;
    for item in entries(nodes, root) {
        start = put_moditem(env, charges, start, nodes, item);
    }
    start
}
