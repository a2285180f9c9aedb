//! The names that lists declare, put into a table of names.
ghost use Rattle.std.specs.Prelude.{◌≡◌, ℕ, ◌≤◌, List, length, map, take};
ghost use Rattle.grammar.specs.Trees.{Fields, Locals, Many, Opt};
ghost use Rattle.grammar.specs.Machine.{Sort, Declared as Entry};
ghost use Rattle.nodes.specs.Nodes.{IsFields, IsLocals, IsMany, IsName, IsOpt};
ghost use Rattle.nodes.specs.Lists.{IsDeclared};
ghost use Rattle.statics.specs.Scopes.{Text as Facts};
ghost use Rattle.statics.specs.Written.{site};
ghost use Rattle.statics.specs.Statements.{entries as names_of_locals};
ghost use Rattle.statics.specs.Modules.{fields, names_of, parameters};
ghost use Rattle.modes.specs.declared.Mode.{Mode as ModeOf};
ghost use Rattle.scopes.specs.Meanings.{classed};
ghost use Rattle.frames.specs.Frames.{Ahead, Behind, Kept, declared_names, site_means, part_site, parameter_site};

use crate::fields::field_at;
use crate::filling::{move_to_front, put};
use lists::entries;
use modes::written::mode_at;
use nodes::{Node, node_at};
use scopes::{Class, Declared};

/// Puts the names of a list of names in front of the others.
pub fn put_names(
    names: &mut [Declared],
    start: usize,
    nodes: &[Node],
    list: usize,
    class: Class,
) -> usize
    ensures kept { Kept start names.old result names.new }
    ensures put { (x : Facts) (ms : List ModeOf) (ns : Many ℕ) → IsMany IsName ns nodes.now list → Ahead (site_means x ms) (map (site (classed x ms class)) (names_of ns)) start names.old result names.new }
{
    let mut start = start;
    for name in entries(nodes, list) {
        if let Node::Name(item) = node_at(nodes, name) {
            start = put(names, start, Declared { item, class });
        }
    }
    start
}

/// Puts the names of a declaration in front of the others, with or without values.
pub fn put_declared(
    names: &mut [Declared],
    start: usize,
    nodes: &[Node],
    list: usize,
    class: Class,
) -> usize
    ensures kept { Kept start names.old result names.new }
    ensures put { (x : Facts) (ms : List ModeOf) (s : Sort) (is : Many (Entry s)) → IsMany (IsDeclared s) is nodes.now list → Ahead (site_means x ms) (map (site (classed x ms class)) (declared_names s is)) start names.old result names.new }
{
    let mut start = start;
    for declared in entries(nodes, list) {
        match node_at(nodes, declared) {
            Node::Plain(item) | Node::Name(item) => {
                start = put(names, start, Declared { item, class });
            }
            Node::Given(shared, _) => start = put_names(names, start, nodes, shared, class),
            _ => {}
        }
    }
    start
}

/// Puts the names of declarations of locals in front of the others.
pub fn put_locals(names: &mut [Declared], start: usize, nodes: &[Node], locals: usize) -> usize
    ensures kept { Kept start names.old result names.new }
    ensures put { (x : Facts) (ms : List ModeOf) (ls : Locals) → IsLocals ls nodes.now locals → Ahead (site_means x ms) (names_of_locals x ls) start names.old result names.new }
{
    let mut start = start;
    for declaration in entries(nodes, locals) {
        if let Node::Local(mode, list) = node_at(nodes, declaration) {
            let class = Class::Local(mode_at(nodes, mode));
            start = put_declared(names, start, nodes, list, class);
        }
    }
    start
}

/// Puts the names of components in front of the others.
fn put_components(names: &mut [Declared], start: usize, nodes: &[Node], list: usize) -> usize
    ensures kept { Kept start names.old result names.new }
    ensures put { (x : Facts) (ms : List ModeOf) (fs : Fields) → IsFields fs nodes.now list → Ahead (site_means x ms) (map part_site (fields x fs)) start names.old result names.new }
{
    let mut start = start;
    for field in entries(nodes, list) {
        let item = field_at(nodes, field).item;
        let class = Class::Part;
        start = put(names, start, Declared { item, class });
    }
    start
}

/// Puts the names of parameters in front of the others.
fn put_parameters(names: &mut [Declared], start: usize, nodes: &[Node], list: usize) -> usize
    ensures kept { Kept start names.old result names.new }
    ensures put { (x : Facts) (ms : List ModeOf) (ps : Opt Fields) → IsOpt IsFields ps nodes.now list → Ahead (site_means x ms) (map parameter_site (parameters x ps)) start names.old result names.new }
{
    let mut start = start;
    for field in entries(nodes, list) {
        let parameter = field_at(nodes, field);
        let class = Class::Local(parameter.mode);
        start = put(
            names,
            start,
            Declared {
                item: parameter.item,
                class,
            },
        );
    }
    start
}

/// Puts the names of a block behind the first `count` of the table, and answers how many stand there then.
pub fn declare_locals(names: &mut [Declared], count: usize, nodes: &[Node], locals: usize) -> usize
    ensures length { length names.new ≡ length names.old }
    ensures front { take count names.new ≡ take count names.old }
    ensures grows { count ≤ result }
    ensures behind { (x : Facts) (ms : List ModeOf) (ls : Locals) → IsLocals ls nodes.now locals → Behind (site_means x ms) (names_of_locals x ls) count names.old result names.new }
{
    if count > names.len() {
        return count;
    }
    let room = &mut names[count..];
    let end = room.len();
    let start = put_locals(room, end, nodes, locals);
    count + move_to_front(room, start)
}

/// Puts the names of components behind the first `count` of the table, and answers how many stand there then.
pub fn declare_components(
    names: &mut [Declared],
    count: usize,
    nodes: &[Node],
    list: usize,
) -> usize
    ensures length { length names.new ≡ length names.old }
    ensures front { take count names.new ≡ take count names.old }
    ensures grows { count ≤ result }
    ensures behind { (x : Facts) (ms : List ModeOf) (fs : Fields) → IsFields fs nodes.now list → Behind (site_means x ms) (map part_site (fields x fs)) count names.old result names.new }
{
    if count > names.len() {
        return count;
    }
    let room = &mut names[count..];
    let end = room.len();
    let start = put_components(room, end, nodes, list);
    count + move_to_front(room, start)
}

/// Puts the names of parameters behind the first `count` of the table, and answers how many stand there then.
pub fn declare_parameters(
    names: &mut [Declared],
    count: usize,
    nodes: &[Node],
    list: usize,
) -> usize
    ensures length { length names.new ≡ length names.old }
    ensures front { take count names.new ≡ take count names.old }
    ensures grows { count ≤ result }
    ensures behind { (x : Facts) (ms : List ModeOf) (ps : Opt Fields) → IsOpt IsFields ps nodes.now list → Behind (site_means x ms) (map parameter_site (parameters x ps)) count names.old result names.new }
{
    if count > names.len() {
        return count;
    }
    let room = &mut names[count..];
    let end = room.len();
    let start = put_parameters(room, end, nodes, list);
    count + move_to_front(room, start)
}
