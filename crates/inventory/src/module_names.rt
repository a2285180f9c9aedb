//! The names of a module.
ghost use Rattle.std.specs.Prelude.{◌≡◌, ℕ, ◌+◌, List, [], ◌∷◌, ◌++◌, drop, length, map};
ghost use Rattle.grammar.specs.Trees.{Dec, Fields, Many, Mode as TreeMode, Moditem, Module, Opt};
ghost use Rattle.grammar.specs.Machine.{Sort, Declared as Entry};
ghost use Rattle.nodes.specs.Nodes.{At, IsDec, IsFields, IsMany, IsMode, IsModitem, IsModule, IsOpt};
ghost use Rattle.nodes.specs.declared.Node.TheVariants.{Heading};
ghost use Rattle.nodes.specs.Lists.{IsDeclared};
ghost use Rattle.statics.specs.Scopes.{Text as Facts, brick, routine as routine_of};
ghost use Rattle.statics.specs.Modes.{Mode as RuleMode};
ghost use Rattle.statics.specs.Written.{gather, site};
ghost use Rattle.statics.specs.Modules.{dec_names, maybe_mode as maybe_mode_of, moditem_names, parameters};
ghost use Rattle.modes.specs.declared.Mode.{Mode as ModeOf};
ghost use Rattle.modes.specs.Meanings.{mode_means};
ghost use Rattle.scopes.specs.Meanings.{classed};
ghost use Rattle.frames.specs.Frames.{Ahead, Kept, declared_names, site_means};
ghost use Rattle.frames.specs.Rooms.{moditem_takes};
ghost use Rattle.inventory.specs.Naming.{Fills, signature_of};

use crate::takes::{put_described, put_parameters};
use frames::filling::put;
use frames::maybe_mode;
use frames::naming::{put_declared, put_names};
use lists::entries;
use modes::written::{element_at, mode_at};
use modes::{Mode, Thing};
use nodes::{Node, node_at};
use scopes::{Class, Declared, Signature};

/// Where the entries begin that stand at the ends of the two tables: of names, and of what procedures take.
#[derive(Clone, Copy)]
pub struct Starts {
    pub names: usize,
    pub takes: usize,
}

/// The class of a procedure whose modes stand from `first` up to `end` in the table of all that procedures take.
fn routine(first: usize, end: usize, nodes: &[Node], gives: usize) -> Class
    ensures { (x : Facts) (m : Opt TreeMode) → IsOpt IsMode m nodes.now gives → (us : List RuleMode) → first + length us ≡ end → (ms : List ModeOf) (rest : List RuleMode) → map (mode_means x) (drop first ms) ≡ us ++ rest → classed x ms result ≡ routine_of (signature_of us (maybe_mode_of x m)) }
{
    Class::Routine(Signature {
        first,
        count: end.saturating_sub(first),
        gives: maybe_mode(nodes, gives),
    })
}

/// Puts the names of a declaration in a data brick in front of the others.
fn put_dec(names: &mut [Declared], start: usize, nodes: &[Node], k: usize) -> usize
    ensures kept { Kept start names.old result names.new }
    ensures put { (x : Facts) (ms : List ModeOf) (s : Sort) (d : Dec (Many (Entry s))) → IsDec (IsMany (IsDeclared s)) d nodes.now k → Ahead (site_means x ms) (dec_names x (declared_names s) d) start names.old result names.new }
{
    let (thing, list) = match node_at(nodes, k) {
        Node::Variables(mode, list) => (Thing::Place(true, mode_at(nodes, mode)), list),
        Node::Arrays(_, _, mode, list) => (Thing::Array(element_at(nodes, mode)), list),
        Node::Structures(name, list) => (Thing::Record(name), list),
        _ => return start,
    };
    put_declared(names, start, nodes, list, Class::Stored(thing))
}

/// Puts the names of the declarations in a data brick in front of the others.
fn put_decs(names: &mut [Declared], start: usize, nodes: &[Node], list: usize) -> usize
    ensures kept { Kept start names.old result names.new }
    ensures put { (x : Facts) (ms : List ModeOf) (s : Sort) (ds : Many (Dec (Many (Entry s)))) → IsMany (IsDec (IsMany (IsDeclared s))) ds nodes.now list → Ahead (site_means x ms) (gather (dec_names x (declared_names s)) ds) start names.old result names.new }
{
    let mut start = start;
    for declaration in entries(nodes, list) {
        start = put_dec(names, start, nodes, declaration);
    }
    start
}

/// Puts the name of a data brick and those in it in front of the others.
fn put_store(
    names: &mut [Declared],
    start: usize,
    nodes: &[Node],
    name: usize,
    list: usize,
) -> usize
    ensures kept { Kept start names.old result names.new }
    ensures put { (x : Facts) (ms : List ModeOf) (s : Sort) (ds : Many (Dec (Many (Entry s)))) → IsMany (IsDec (IsMany (IsDeclared s))) ds nodes.now list → Ahead (site_means x ms) (site brick name ∷ gather (dec_names x (declared_names s)) ds) start names.old result names.new }
{
    let start = put_decs(names, start, nodes, list);
    let class = Class::Brick;
    put(names, start, Declared { item: name, class })
}

/// Puts the name of a procedure in front of the others, and the modes that it takes.
fn put_procedure(
    names: &mut [Declared],
    takes: &mut [Mode],
    starts: Starts,
    nodes: &[Node],
    heading: usize,
) -> Starts
    ensures names { Kept starts.names names.old result.names names.new }
    ensures takes { Kept starts.takes takes.old result.takes takes.new }
    ensures put { (x : Facts) (n i p q : ℕ) (ps : Opt Fields) (m : Opt TreeMode) → At nodes.now heading (Heading n i p q) → IsOpt IsFields ps nodes.now p → IsOpt IsMode m nodes.now q → Fills x (map (λ f. f.mode) (parameters x ps)) (site (routine_of (signature_of (map (λ f. f.mode) (parameters x ps)) (maybe_mode_of x m))) n ∷ []) starts names.old takes.old result names.new takes.new }
{
    let Node::Heading(name, _, parameters, gives) = node_at(nodes, heading) else {
        return starts;
    };
    let first = put_parameters(takes, starts.takes, nodes, parameters);
    let class = routine(first, starts.takes, nodes, gives);
    Starts {
        names: put(names, starts.names, Declared { item: name, class }),
        takes: first,
    }
}

/// Puts the names that an item of a module declares in front of the others, and the modes that its procedures take.
fn put_moditem(
    names: &mut [Declared],
    takes: &mut [Mode],
    starts: Starts,
    nodes: &[Node],
    k: usize,
) -> Starts
    ensures names { Kept starts.names names.old result.names names.new }
    ensures takes { Kept starts.takes takes.old result.takes takes.new }
    ensures put { (x : Facts) (a : Moditem) → IsModitem a nodes.now k → Fills x (moditem_takes x a) (moditem_names x a) starts names.old takes.old result names.new takes.new }
{
    match node_at(nodes, k) {
        Node::ExternalProcs(_, modes, gives, list) => {
            let first = put_described(takes, starts.takes, nodes, modes);
            let class = routine(first, starts.takes, nodes, gives);
            Starts {
                names: put_names(names, starts.names, nodes, list, class),
                takes: first,
            }
        }
        Node::ExternalStore(name, list) => Starts {
            names: put_store(names, starts.names, nodes, name, list),
            ..starts
        },
        Node::RecordMode(item, _, _) => {
            let class = Class::RecordMode;
            Starts {
                names: put(names, starts.names, Declared { item, class }),
                ..starts
            }
        }
        Node::Own(brick) | Node::Ent(brick) => match node_at(nodes, brick) {
            Node::Store(name, list) => Starts {
                names: put_store(names, starts.names, nodes, name, list),
                ..starts
            },
            Node::Procedure(heading, _, _) => put_procedure(names, takes, starts, nodes, heading),
            _ => starts,
        },
        _ => starts,
    }
}

/// Puts the names of a module into a table, from its end, and the modes that its procedures take into another.
pub fn names_of_module(
    names: &mut [Declared],
    takes: &mut [Mode],
    starts: Starts,
    nodes: &[Node],
    root: usize,
) -> Starts
    ensures names { Kept starts.names names.old result.names names.new }
    ensures takes { Kept starts.takes takes.old result.takes takes.new }
    ensures put { (x : Facts) (m : Module) → IsModule m nodes.now root → Fills x (gather (moditem_takes x) m) (gather (moditem_names x) m) starts names.old takes.old result names.new takes.new }
{
    let mut starts = starts;
    for item in entries(nodes, root) {
        starts = put_moditem(names, takes, starts, nodes, item);
    }
    starts
}
