//! The modes of what procedures take.
ghost use Rattle.std.specs.Prelude.{map};
ghost use Rattle.grammar.specs.Trees.{Fields, Many, Mode as TreeMode, Opt};
ghost use Rattle.nodes.specs.Nodes.{IsFields, IsMany, IsMode, IsOpt};
ghost use Rattle.statics.specs.Scopes.{Text as Facts};
ghost use Rattle.statics.specs.Modules.{modes, parameters};
ghost use Rattle.modes.specs.Meanings.{mode_means};
ghost use Rattle.frames.specs.Frames.{Ahead, Kept};

use frames::fields::field_at;
use frames::filling::put;
use lists::entries;
use modes::Mode;
use modes::written::mode_at;
use nodes::Node;

/// Puts the modes of parameters in front of the others.
pub fn put_parameters(takes: &mut [Mode], start: usize, nodes: &[Node], list: usize) -> usize
    ensures kept { Kept start takes.old result takes.new }
    ensures put { (x : Facts) (ps : Opt Fields) → IsOpt IsFields ps nodes.now list → Ahead (mode_means x) (map (λ f. f.mode) (parameters x ps)) start takes.old result takes.new }
{
    let mut start = start;
    for field in entries(nodes, list) {
        start = put(takes, start, field_at(nodes, field).mode);
    }
    start
}

/// Puts the modes that a description lists in front of the others.
pub fn put_described(takes: &mut [Mode], start: usize, nodes: &[Node], list: usize) -> usize
    ensures kept { Kept start takes.old result takes.new }
    ensures put { (x : Facts) (ms : Opt (Many TreeMode)) → IsOpt (IsMany IsMode) ms nodes.now list → Ahead (mode_means x) (modes x ms) start takes.old result takes.new }
{
    let mut start = start;
    for mode in entries(nodes, list) {
        start = put(takes, start, mode_at(nodes, mode));
    }
    start
}
