//! The static rules of a module, stage by stage over its tree: names declared twice; unknown names, misfits and references without a value;
//! places of data and strings; parameters and locals.
#![tactic(auto)]

ghost use Rattle.std.specs.Prelude.{◌≡◌, ◌≤◌, ◌<◌, ◌^◌, List, None, length, map, take};
ghost use Rattle.grammar.specs.declared.Symbol.{Symbol};
ghost use Rattle.grammar.specs.Sentences.{Made};
ghost use Rattle.grammar.specs.Trees.{Module};
ghost use Rattle.nodes.specs.Nodes.{IsModule};
ghost use Rattle.statics.specs.Order.{InModule};
ghost use Rattle.statics.specs.Written.{gather};
ghost use Rattle.statics.specs.Modules.{moditem_names, moditem_parts};
ghost use Rattle.statics.specs.Space.{charges as charges_of};
ghost use Rattle.statics.specs.JudgeLimits.{judge_static};
ghost use Rattle.texts.specs.Facts.{facts};
ghost use Rattle.scopes.specs.Meanings.{Answers, component_means};
ghost use Rattle.frames.specs.Frames.{site_means};
ghost use Rattle.frames.specs.Rooms.{Room};
ghost use Rattle.checker.specs.Filled.{Filled};
ghost use Rattle.checker.specs.Blanks.{blank_tables};

use frames::Frame;
use frames::filling::move_to_front;
use inventory::components::parts_of_module;
use inventory::module_names::{Starts, names_of_module};
use lexer::table::MAX_ITEMS;
use limits::crowds::crowds;
use limits::twice::declared_twice;
use modes::{INT, Mode};
use moditems::module;
use nodes::Node;
use scopes::{Class, Component, Declared};
use space::{Charge, space};
use statics::Refusal;
use syntax::NodeTable;
use texts::Text;

/// The tables that checking a module fills: none of them needs more entries than the text has items.
#[derive(Clone, Copy)]
pub struct CheckTable {
    names: [Declared; MAX_ITEMS],
    parts: [Component; MAX_ITEMS],
    takes: [Mode; MAX_ITEMS],
    charges: [Charge; MAX_ITEMS],
}

impl CheckTable {
    /// Tables in which nothing stands yet.
    pub fn new() -> CheckTable
        ensures { result ≡ blank_tables }
    {
        let name = Declared {
            item: 0,
            class: Class::Brick,
        };
        let part = Component {
            owner: 0,
            item: 0,
            mode: INT,
        };
        CheckTable {
            names: [name; MAX_ITEMS],
            parts: [part; MAX_ITEMS],
            takes: [INT; MAX_ITEMS],
            charges: [Charge { item: 0, amount: 0 }; MAX_ITEMS],
        }
    }
}

/// The four stages, each only where those before it find nothing, of a module whose names and components stand in the tables.
fn stages(
    frame: Frame<'_>,
    names: &mut [Declared],
    charges: &mut [Charge],
    nodes: &[Node],
    root: usize,
) -> Result<(), Refusal>
    requires few { length nodes.now < 2 ^ 32 }
    requires parts { length frame.parts.now < 2 ^ 32 }
    ensures { (m : Module) → IsModule m nodes.now root → Room InModule m 0 (length names.old) → Filled frame.entry m names.old → length (charges_of (facts frame.entry.text) m) ≤ length charges.old → Answers (λ u. tt) result (judge_static (facts frame.entry.text) m) }
{
    declared_twice(frame.text, names, frame.count, nodes, root)?;
    module(frame, names, nodes, root)?;
    space(frame.env(names), nodes, root, charges)?;
    crowds(names, frame.count, nodes, root)
}

/// What is wrong with the module whose tree has its root at `root`, if anything is.
pub fn check(
    text: Text<'_>,
    tree: &NodeTable,
    root: usize,
    tables: &mut CheckTable,
) -> Result<(), Refusal>
    ensures { (m : Module) (w : List Symbol) → Made m w → length w ≤ 4096 → IsModule m tree.now.nodes root → Answers (λ u. tt) result (judge_static (facts text.entry) m) }
{
    let nodes = &tree.nodes;
    let CheckTable {
        names,
        parts,
        takes,
        charges,
    } = tables;
    let ends = Starts {
        names: MAX_ITEMS,
        takes: MAX_ITEMS,
    };
    let starts = names_of_module(names, takes, ends, nodes, root);
    let count = move_to_front(names, starts.names);
    let first = parts_of_module(parts, MAX_ITEMS, nodes, root);
    let frame = Frame {
        text,
        count,
        ready: count,
        parts: &parts[first..],
        takes,
        result: None,
    };
    stages(frame, names, charges, nodes, root)
}
