//! Prints the outline of the module on standard input, a line for each of its items, or the line of its decline.
#![tactic(auto)]

mod module;

use lexer::table::ItemTable;
use listing::show_decline;
use module::Module;
use std::io::Read;
use syntax::{NodeTable, read};

fn main(rt: HostRuntime) -> anyhow::Result<()> {
    let mut input = Vec::new(rt.alloc());
    let _ = rt.stdin().read_to_end(&mut input)?;
    let text = input.as_slice();
    let mut out = rt.stdout();
    let mut items = ItemTable::new();
    let mut tree = NodeTable::new();
    match read(text, &mut items, &mut tree) {
        Ok(root) => {
            let module = Module {
                text,
                items: items.items(),
                nodes: &tree.nodes,
            };
            module.show(rt.alloc(), &mut out, root)
        }
        Err(decline) => Ok(show_decline(&mut out, decline, text)?),
    }
}
