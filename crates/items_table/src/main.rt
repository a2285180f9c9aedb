//! Cuts each text of a table and prints what comes of it.
#![tactic(auto)]

use lexer::cutter::cut;
use lexer::table::{ItemTable, item_of};
use listing::table::expand;
use listing::{show_decline, show_item};
use std::io;
use std::io::Write;
use symbols::Entry;

/// More items than this are only counted.
const SHOWN: usize = 8;

/// Writes the items, or their number.
fn show_items(out: &mut impl Write, text: &[u8], items: &[Entry]) -> io::Result<()> {
    if items.len() > SHOWN {
        let count = items.len();
        return write!(out, " {count} items");
    }
    for entry in items {
        out.write_all(b" | ")?;
        show_item(out, item_of(text, *entry))?;
    }
    Ok(())
}

/// Writes what comes of a text: its items, or their number, or the line of the decline.
fn try_text(out: &mut impl Write, table: &mut ItemTable, text: &[u8]) -> io::Result<()> {
    match cut(text, table) {
        Ok(()) => {
            show_items(out, text, table.items())?;
            out.write_all(b"\n")
        }
        Err(decline) => {
            out.write_all(b" ")?;
            show_decline(out, decline, text)
        }
    }
}

fn main(rt: HostRuntime) -> anyhow::Result<()> {
    let mut out = rt.stdout();
    let mut table = ItemTable::new();
    for line in rt.lines(rt.alloc()) {
        let line = line?;
        let text = expand(rt.alloc(), line.as_str())?;
        write!(out, "{line} =>")?;
        try_text(&mut out, &mut table, text.as_slice())?;
    }
    Ok(())
}
