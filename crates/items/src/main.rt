//! Cuts the text on standard input into its items and prints them, one to a line, or the line of the decline.
#![tactic(auto)]

use lexer::cutter::cut;
use lexer::table::{ItemTable, item_of};
use listing::{show_decline, show_item};
use std::io;
use std::io::{Read, Write};
use symbols::Entry;

/// Writes `LINE:COLUMN: KIND TEXT`, and the value of an integer.
fn show(out: &mut impl Write, text: &[u8], entry: Entry) -> io::Result<()> {
    let line = entry.start.line(text);
    let column = entry.start.column(text);
    write!(out, "{line}:{column}: ")?;
    show_item(out, item_of(text, entry))?;
    out.write_all(b"\n")
}

fn main(rt: HostRuntime) -> io::Result<()> {
    let mut input = Vec::new(rt.alloc());
    let _ = rt.stdin().read_to_end(&mut input)?;
    let text = input.as_slice();
    let mut out = rt.stdout();
    let mut table = ItemTable::new();
    match cut(text, &mut table) {
        Ok(()) => {
            for entry in table.items() {
                show(&mut out, text, *entry)?;
            }
            Ok(())
        }
        Err(decline) => show_decline(&mut out, decline, text),
    }
}
