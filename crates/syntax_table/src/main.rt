//! Reads each text of a table up to its syntax, and prints `ok`, or the place and the number of the decline.
#![tactic(auto)]

use answers::Decline;
use lexer::table::ItemTable;
use listing::table::expand;
use std::io;
use std::io::Write;
use syntax::{NodeTable, read};

/// Writes `PLACE NUMBER`.
fn show(out: &mut impl Write, decline: Decline) -> io::Result<()> {
    let place = decline.place().offset;
    let number = decline.number();
    write!(out, "{place} {number}")
}

fn main(rt: HostRuntime) -> anyhow::Result<()> {
    let mut out = rt.stdout();
    let mut items = ItemTable::new();
    let mut tree = NodeTable::new();
    for line in rt.lines(rt.alloc()) {
        let line = line?;
        let text = expand(rt.alloc(), line.as_str())?;
        write!(out, "{line} => ")?;
        match read(text.as_slice(), &mut items, &mut tree) {
            Ok(_) => out.write_all(b"ok")?,
            Err(decline) => show(&mut out, decline)?,
        }
        out.write_all(b"\n")?;
    }
    Ok(())
}
