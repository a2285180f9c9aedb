//! Items and declines as the programs print them.
#![tactic(auto)]

pub mod table;

use answers::{Decline, LINE_BYTES};
use scanner::item::Item;
use scanner::value::integer_value;
use std::io;
use std::io::Write;

/// Writes `KIND TEXT`, and the value of an integer.
pub fn show_item(out: &mut impl Write, item: Item<'_>) -> io::Result<()> {
    // The item's text is bytes, which `{}` does not print.
    let kind = item.kind();
    write!(out, "{kind} ")?;
    out.write_all(item.bytes())?;
    if let Item::Integer(bytes) = item
        && let Some(value) = integer_value(bytes)
    {
        write!(out, " = {value}")?;
    }
    Ok(())
}

/// Writes the line of a decline of the text.
pub fn show_decline(out: &mut impl Write, decline: Decline, text: &[u8]) -> io::Result<()> {
    // A buffer and a length: the line is written as the call `judge` will hand it out.
    let mut line = [0; LINE_BYTES];
    if let Some(length) = decline.write_line(text, &mut line) {
        out.write_all(&line[..length])?;
    }
    Ok(())
}
