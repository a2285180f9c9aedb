//! Prints the line of the verdict on each text of a table.
#![tactic(auto)]

use answers::LINE_BYTES;
use listing::table::expand;
use std::io::Write;
use verdicts::{WorkTable, judge};

fn main(rt: HostRuntime) -> anyhow::Result<()> {
    let mut out = rt.stdout();
    let mut table = WorkTable::new();
    let mut buffer = [0; LINE_BYTES];
    for line in rt.lines(rt.alloc()) {
        let line = line?;
        let text = expand(rt.alloc(), line.as_str())?;
        // No error can come: only a buffer that is shorter than the longest line has one, and this one has its 16 bytes.
        if let Ok(length) = judge(text.as_slice(), &mut table, &mut buffer) {
            out.write_all(&buffer[..length])?;
        }
    }
    Ok(())
}
