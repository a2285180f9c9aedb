//! Prints the line of the verdict on the text on standard input.
#![tactic(auto)]

use answers::LINE_BYTES;
use std::alloc::Global;
use std::io::{Read, Write};
use verdicts::{WorkTable, judge};

/// A work table on the heap. It is made in a function of its own, so that none of its copies lies on the stack while a text is judged.
#[inline(never)]
fn work_table(heap: Global) -> anyhow::Result<Vec<WorkTable>> {
    let mut tables = Vec::new(heap);
    tables.push(WorkTable::new())?;
    Ok(tables)
}

fn main(rt: HostRuntime) -> anyhow::Result<()> {
    let mut input = Vec::new(rt.alloc());
    let _ = rt.stdin().read_to_end(&mut input)?;
    let mut tables = work_table(rt.alloc())?;
    // No error can come: the buffer has as many bytes as the longest line.
    let mut line = [0; LINE_BYTES];
    if let Some(table) = tables.first_mut()
        && let Ok(length) = judge(input.as_slice(), table, &mut line)
    {
        rt.stdout().write_all(&line[..length])?;
    }
    Ok(())
}
