//! Cuts the text on standard input as often as the argument says, and prints how many items the rounds gave together.
#![tactic(auto)]

use lexer::cutter::cut;
use lexer::table::ItemTable;
use std::env;
use std::io::Read;

/// Cuts the text so often, and adds up the items.
fn rounds(text: &[u8], count: u32) -> u64 {
    let mut table = ItemTable::new();
    let mut total: u64 = 0;
    for _ in 0..count {
        if cut(text, &mut table).is_ok() {
            // `as`: there is no `From` from `usize`, and an error of `try_from` would never come.
            total = total.wrapping_add(table.items().len() as u64);
        }
    }
    total
}

fn main(rt: HostRuntime) -> anyhow::Result<()> {
    let mut args = env::args(&rt)?;
    let count = args.nth(1).map_or(Ok(1), |word| word.parse::<u32>())?;
    let mut input = Vec::new(rt.alloc());
    let _ = rt.stdin().read_to_end(&mut input)?;
    let total = rounds(input.as_slice(), count);
    println!(rt; "{total}")?;
    Ok(())
}
