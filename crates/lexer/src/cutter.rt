//! The cut of a text into its items.
ghost use Rattle.lexer.specs.Tables.{items_of};
ghost use Rattle.lexer.specs.Steps.{Answered};

use crate::steps::{place, step};
use crate::table::ItemTable;
use answers::Decline;
use symbols::Entry;

/// How many bytes a text may have.
pub const MAX_BYTES: usize = 32_768;

/// Cuts the text into its items, which then stand in the table.
pub fn cut(text: &[u8], table: &mut ItemTable) -> Result<(), Decline>
    ensures { Answered text.now (items_of table.new) result }
{
    if text.len() > MAX_BYTES {
        return Err(Decline::TextTooLong);
    }
    table.clear();
    let mut room = Ok(());
    let mut at = 0;
    // No iterator of steps: it would be a struct with ghost members of its own, for this loop alone.
    while at < text.len() {
        let passed = step(text, at)?;
        if let Some(symbol) = passed.symbol {
            let entry = Entry {
                symbol,
                start: place(at),
                end: place(passed.end),
            };
            room = room.and(table.push(entry));
        }
        at = passed.end;
    }
    room
}
