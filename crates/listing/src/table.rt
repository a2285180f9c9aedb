//! Tables of texts. A line of a table is a count, a space and a text that stands so often; in it `\n`, `\t`, `\0`, `\d` and `\e` are the
//! bytes 10, 9, 0, 127 and 233, and `\` before any other byte is that byte.
ghost use Rattle.std.specs.Prelude.{◌≡◌, ◌++◌, IfOk};
ghost use Rattle.listing.specs.Escapes.{escaped_byte, unescaped, line_text};

use anyhow::Context;
use std::alloc::{AllocError, Global};

/// The byte that stands for an escape.
fn escaped(b: u8) -> u8
    ensures { result ≡ escaped_byte b }
{
    match b {
        b'n' => 10,
        b't' => 9,
        b'0' => 0,
        b'd' => 127,
        b'e' => 233,
        _ => b,
    }
}

/// Adds the text to the bytes, with its escapes taken away.
fn add(bytes: &mut Vec<u8>, text: &[u8]) -> Result<(), AllocError>
    ensures { IfOk result (λ _. bytes.new.items ≡ bytes.old.items ++ unescaped text.now) }
{
    let mut rest = text.iter();
    while let Some(b) = rest.next() {
        if *b != b'\\' {
            bytes.push(*b)?;
        } else if let Some(b) = rest.next() {
            bytes.push(escaped(*b))?;
        }
    }
    Ok(())
}

/// The text of a line of the table.
#[tactic(auto, using(crate::proofs::Escaping::repeat_more))]
pub fn expand(heap: Global, line: &str) -> anyhow::Result<Vec<u8>>
    ensures { IfOk result (λ bytes. bytes.items ≡ line_text line.now) }
{
    let (count, text) = line.split_once(' ').context("no count")?;
    let mut bytes = Vec::new(heap);
    for _ in 0..count.parse::<u32>()? {
        add(&mut bytes, text.as_bytes())?;
    }
    Ok(bytes)
}
