ghost use Rattle.std.specs.Prelude.{Decides};
ghost use Rattle.gatelog.specs.Commands.{Figures, Understood, ReadPosition};

use crate::entries::Entry;

/// What a line of input asks of the logger.
#[derive(Clone, Copy)]
pub enum Command {
    /// `gate N POSITION`
    Record(Entry),
    /// `flush`
    Flush,
    /// `off`
    Off,
}

/// Whether a text is one to five figures.
fn are_figures(text: &[u8]) -> bool
    ensures { Decides result (Figures text.now) }
{
    if text.is_empty() || text.len() > 5 {
        return false;
    }
    text.iter().all(|b| b.is_ascii_digit())
}

/// The position that a text writes.
fn position(text: &[u8]) -> Option<i16>
    ensures { ReadPosition text.now result }
{
    let figures = text.strip_prefix(b"-").unwrap_or(text);
    if !are_figures(figures) {
        return None;
    }
    str::from_utf8(text).ok()?.parse().ok()
}

impl Command {
    /// The command that a line says.
    // No `FromStr`: a line is bytes, and need not be text.
    pub fn read(line: &[u8]) -> Option<Command>
        ensures { Understood line.now result }
    {
        match line {
            b"flush" => Some(Command::Flush),
            b"off" => Some(Command::Off),
            _ => {
                let gate_line = line.strip_prefix(b"gate ")?;
                let [gate @ b'1'..=b'9', b' ', text @ ..] = gate_line else {
                    return None;
                };
                let gate = *gate - b'0';
                let position = position(text)?;
                Some(Command::Record(Entry { gate, position }))
            }
        }
    }
}
