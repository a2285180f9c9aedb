ghost use Rattle.std.specs.Prelude.{◌≡◌, ◌+◌, ◌%◌, ◌++◌, Some, Decides, codes};
ghost use Rattle.std.specs.Fmt.{decimal, signed_decimal};
ghost use Rattle.gatelog.specs.Entries.{Valid, encoded, decoded, Decodes};

use std::fmt;

/// One gate of a cabinet, 1 to 9, and where it stands.
#[derive(Clone, Copy, PartialEq, Eq, Debug)]
pub struct Entry {
    pub gate: u8,
    pub position: i16,
}

/// The check byte of a record.
fn check(gate: u8, high: u8, low: u8) -> u8
    ensures { result ≡ (gate + high + low) % 256 }
{
    gate.wrapping_add(high).wrapping_add(low)
}

impl Entry {
    /// Whether a cabinet has such a gate.
    pub fn is_valid(self) -> bool
        ensures { Decides result (Valid self) }
    {
        matches!(self.gate, 1..=9)
    }

    /// The record of the entry.
    // No `From`, nor `TryFrom` for `decode`: the names say what the bytes are, and an error would have nothing to tell.
    pub fn encode(self) -> [u8; 6]
        ensures bytes { result ≡ encoded self }
        ensures undone { Valid self → decoded result ≡ Some self }
    {
        let [high, low] = self.position.to_be_bytes();
        let sum = check(self.gate, high, low);
        [b'G', self.gate, high, low, sum, b'\n']
    }

    /// The entry whose record the bytes are, if there is one.
    pub fn decode(bytes: &[u8]) -> Option<Entry>
        ensures value { result ≡ decoded bytes.now }
        ensures undoes { Decodes bytes.now result }
    {
        let &[b'G', gate, high, low, sum, b'\n'] = bytes else {
            return None;
        };
        let position = i16::from_be_bytes([high, low]);
        let entry = Entry { gate, position };
        (sum == check(gate, high, low) && entry.is_valid()).then_some(entry)
    }
}

impl fmt::Display for Entry {
    ghost output = { λ e. Some (codes "gate " ++ (decimal e.gate ++ (codes " at " ++ signed_decimal e.position))) };

    fn fmt<W: fmt::Write>(&self, f: &mut fmt::Formatter<W>) -> fmt::Result {
        write!(f, "gate {} at {}", self.gate, self.position)
    }
}
