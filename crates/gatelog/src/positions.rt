ghost use Rattle.std.specs.Prelude.{◌≡◌, ℕ, ◌≤◌, []};
ghost use Rattle.gatelog.specs.Restored.{entries, moved, position_of, Stands};

use crate::entries::Entry;

/// Where each gate of a cabinet stands, as far as that is known.
#[derive(Clone, Copy)]
pub struct Positions {
    gates: [Option<i16>; 9],
}

impl Positions {
    /// Nothing is known of any gate.
    pub fn unknown() -> Positions
        ensures { Stands result [] }
    {
        Positions { gates: [None; 9] }
    }

    /// The position of a gate, where it is known. There are the gates 1 to 9.
    pub fn of_gate(&self, gate: u8) -> Option<i16>
        ensures { result ≡ position_of self.now gate }
    {
        let index = usize::from(gate).checked_sub(1)?;
        *self.gates.get(index)?
    }

    /// The entry overtakes what was known of its gate. The other gates stay, and all do where there is no
    /// such gate.
    pub fn note(&mut self, entry: Entry)
        ensures { (gate : ℕ) → 1 ≤ gate → gate ≤ 9 → position_of self.new gate ≡ moved gate entry (position_of self.old gate) }
    {
        if entry.is_valid() {
            self.gates[usize::from(entry.gate) - 1] = Some(entry.position);
        }
    }
}

/// The positions that the complete records in the bytes leave.
pub fn restore(bytes: &[u8]) -> Positions
    ensures { Stands result (entries bytes.now) }
{
    let mut positions = Positions::unknown();
    for record in bytes.chunks_exact(6) {
        if let Some(entry) = Entry::decode(record) {
            positions.note(entry);
        }
    }
    positions
}
