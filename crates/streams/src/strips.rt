ghost use Rattle.std.specs.Prelude.{◌≡◌, []};
ghost use Rattle.streams.specs.Recorders.{empty};

use crate::recorders::Recorder;
use crate::stores::{Filled, Store};

/// A strip of 64 bytes of its own. It writes at once and holds nothing back.
pub type Strip = Filled<[u8; 64]>;

impl<const N: usize> Store for [u8; N] {
    ghost through = { λ _. [] };

    fn set(&mut self, at: usize, b: u8) {
        self.overwrite(at, b);
    }

    fn overwrite(&mut self, at: usize, b: u8) {
        if at < self.len() {
            self[at] = b;
        }
    }
}

impl<const N: usize> Filled<[u8; N]> {
    /// An empty strip.
    pub fn new() -> Filled<[u8; N]>
        ensures fresh { result.used ≡ 0 }
        ensures means { (⟦<Filled<[u8; N]> as Recorder>⟧.state result).means ≡ empty N }
    {
        Filled {
            bytes: [0; N],
            used: 0,
        }
    }
}

impl Strip {
    /// An empty strip: it has space for 64 bytes.
    pub fn empty() -> Strip
        ensures fresh { result.used ≡ 0 }
        ensures means { (⟦<Strip as Recorder>⟧.state result).means ≡ empty 64 }
    {
        Strip::new()
    }
}
