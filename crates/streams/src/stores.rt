ghost use Rattle.std.specs.Prelude.{◌≡◌, ℕ, ◌<◌, List, length, slice_set};
ghost use Rattle.streams.specs.Recorders.{State, Kept, Put, flushed};
ghost use Rattle.streams.specs.Kinds.{filled, Stored};

use crate::recorders::{FlushRecorder, Full, ReadRecorder, Recorder};
use std::convert::AsSlice;

/// Bytes that can be filled, lent ones or a value's own. How many there are is fixed.
pub trait Store: AsSlice<u8> {
    /// The names of the references that the bytes lie behind.
    ghost through: { Self → List ℕ };

    /// Writes a byte over the one at a place.
    fn set(&mut self, at: usize, b: u8)
        requires { at < length (Self.AsSlice.items self.old) }
        ensures bytes { Self.AsSlice.items self.new ≡ slice_set (Self.AsSlice.items self.old) at b }
        ensures lent { through self.new ≡ through self.old };

    /// The same at any place. Behind the last byte there is none to write over, and then nothing changes.
    // A store whose `set` calls this writes it out.
    fn overwrite(&mut self, at: usize, b: u8)
        ensures bytes { Self.AsSlice.items self.new ≡ slice_set (Self.AsSlice.items self.old) at b }
        ensures lent { through self.new ≡ through self.old }
    {
        if at < self.as_slice().len() {
            self.set(at, b);
        }
    }
}

/// Bytes that are filled from the front. What is put is written at once, nothing is held back, and the
/// space is fixed by their number.
#[derive(Drop)]
pub struct Filled<S> {
    // The count stands beside the bytes, since these may be lent: an `ArrayVec` owns its own.
    pub(crate) bytes: S,
    pub(crate) used: usize,
}

impl<S: Store> Recorder for Filled<S> {
    ghost state = { λ s. filled (S.AsSlice.items s.bytes) s.used (S.Store.through s.bytes) };

    fn space(&self) -> usize {
        self.bytes.as_slice().len().saturating_sub(self.used)
    }

    fn put(&mut self, b: u8) -> Result<(), Full>
        ensures puts { Kept (Put result b) (⟦<Filled<S> as Recorder>⟧.state self.old) (⟦<Filled<S> as Recorder>⟧.state self.new) }
        ensures stores { Stored result b (S.AsSlice.items self.old.bytes) self.old.used (S.AsSlice.items self.new.bytes) self.new.used }
    {
        if self.used >= self.bytes.as_slice().len() {
            return Err(Full);
        }
        self.bytes.overwrite(self.used, b);
        self.used += 1;
        Ok(())
    }
}

impl<S: Store> FlushRecorder for Filled<S> {
    fn flush(&mut self) {}
}

impl<S: Store> ReadRecorder for Filled<S> {
    fn text(&self) -> &[u8] {
        let bytes = self.bytes.as_slice();
        &bytes[..self.used.min(bytes.len())]
    }
}
