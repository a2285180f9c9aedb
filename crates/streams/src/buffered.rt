ghost use Rattle.std.specs.Prelude.{◌≡◌, ℕ, ◌+◌, ◌≤◌, [], length};
ghost use Rattle.streams.specs.Recorders.{State, Kept, Put, Arrive, flushed};
ghost use Rattle.streams.specs.Kinds.{over, Blocked};

use crate::recorders::{FlushRecorder, Full, ReadRecorder, Recorder, record_all};
use arrayvec::ArrayVec;

/// Holds bytes back, `MOST` of them at most, and passes all down to the recorder below as one more
/// arrives.
// `Blocker` is no name for one of these: whoever is generic in `R` and writes the number out owes that its size is below 2^63.
#[derive(Drop)]
pub struct Buffered<R, const MOST: usize> {
    below: R,
    own: ArrayVec<u8, MOST>,
}

impl<R: FlushRecorder, const MOST: usize> Buffered<R, MOST> {
    /// A buffer with no bytes of its own: it means what the recorder below means.
    pub fn new(below: R) -> Buffered<R, MOST>
        ensures fresh { (result.below ≡ below) × (result.own.items ≡ []) }
        ensures opens { Kept (λ s t. t ≡ s) (R.Recorder.state below) (⟦<Buffered<R, MOST> as Recorder>⟧.state result) }
    {
        Buffered {
            below,
            own: ArrayVec::new(),
        }
    }

    /// The bytes of its own that wait.
    pub fn waiting(&self) -> &[u8]
        ensures { result.now ≡ self.now.own.items }
    {
        self.own.as_slice()
    }

    /// The recorder below.
    pub fn below(&self) -> &R
        ensures { result.now ≡ self.now.below }
    {
        &self.below
    }

    /// Writes everything and gives the recorder below back.
    pub fn end(mut self) -> R
        ensures { Kept (λ s t. t ≡ flushed s) (⟦<Buffered<R, MOST> as Recorder>⟧.state self) (R.Recorder.state result) }
    {
        self.flush();
        let Buffered { below, own: _ } = self;
        below
    }

    /// Passes its own bytes down, all of them where there is space.
    fn pass(&mut self)
        ensures own { self.new.own.items ≡ [] }
        ensures below { Kept (λ s t. length self.old.own.items ≤ s.space → Arrive self.old.own.items s t) (R.Recorder.state self.old.below) (R.Recorder.state self.new.below) }
    {
        let _ = record_all(&mut self.below, self.own.as_slice());
        self.own.clear();
    }
}

impl<R: FlushRecorder, const MOST: usize> Recorder for Buffered<R, MOST> {
    ghost state = { λ s. over s.own.items (R.Recorder.state s.below) };

    fn space(&self) -> usize {
        self.below.space().saturating_sub(self.own.len())
    }

    fn put(&mut self, b: u8) -> Result<(), Full>
        ensures puts { Kept (Put result b) (⟦<Buffered<R, MOST> as Recorder>⟧.state self.old) (⟦<Buffered<R, MOST> as Recorder>⟧.state self.new) }
        ensures blocks { (⟦<Buffered<R, MOST> as Recorder>⟧.state self.old).sound → Blocked (MOST + 1) result b self.old.own.items (R.Recorder.state self.old.below).means self.new.own.items (R.Recorder.state self.new.below).means }
    {
        if self.space() == 0 {
            return Err(Full);
        }
        if self.own.is_full() {
            self.pass();
            return self.below.put(b);
        }
        self.own.push(b);
        Ok(())
    }
}

impl<R: FlushRecorder, const MOST: usize> FlushRecorder for Buffered<R, MOST> {
    fn flush(&mut self) {
        self.pass();
        self.below.flush();
    }
}

impl<R: ReadRecorder, const MOST: usize> ReadRecorder for Buffered<R, MOST> {
    fn text(&self) -> &[u8] {
        self.below.text()
    }
}
