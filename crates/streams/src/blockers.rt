ghost use Rattle.std.specs.Prelude.{◌≡◌, ℕ, ◌+◌, ◌<◌, ◌≤◌, [], length};
ghost use Rattle.streams.specs.Recorders.{State, Kept, Put, Arrive, flushed};
ghost use Rattle.streams.specs.Kinds.{over, Blocked};

pub use crate::buffered::Buffered;
use crate::recorders::{FlushRecorder, Full, ReadRecorder, Recorder, record_all};
use arrayvec::ArrayVec;

/// Holds bytes back, 127 at most, and passes them down to the recorder below as the 128th arrives.
// No const parameter for the number: a caller that is generic in `R` would owe that the blocker's size is below 2^63.
#[derive(Drop)]
pub struct Blocker<R> {
    below: R,
    own: ArrayVec<u8, 127>,
    ghost few: { length own.items < 128 },
}

impl<R: FlushRecorder> Blocker<R> {
    /// A blocker with no bytes of its own: it means what the recorder below means.
    pub fn new(below: R) -> Blocker<R>
        ensures fresh { (result.below ≡ below) × (result.own.items ≡ []) }
        ensures opens { Kept (λ s t. t ≡ s) (R.Recorder.state below) (⟦<Blocker<R> as Recorder>⟧.state result) }
    {
        Blocker {
            below,
            own: ArrayVec::new(),
        }
    }

    /// The bytes of its own that wait.
    pub fn waiting(&self) -> &[u8]
        ensures is { result.now ≡ self.now.own.items }
        ensures few { length result.now < 128 }
    {
        self.own.as_slice()
    }

    /// The recorder below.
    pub fn below(&self) -> &R
        ensures { result.now ≡ self.now.below }
    {
        &self.below
    }

    /// Writes everything and gives the recorder below back.
    pub fn end(mut self) -> R
        ensures { Kept (λ s t. t ≡ flushed s) (⟦<Blocker<R> as Recorder>⟧.state self) (R.Recorder.state result) }
    {
        self.flush();
        let Blocker { below, own: _ } = self;
        below
    }

    /// Passes its own bytes down, all of them where there is space.
    fn pass(&mut self)
        ensures own { self.new.own.items ≡ [] }
        ensures below { Kept (λ s t. length self.old.own.items ≤ s.space → Arrive self.old.own.items s t) (R.Recorder.state self.old.below) (R.Recorder.state self.new.below) }
    {
        let _ = record_all(&mut self.below, self.own.as_slice());
        self.own.clear();
    }
}

impl<R: FlushRecorder> Recorder for Blocker<R> {
    ghost state = { λ s. over s.own.items (R.Recorder.state s.below) };

    fn space(&self) -> usize {
        self.below.space().saturating_sub(self.own.len())
    }

    fn put(&mut self, b: u8) -> Result<(), Full>
        ensures puts { Kept (Put result b) (⟦<Blocker<R> as Recorder>⟧.state self.old) (⟦<Blocker<R> as Recorder>⟧.state self.new) }
        ensures blocks { (⟦<Blocker<R> as Recorder>⟧.state self.old).sound → Blocked 128 result b self.old.own.items (R.Recorder.state self.old.below).means self.new.own.items (R.Recorder.state self.new.below).means }
    {
        if self.space() == 0 {
            return Err(Full);
        }
        if self.own.is_full() {
            self.pass();
            return self.below.put(b);
        }
        self.own.push(b);
        Ok(())
    }
}

impl<R: FlushRecorder> FlushRecorder for Blocker<R> {
    fn flush(&mut self) {
        self.pass();
        self.below.flush();
    }
}

impl<R: ReadRecorder> ReadRecorder for Blocker<R> {
    fn text(&self) -> &[u8] {
        self.below.text()
    }
}
