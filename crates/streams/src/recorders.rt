ghost use Rattle.std.specs.Prelude.{◌≡◌, ℕ, ◌≤◌, List, length};
ghost use Rattle.streams.specs.Recorders.{State, Kept, Put, Arrive, flushed};
ghost use Rattle.streams.specs.History.{Recorded, Closed, Shut, NothingLost};

/// A `put` was declined: no space is left.
#[derive(Clone, Copy, PartialEq, Eq, Debug)]
pub struct Full;

/// A recorder means the bytes written, the bytes held back after them, and the space left.
pub trait Recorder {
    ghost state: { Self → State };

    /// The space left.
    fn space(&self) -> usize
        ensures { (state self.now).sound → result ≡ (state self.now).means.space };

    /// Adds a byte behind all others, or declines it where no space is left, and then nothing changes.
    /// Some of the bytes held back may be written, oldest first.
    fn put(&mut self, b: u8) -> Result<(), Full>
        ensures { Kept (Put result b) (state self.old) (state self.new) };
}

/// A recorder that can also write everything it holds back.
pub trait FlushRecorder: Recorder {
    /// Writes all bytes held back, oldest first, behind those written. The space stays.
    fn flush(&mut self)
        ensures { Kept (λ s t. t ≡ flushed s) (Self.Recorder.state self.old) (Self.Recorder.state self.new) };
}

/// A recorder whose written bytes can be read back.
pub trait ReadRecorder: FlushRecorder {
    /// The bytes written.
    fn text(&self) -> &[u8]
        ensures { result.now ≡ (Self.Recorder.state self.now).means.written };
}

/// Puts bytes from the left until one is declined, and answers how many were accepted.
pub fn record_all<R: Recorder>(r: &mut R, bytes: &[u8]) -> usize
    ensures { Kept (Recorded bytes.now result) (R.Recorder.state r.old) (R.Recorder.state r.new) }
{
    // `position` with a closure that puts was tried: its contract does not say what the recorder becomes.
    for (i, b) in bytes.iter().enumerate() {
        let Ok(()) = r.put(*b) else {
            return i;
        };
    }
    bytes.len()
}

/// Writes everything that is held back: the way to end the use of any recorder.
pub fn close<R: FlushRecorder>(r: &mut R)
    ensures { Kept Closed (R.Recorder.state r.old) (R.Recorder.state r.new) }
{
    r.flush();
}

/// Puts bytes from the left until one is declined, writes everything, and answers how many were accepted.
pub fn record_and_flush<R: FlushRecorder>(r: &mut R, bytes: &[u8]) -> usize
    ensures { Kept (Shut bytes.now result) (R.Recorder.state r.old) (R.Recorder.state r.new) }
{
    let n = record_all(r, bytes);
    close(r);
    n
}

/// The law of every history of puts and flushes, for every recorder.
pub fn nothing_is_lost()
    ensures { NothingLost }
{}
