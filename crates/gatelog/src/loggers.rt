ghost use Rattle.std.specs.Prelude.{◌≡◌, ℕ, ◌/◌, List, [], ◌∷◌, ◌++◌, length, take, Some, codes};
ghost use Rattle.std.specs.Fmt.{decimal};
ghost use Rattle.streams.specs.Recorders.{Kept};
ghost use Rattle.gatelog.specs.declared.entries.Entry.{Entry};
ghost use Rattle.gatelog.specs.Restored.{Stands};
ghost use Rattle.gatelog.specs.Logged.{Accepted, Logs, Flushes};

use crate::entries::Entry;
use crate::positions::{Positions, restore};
use std::fmt;
use streams::blockers::Blocker;
use streams::pages::Page;
use streams::recorders::{FlushRecorder, ReadRecorder, Recorder, close, record_all};

/// Why an entry was not logged.
#[derive(Clone, Copy, PartialEq, Eq, Debug)]
pub enum Refusal {
    /// There are the gates 1 to 9.
    NoSuchGate,
    /// The recorder has no space for a whole record.
    NoSpace,
}

/// A log of gate positions on a recorder.
#[derive(Drop)]
pub struct Logger<R> {
    out: R,
}

impl<R: ReadRecorder + Drop> Logger<R> {
    /// A log on the recorder.
    pub fn new(out: R) -> Logger<R>
        ensures { result.out ≡ out }
    {
        Logger { out }
    }

    /// The recorder that it logs on.
    pub fn recorder(&self) -> &R
        ensures { result.now ≡ self.now.out }
    {
        &self.out
    }

    /// Logs an entry: the whole record is accepted, or nothing changes.
    pub fn record(&mut self, entry: Entry) -> Result<(), Refusal>
        ensures { Kept (Logs result entry) (R.Recorder.state self.old.out) (R.Recorder.state self.new.out) }
    {
        if !entry.is_valid() {
            return Err(Refusal::NoSuchGate);
        }
        let record = entry.encode();
        if self.out.space() < record.len() {
            return Err(Refusal::NoSpace);
        }
        let _ = record_all(&mut self.out, &record);
        Ok(())
    }

    /// Writes everything that is held back.
    pub fn flush(&mut self)
        ensures { Kept Flushes (R.Recorder.state self.old.out) (R.Recorder.state self.new.out) }
    {
        close(&mut self.out);
    }

    /// The positions that a restart would find now, if the power failed: those of the first entries
    /// accepted, as many as have their whole record written.
    pub fn survivors(&self) -> Positions
        ensures { (R.Recorder.state self.now.out).sound → (n : ℕ) (es : List Entry) → Accepted n es (R.Recorder.state self.now.out).means → Stands result (take (length (R.Recorder.state self.now.out).means.written / 6) es) }
    {
        restore(self.out.text())
    }

    /// Shuts the log down and restores the positions from what was written: those of all the entries
    /// accepted, wherever the shutdown comes.
    pub fn off(self) -> Positions
        ensures { (R.Recorder.state self.out).sound → (n : ℕ) (es : List Entry) → Accepted n es (R.Recorder.state self.out).means → Stands result es }
    {
        let Logger { mut out } = self;
        close(&mut out);
        restore(out.text())
    }
}

/// A log through a blocker on a page.
pub type PageLogger<'p> = Logger<Blocker<Page<'p>>>;

impl<'p> PageLogger<'p> {
    /// An empty log through a blocker on a page.
    pub fn on_page(page: &'p mut [u8]) -> PageLogger<'p>
        ensures lent { result.out.below.bytes.ghost_name ≡ page.entry.ghost_name }
        ensures sound { (⟦<Blocker<Page<'p>> as Recorder>⟧.state result.out).sound }
        ensures fresh { Accepted (length page.old) [] (⟦<Blocker<Page<'p>> as Recorder>⟧.state result.out).means }
    {
        Logger::new(Blocker::new(Page::new(page)))
    }

    /// How many bytes are written.
    pub fn written(&self) -> usize
        ensures { result ≡ length (⟦<Blocker<Page<'p>> as Recorder>⟧.state self.now.out).means.written }
    {
        self.out.text().len()
    }

    /// How many bytes are held back.
    pub fn held(&self) -> usize
        ensures { result ≡ length (⟦<Blocker<Page<'p>> as Recorder>⟧.state self.now.out).means.held }
    {
        self.out.waiting().len()
    }
}

impl<'p> fmt::Display for PageLogger<'p> {
    ghost output = { λ s. let m = (⟦<Blocker<Page<'p>> as Recorder>⟧.state s.out).means in Some (codes "written " ++ (decimal (length m.written) ++ (codes ", held " ++ decimal (length m.held)))) };

    fn fmt<W: fmt::Write>(&self, f: &mut fmt::Formatter<W>) -> fmt::Result {
        write!(f, "written {}, held {}", self.written(), self.held())
    }
}
