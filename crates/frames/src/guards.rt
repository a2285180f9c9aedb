//! A frame that is open for a block: on every way out of the block its counts are again those from before.
ghost use Rattle.std.specs.Prelude.{◌≡◌};
ghost use Rattle.frames.specs.Frames.{counted};

use crate::Frame;

/// A frame, and what its counts were before the block.
pub struct Opened<'f, 'w> {
    pub frame: &'f mut Frame<'w>,
    pub count: usize,
    pub ready: usize,
}

impl Drop for Opened<'_, '_> {
    fn drop(self)
        ensures { self.exit.0.now ≡ counted self.entry.frame.now self.entry.count self.entry.ready }
    {
        let Opened {
            frame,
            count,
            ready,
        } = self;
        frame.count = count;
        frame.ready = ready;
    }
}
