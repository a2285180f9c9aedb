ghost use Rattle.std.specs.Prelude.{◌≡◌, min, [], ◌∷◌, length, take};
ghost use Rattle.streams.specs.Recorders.{empty};

use crate::recorders::{Recorder, record_and_flush};
use crate::stores::{Filled, Store};

/// A page of bytes that is handed in. It writes at once and holds nothing back; its space is fixed by
/// the page's length when it is made.
pub type Page<'a> = Filled<&'a mut [u8]>;

impl<'a> Store for &'a mut [u8] {
    ghost through = { λ s. s.ghost_name ∷ [] };

    fn set(&mut self, at: usize, b: u8) {
        self.overwrite(at, b);
    }

    fn overwrite(&mut self, at: usize, b: u8) {
        if at < self.len() {
            self[at] = b;
        }
    }
}

impl<'a> Filled<&'a mut [u8]> {
    /// An empty page over all of `bytes`.
    pub fn new(bytes: &'a mut [u8]) -> Page<'a>
        ensures lent { result.bytes.ghost_name ≡ bytes.entry.ghost_name }
        ensures fresh { (result.bytes.now ≡ bytes.old) × (result.used ≡ 0) }
        ensures means { (⟦<Page<'a> as Recorder>⟧.state result).means ≡ empty (length bytes.old) }
    {
        Filled { bytes, used: 0 }
    }
}

/// Writes as much of a text on a page as there is space for, and answers how much that is. The lender
/// then finds it at the front of the page.
pub fn write_out(page: &mut [u8], text: &[u8]) -> usize
    ensures count { result ≡ min (length text.now) (length page.old) }
    ensures begins { take result page.new ≡ take result text.now }
{
    let mut lent = Page::new(page);
    record_and_flush(&mut lent, text)
}
