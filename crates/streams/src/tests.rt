ghost use Rattle.std.specs.Prelude.{[]};

use crate::blockers::{Blocker, Buffered};
use crate::pages::{Page, write_out};
use crate::recorders::{FlushRecorder, Full, ReadRecorder, Recorder, record_all, record_and_flush};
use crate::sources::{Bytes, Chain, Source};
use crate::stores::Store;
use crate::strips::Strip;
use std::convert::AsSlice;

/// A store that says no more than how a byte of its own is set.
#[derive(Drop)]
struct Cells {
    bytes: [u8; 3],
}

impl AsSlice<u8> for Cells {
    ghost items = { λ s. s.bytes };

    fn as_slice(&self) -> &[u8] {
        &self.bytes
    }
}

impl Store for Cells {
    ghost through = { λ _. [] };

    fn set(&mut self, at: usize, b: u8) {
        self.bytes[at] = b;
    }
}

#[test]
fn a_chain_asks_the_first_source_first(rt: HostRuntime) {
    let mut empty = Chain::new(Bytes::new(&[]), Bytes::new(&[]));
    assert_eq!(rt; empty.get(), None);
    let mut chain = Chain::new(
        Bytes::new(&[1]),
        Chain::new(Bytes::new(&[]), Bytes::new(&[2])),
    );
    assert_eq!(rt; chain.get(), Some(1));
    assert_eq!(rt; chain.get(), Some(2));
    assert_eq!(rt; chain.get(), None);
    assert_eq!(rt; chain.get(), None);
}

#[test]
fn a_page_declines_exactly_at_space_0(rt: HostRuntime) {
    let mut bytes = [9; 2];
    let mut page = Page::new(&mut bytes);
    assert_eq!(rt; page.put(1), Ok(()));
    assert_eq!(rt; page.space(), 1);
    assert_eq!(rt; page.put(2), Ok(()));
    assert_eq!(rt; page.put(3), Err(Full));
    assert_eq!(rt; page.space(), 0);
    assert_eq!(rt; page.text(), [1, 2].as_slice());
    page.flush();
    assert_eq!(rt; page.space(), 0);
}

#[test]
fn a_page_of_no_bytes_declines_everything(rt: HostRuntime) {
    let mut nothing = [0; 0];
    let mut page = Page::new(&mut nothing);
    assert_eq!(rt; page.put(1), Err(Full));
    page.flush();
    assert_eq!(rt; page.space(), 0);
}

#[test]
fn the_lender_finds_the_text(rt: HostRuntime) {
    let mut bytes = [9; 4];
    assert_eq!(rt; write_out(&mut bytes, b"abc"), 3);
    assert_eq!(rt; bytes, [97, 98, 99, 9]);
    assert_eq!(rt; write_out(&mut bytes, b"vwxyz"), 4);
}

#[test]
fn a_strip_has_space_for_64(rt: HostRuntime) {
    let mut strip = Strip::new();
    assert_eq!(rt; record_all(&mut strip, &[5; 65]), 64);
    assert_eq!(rt; strip.put(5), Err(Full));
    assert_eq!(rt; strip.text().len(), 64);
}

#[test]
fn a_blocker_passes_down_at_the_128th(rt: HostRuntime) {
    let mut bytes = [0; 130];
    let mut block = Blocker::new(Page::new(&mut bytes));
    assert_eq!(rt; record_all(&mut block, &[7; 127]), 127);
    assert_eq!(rt; block.text().len(), 0);
    assert_eq!(rt; block.waiting().len(), 127);
    assert_eq!(rt; block.space(), 3);
    assert_eq!(rt; block.put(8), Ok(()));
    assert_eq!(rt; block.text().len(), 128);
    assert_eq!(rt; block.waiting().len(), 0);
    assert_eq!(rt; record_all(&mut block, &[1, 2, 3]), 2);
    assert_eq!(rt; block.put(9), Err(Full));
    assert_eq!(rt; block.waiting(), [1, 2].as_slice());
    assert_eq!(rt; block.end().text().len(), 130);
}

#[test]
fn a_buffer_of_2_passes_down_at_the_third(rt: HostRuntime) {
    let mut buffer: Buffered<Strip, 2> = Buffered::new(Strip::new());
    assert_eq!(rt; record_all(&mut buffer, &[1, 2]), 2);
    assert_eq!(rt; buffer.waiting(), [1, 2].as_slice());
    assert_eq!(rt; buffer.text().len(), 0);
    assert_eq!(rt; buffer.space(), 62);
    assert_eq!(rt; buffer.put(3), Ok(()));
    assert_eq!(rt; buffer.waiting().len(), 0);
    assert_eq!(rt; buffer.below().text(), [1, 2, 3].as_slice());
    assert_eq!(rt; buffer.put(4), Ok(()));
    buffer.flush();
    assert_eq!(rt; buffer.text().len(), 4);
    assert_eq!(rt; buffer.put(5), Ok(()));
    assert_eq!(rt; buffer.end().text(), [1, 2, 3, 4, 5].as_slice());
}

#[test]
fn a_byte_is_written_over(rt: HostRuntime) {
    let mut own = [1, 2, 3];
    own.set(1, 9);
    own.overwrite(2, 8);
    own.overwrite(3, 7);
    assert_eq!(rt; own, [1, 9, 8]);
    let mut lent = own.as_mut_slice();
    lent.set(0, 6);
    lent.overwrite(3, 7);
    assert_eq!(rt; own, [6, 9, 8]);
    let mut cells = Cells { bytes: own };
    cells.set(2, 5);
    cells.overwrite(1, 4);
    cells.overwrite(3, 7);
    assert_eq!(rt; cells.bytes, [6, 4, 5]);
}

#[test]
fn blockers_nest(rt: HostRuntime) {
    let mut outer = Blocker::new(Blocker::new(Strip::new()));
    assert_eq!(rt; record_all(&mut outer, &[1; 65]), 64);
    assert_eq!(rt; outer.below().waiting().len(), 0);
    outer.flush();
    assert_eq!(rt; outer.below().below().text().len(), 64);
    assert_eq!(rt; record_and_flush(&mut outer, &[2]), 0);
}
