use crate::commands::Command;
use crate::entries::Entry;
use crate::loggers::{Logger, Refusal};
use crate::positions::restore;

#[test]
fn a_damaged_record_is_none(rt: HostRuntime) {
    let entry = Entry {
        gate: 3,
        position: -12,
    };
    let mut bytes = entry.encode();
    assert_eq!(rt; bytes, [71, 3, 255, 244, 246, 10]);
    assert_eq!(rt; Entry::decode(&bytes), Some(entry));
    bytes[3] = 245;
    assert_eq!(rt; Entry::decode(&bytes), None);
    assert_eq!(rt; Entry::decode(&bytes[0..5]), None);
}

#[test]
fn the_last_complete_record_counts(rt: HostRuntime) {
    let bytes = b"G\x01\x00\x05\x06\nG\x01\x00\x07\x08\nG\x01\x00\x09\x00\nG\x01\x00\x09\x0a";
    let positions = restore(bytes);
    assert_eq!(rt; positions.of_gate(1), Some(7));
    assert_eq!(rt; positions.of_gate(2), None);
    assert_eq!(rt; positions.of_gate(0), None);
}

#[test]
fn nothing_accepted_is_lost_at_off(rt: HostRuntime) {
    let mut page = [0; 131];
    let mut log = Logger::on_page(&mut page);
    for position in 0..21 {
        assert_eq!(rt; log.record(Entry { gate: 1, position }), Ok(()));
    }
    assert_eq!(rt; log.survivors().of_gate(1), None);
    assert_eq!(rt;
        log.record(Entry {
            gate: 1,
            position: 21,
        }),
        Err(Refusal::NoSpace)
    );
    assert_eq!(rt;
        log.record(Entry {
            gate: 10,
            position: 0,
        }),
        Err(Refusal::NoSuchGate)
    );
    assert_eq!(rt; log.written(), 0);
    assert_eq!(rt; log.held(), 126);
    assert_eq!(rt; log.off().of_gate(1), Some(20));
}

#[test]
fn positions_have_16_bits(rt: HostRuntime) {
    assert!(rt; matches!(Command::read(b"gate 9 -32768"), Some(Command::Record(_))));
    assert!(rt; Command::read(b"gate 9 -32769").is_none());
    assert!(rt; Command::read(b"gate 9 32768").is_none());
    assert!(rt; Command::read(b"gate 9 -").is_none());
}
