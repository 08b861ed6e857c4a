// What `read` of a cell answers of bytes that were worked out by hand from the tables of docs/IMAGE.md, and of bytes that do not pass.
use super::*;

#[test]
fn an_entry_is_read_where_its_bytes_pass(rt: HostRuntime) {
    let mut bytes = [0, 0, 0, 0, 0, 0, 1, 2, 0, 1, 0, 0, 7, 255];
    assert!(rt;
        matches!(
            Entry::read(&bytes, 0),
            Some(Entry {
                at: 258,
                generation: 65_536,
                place: Place(7),
                slot: Slot(255),
            })
        )
    );
    // the highest bit of a generation is spare
    bytes[8] = 128;
    assert!(rt; Entry::read(&bytes, 0).is_none());
}

#[test]
fn a_slot_is_read_where_its_bytes_pass(rt: HostRuntime) {
    // at offset 1: a full one with position 5
    assert!(rt;
        matches!(
            SlabSlot::read(&[9, 128, 5], 1),
            Some(SlabSlot {
                state: SlotState::Full(Pos(5)),
            })
        )
    );
    // an empty one, behind which the free chain ends: 256 is no slot
    assert!(rt;
        matches!(
            SlabSlot::read(&[1, 0], 0),
            Some(SlabSlot {
                state: SlotState::Empty(Slot(256)),
            })
        )
    );
    // a bit between the mark and the position, and the position 256
    assert!(rt; SlabSlot::read(&[130, 5], 0).is_none());
    assert!(rt; SlabSlot::read(&[129, 0], 0).is_none());
}

#[test]
fn a_timer_is_read_where_its_bytes_pass(rt: HostRuntime) {
    let mut bytes = [74, 3, 4, 0, 0, 0, 1, 0, 0, 1, 4, 0, 0, 0, 0, 0, 0, 0, 9];
    assert!(rt;
        matches!(
            Timer::read(&bytes, 0),
            Some(Timer {
                life: Life::Live { word: 260, due: 9 },
                waiting: Waiting::Before(Place(3)),
                held: Some(Slot(4)),
                uses: 1,
            })
        )
    );
    // no timer waits by 3
    bytes[0] = 78;
    assert!(rt; Timer::read(&bytes, 0).is_none());
}
