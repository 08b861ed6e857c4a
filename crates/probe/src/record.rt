// A record of a call: 32 bytes, each number with its most significant byte first.

// How many bytes a record has.
pub const SIZE: usize = 32;

#[derive(Clone, Copy)]
pub struct Record {
    pub op: u8,
    pub policy: u8,
    // of a handle; for a removal from the heap the slot
    pub place: u16,
    pub uses: u32,
    pub a: u64,
    pub b: u64,
    // the reading at which a set is asked how long is left
    pub c: u64,
}

impl From<&[u8; SIZE]> for Record {
    // The record that these bytes are.
    fn from(bytes: &[u8; SIZE]) -> Record {
        Record {
            op: bytes[0],
            policy: bytes[1],
            place: u16::from_be_bytes([bytes[2], bytes[3]]),
            uses: u32::from_be_bytes(bytes[4..8].try_into().unwrap()),
            a: u64::from_be_bytes(bytes[8..16].try_into().unwrap()),
            b: u64::from_be_bytes(bytes[16..24].try_into().unwrap()),
            c: u64::from_be_bytes(bytes[24..].try_into().unwrap()),
        }
    }
}
