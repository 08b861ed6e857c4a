// The fields of a record, and the call that they make. The contracts say in plain arithmetic which fields these are.
ghost use Rattle.records.specs.Promises.{Parts, HasNoHandle, HasNoValue, IsBare, Provides, Calls};

use heap::Place;
use refusals::Refusal;
use state::Handle;
use timers::Call;

#[derive(Clone, Copy)]
pub struct Fields {
    pub operation: u8,
    pub place: Place,
    pub uses: u32,
    pub value: u64,
}

// The fields of a record: the upper four bits of the first byte, its lower four with the second one, then four bytes, and eight.
pub fn parted(bytes: [u8; 14]) -> Fields
    ensures { Parts bytes result }
{
    Fields {
        operation: bytes[0] >> 4,
        place: Place(u16::from_be_bytes([bytes[0] & 15, bytes[1]])),
        uses: u32::from_be_bytes([bytes[2], bytes[3], bytes[4], bytes[5]]),
        value: u64::from_be_bytes(bytes[6..].try_into().unwrap()),
    }
}

// The call that the fields make.
pub fn call_of(f: Fields) -> Result<Call, Refusal>
    ensures { Calls f result }
{
    let Fields {
        operation,
        place,
        uses,
        value,
    } = f;
    let handle = Handle { place, uses };
    match operation {
        0 => provided(no_handle(f), Call::Add { due: value }),
        1 => Ok(Call::Reset { handle, due: value }),
        2 => provided(no_value(f), Call::Cancel { handle }),
        3 => provided(bare(f), Call::Drain),
        4 => provided(no_handle(f), Call::Advance { reading: value }),
        5 => provided(no_handle(f), Call::Turn { reading: value }),
        6 => provided(bare(f), Call::NextWake),
        7 => provided(no_value(f), Call::Poll { handle }),
        8 => provided(bare(f), Call::Close),
        _ => Err(Refusal::BadRecord),
    }
}

// Whether the place and the use are zero.
fn no_handle(f: Fields) -> bool
    ensures { HasNoHandle f result }
{
    f.place.0 == 0 && f.uses == 0
}

// Whether the value is zero.
fn no_value(f: Fields) -> bool
    ensures { HasNoValue f result }
{
    f.value == 0
}

// Whether place, use and value are all zero.
fn bare(f: Fields) -> bool
    ensures { IsBare f result }
{
    no_handle(f) && no_value(f)
}

// A call, where the fields that it does not use are zero.
fn provided(unused_zero: bool, call: Call) -> Result<Call, Refusal>
    ensures { Provides unused_zero call result }
{
    if unused_zero {
        Ok(call)
    } else {
        Err(Refusal::BadRecord)
    }
}
