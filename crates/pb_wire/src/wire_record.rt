// What is told of a record.

/// A record of some bytes: its field's number, its wire type, and the places, counted from the start of the bytes,
/// where it starts, where its payload starts and where it ends, with the payload's length. For varints and fixed values
/// the payload is the value's bytes, for groups what stands between the tags.
#[derive(Clone, Copy, Debug, PartialEq, Eq)]
pub struct WireRecord {
    pub number: u32,
    pub wire: u8,
    pub start: u32,
    pub payload: u32,
    pub payload_len: u32,
    pub end: u32,
}
