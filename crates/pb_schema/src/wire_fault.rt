// The faults of bytes.

/// What is wrong with bytes that aren't a message.
#[derive(Clone, Copy, Debug, PartialEq, Eq)]
pub enum WireKind {
    /// A varint, a fixed value or a payload runs past its end, or a group isn't closed.
    Cut,
    /// A varint goes on past the most bytes that it may have.
    LongVarint,
    /// A tag with field number 0, with wire type 6 or 7, or of 2^32 and more.
    BadTag,
    /// A length of 2^31 and more.
    BadLength,
    /// The end of a group outside a group, or with another number than the group's.
    GroupEnd,
    /// A message or a group more than 100 levels below the root.
    TooDeep,
    /// A string field's payload that isn't UTF-8.
    NotUtf8,
}

/// The first fault of a payload, and the byte where it stands, counted from the start of the frame's payload, also in
/// a nested message.
#[derive(Clone, Copy, Debug, PartialEq, Eq)]
pub struct WireFault {
    pub kind: WireKind,
    pub byte: u32,
}
