// Where the payload of a frame lies in the bytes of its file.

/// The place of a payload's first byte, and the place behind its last.
#[derive(Clone, Copy, Debug, PartialEq, Eq)]
pub(crate) struct FramePlace {
    pub start: usize,
    pub end: usize,
}
