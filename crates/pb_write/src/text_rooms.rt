// The rooms for text on its way to a sink.
use crate::gathered::Gathered;
use crate::room::Room;

/// Two rooms of 64 KiB for text on its way to a sink, to be used for any number of messages: in one a text is put down from
/// its end, and the other gathers what waits to be handed over. They count what sinks take from them.
#[derive(Drop)]
pub struct TextRooms {
    pub(crate) room: Room,
    pub(crate) out: Gathered,
}
