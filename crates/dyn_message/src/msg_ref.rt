// The name of a message.

use arena_mem::Place;

/// A message, by the place of its record and the number of its type in the schema.
#[derive(Clone, Copy, Debug, PartialEq, Eq)]
pub struct MsgRef {
    pub place: Place,
    pub type_no: u32,
}
