// What workers pass on their way.

/// A worker passes it before it parses a frame. It returns, and no answer depends on it.
pub trait Gate {
    /// The worker of this number is about to parse this frame.
    fn reach(&self, worker: u32, frame: u32);
}

/// A gate that does nothing.
#[derive(Clone, Copy, Debug, PartialEq, Eq)]
pub struct OpenGate;

impl Gate for OpenGate {
    #[inline(always)]
    fn reach(&self, _worker: u32, _frame: u32) {}
}
