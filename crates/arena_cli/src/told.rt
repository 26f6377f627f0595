// The fault of a run as a row has it.

use arena_run::{Fault, InputKind, WireFault};

/// A fault, the name of a type spelled out.
#[derive(Clone, Copy, Debug, PartialEq, Eq)]
pub enum Told {
    Usage,
    NoType { name: &'static str },
    FrameCut { index: u32 },
    BadFrame { index: u32, fault: WireFault },
    ReadFault,
    WriteFault,
    TooLong { which: InputKind, limit: u32 },
    NotBuilt,
}

/// Whether a run ended with this fault, or with none.
pub fn has_fault(end: &Option<Fault>, wanted: Option<Told>) -> bool {
    match (end, wanted) {
        (None, None) => true,
        (Some(fault), Some(wanted)) => is_fault(fault, wanted),
        _ => false,
    }
}

fn is_fault(fault: &Fault, wanted: Told) -> bool {
    match (fault, wanted) {
        (Fault::Usage, Told::Usage) => true,
        (Fault::NoType { name }, Told::NoType { name: text }) => name.is(text),
        (Fault::FrameCut { index }, Told::FrameCut { index: at }) => *index == at,
        (
            Fault::BadFrame { index, fault },
            Told::BadFrame {
                index: at,
                fault: first,
            },
        ) => *index == at && *fault == first,
        (Fault::ReadFault, Told::ReadFault) => true,
        (Fault::WriteFault, Told::WriteFault) => true,
        (
            Fault::TooLong { which, limit },
            Told::TooLong {
                which: input,
                limit: most,
            },
        ) => *which == input && *limit == most,
        (Fault::NotBuilt, Told::NotBuilt) => true,
        _ => false,
    }
}
