// What all workers of a phase share.

use msg_layout::tables::Layouts;
use pb_wire::Frames;
use std::marker::Model;
use ts_arena::Shared;

/// What the workers of a phase are lent: the arena, the frames with the part of them that is to be parsed, the layouts
/// with the type of the messages, and the gate.
///
/// Contracts see it as a `PhaseState`.
#[derive(Drop)]
pub(crate) struct Phase<'a, G> {
    pub(crate) shared: &'a Shared,
    pub(crate) frames: &'a Frames,
    pub(crate) first: u32,
    pub(crate) count: u32,
    pub(crate) types: &'a Layouts,
    pub(crate) root: u32,
    pub(crate) workers: usize,
    pub(crate) gate: &'a G,
}

impl<'a, G> Model for Phase<'a, G> {
    ghost use Rattle.parse_pool.specs.Phases.{PhaseState, IsPhase};

    ghost Value = { PhaseState };

    ghost view = { λ p. record { shared = p.shared.now; schema = p.types.now; root = p.root; payloads = p.frames.now; first = p.first; count = p.count; workers = p.workers } };

    ghost invariant = { λ p. IsPhase (record { shared = p.shared.now; schema = p.types.now; root = p.root; payloads = p.frames.now; first = p.first; count = p.count; workers = p.workers }) };
}
