//! A caller adds up what a shared arena has used.
ghost use Rattle.std.specs.Prelude.{◌≡◌, ◌+◌, ◌≤◌};
ghost use Rattle.serial_arena.specs.Serial.{SerialState, used_of};
ghost use Rattle.ts_arena.specs.Passes.{caller_of, slot_of, steps_of, shown_to, adopted_used, HasAddedUp, HasPart, IsPassOf};

use crate::pass::Pass;
use crate::shared::Shared;

impl Shared {
    /// The used bytes that the states of the list show, each when it is read, and those of the adopted regions. It is
    /// at least the caller's own part and all that this pass was shown before, and at most what settling shows. It
    /// takes no memory, and at most 65 list steps.
    pub fn space_used(&self, pass: &mut Pass) -> u128
        requires made { IsPassOf self.now pass.old }
        ensures made { IsPassOf self.now pass.new }
        ensures caller { caller_of pass.new ≡ caller_of pass.old }
        ensures slot { slot_of pass.new ≡ slot_of pass.old }
        ensures part { (s : SerialState) → HasPart pass.old s → HasPart pass.new s }
        ensures own { (s : SerialState) → HasPart pass.old s → used_of s ≤ result }
        ensures earlier { shown_to pass.old + adopted_used self.now ≤ result }
        ensures shown { result ≡ shown_to pass.new + adopted_used self.now }
        ensures summed { HasAddedUp pass.old pass.new }
        ensures steps { (steps_of pass.old + 1 ≤ steps_of pass.new) × (steps_of pass.new ≤ steps_of pass.old + 65) }
    {
        self.list.sizes(&mut pass.seat) + self.adopted_used
    }
}
