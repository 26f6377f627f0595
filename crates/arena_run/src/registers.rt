// The registers of a run.
ghost use Rattle.std.specs.Prelude.{◌≡◌, ◌≤◌, [], length, vec_capacity, IfOk};
ghost use Rattle.pb_script.specs.Registers.{cat_registers};

use dyn_message::MsgRef;
use no_memory::NoMemory;
use pb_script::Register;
use std::alloc::Global;

/// Room for so many registers.
pub fn room_for_registers(alloc: Global, count: u32) -> Result<Vec<Register>, NoMemory>
    ensures { IfOk result (λ registers. (registers.items ≡ []) × (count ≤ vec_capacity registers)) }
{
    let registers = Vec::with_capacity(alloc, count as usize)?;
    Ok(registers)
}

/// Fills a register with each message of arena A, in order. There is room for them.
pub fn fill_registers(messages: &[MsgRef], registers: &mut Vec<Register>)
    requires { (registers.old.items ≡ []) × (length messages.now ≤ vec_capacity registers.old) }
    ensures { registers.new.items ≡ cat_registers messages.now }
{
    for message in messages {
        if registers.push(Register::in_a(*message)).is_err() {
            unreachable!();
        }
    }
}
