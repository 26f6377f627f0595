// The messages of a phase, in the order of its frames.
ghost use Rattle.std.specs.Prelude.{◌≡◌, ◌+◌, ◌*◌, ◌<◌, ◌≤◌, ◌^◌, ◌∷◌, ◌++◌, [], length, vec_capacity};
ghost use Rattle.parse_pool.specs.Collecting.{AreCovered};
ghost use Rattle.parse_pool.specs.Phased.{AreCollected};

use crate::worker::Worker;
use dyn_message::MsgRef;

/// The worker and the turn behind these, where there are so many workers.
fn next_turn(worker: usize, turn: usize, workers: usize) -> (usize, usize)
    requires below { worker < workers }
    requires small { turn < 2 ^ 32 }
    ensures below { result.0 < workers }
    ensures next { result.0 + result.1 * workers ≡ worker + turn * workers + 1 }
    ensures slow { result.1 ≤ turn + 1 }
{
    if worker + 1 == workers {
        (0, turn + 1)
    } else {
        (worker + 1, turn)
    }
}

/// Adds a message, for which there is room.
fn add(messages: &mut Vec<MsgRef>, msg: MsgRef)
    requires { length messages.old.items < vec_capacity messages.old }
    ensures added { messages.new.items ≡ messages.old.items ++ msg ∷ [] }
    ensures capacity { vec_capacity messages.old ≤ vec_capacity messages.new }
{
    match messages.push(msg) {
        Ok(()) => {}
        Err(_) => unreachable!(),
    }
}

/// Collects the messages of so many frames out of the results of the workers that parsed them in turn.
pub(crate) fn collect(workers: &[Worker], count: u32, messages: &mut Vec<MsgRef>)
    requires some { 0 < length workers.now }
    requires covered { AreCovered workers.now count }
    requires room { (messages.old.items ≡ []) × (count ≤ vec_capacity messages.old) }
    ensures { AreCollected workers.now count messages.new.items }
{
    let mut worker = 0;
    let mut turn = 0;
    let mut i = 0;
    while i < count {
        let msg = workers[worker].message(turn);
        add(messages, msg);
        let next = next_turn(worker, turn, workers.len());
        worker = next.0;
        turn = next.1;
        i += 1;
    }
}
