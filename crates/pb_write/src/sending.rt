// Handing text to a sink.
ghost use Rattle.std.specs.Prelude.{◌≡◌, [], OnOk, OnErr};
ghost use Rattle.std.specs.Io.KnownBytes.{Appends};
ghost use Rattle.arena_mem.specs.Outside.{HasCause, TookPart, KeepsTaken};
ghost use Rattle.pb_write.specs.Writes.{Counts, Sends, Writes, gathered_in};

use crate::gathered::Gathered;
use crate::room::ROOM_BYTES;
use arena_mem::{Failed, Sink};

/// Writes all of the bytes, in as many calls as the sink wants, and counts those that it takes.
pub(crate) fn hand_over<S: Sink>(bytes: &[u8], taken: &mut u64, sink: &mut S) -> Result<(), Failed>
    ensures ok { OnOk result (Appends (S.taken sink.old) (S.taken sink.new) bytes.now) }
    ensures err { OnErr result (TookPart (S.taken sink.old) (S.taken sink.new) bytes.now) }
    ensures longer { KeepsTaken (S.taken sink.old) (S.taken sink.new) }
    ensures counted { Counts (S.taken sink.old) (S.taken sink.new) taken.old taken.new }
    ensures cause { HasCause (S.faults sink.old) (S.faults sink.new) result }
{
    let mut done = 0;
    while done < bytes.len() {
        let count = sink.write(&bytes[done..])?;
        done += count;
        *taken = taken.saturating_add(count as u64);
    }
    Ok(())
}

/// Hands over what is gathered, and counts what the sink takes of it. Nothing is gathered any more.
pub(crate) fn send<S: Sink>(out: &mut Gathered, sink: &mut S) -> Result<(), Failed>
    ensures ok { OnOk result (Appends (S.taken sink.old) (S.taken sink.new) (gathered_in out.old)) }
    ensures err { OnErr result (TookPart (S.taken sink.old) (S.taken sink.new) (gathered_in out.old)) }
    ensures emptied { gathered_in out.new ≡ [] }
    ensures room { out.new.filled ≡ 0 }
    ensures longer { KeepsTaken (S.taken sink.old) (S.taken sink.new) }
    ensures counted { Counts (S.taken sink.old) (S.taken sink.new) out.old.taken out.new.taken }
    ensures cause { HasCause (S.faults sink.old) (S.faults sink.new) result }
{
    let mut taken = out.taken;
    let sent = hand_over(out.text(), &mut taken, sink);
    out.clear();
    out.taken = taken;
    sent
}

/// Gathers bytes, and hands over what was gathered before where there isn't room for them. Bytes that an empty room has
/// no place for go to the sink from where they lie.
pub(crate) fn gather<S: Sink>(bytes: &[u8], out: &mut Gathered, sink: &mut S) -> Result<(), Failed>
    ensures written { Writes (S.taken sink.old) (gathered_in out.old) (S.taken sink.new) (gathered_in out.new) result bytes.now }
    ensures sent { Sends (S.taken sink.old) (S.taken sink.new) (S.faults sink.old) (S.faults sink.new) result }
    ensures counted { Counts (S.taken sink.old) (S.taken sink.new) out.old.taken out.new.taken }
{
    if bytes.len() <= out.room() {
        out.push(bytes);
        return Ok(());
    }
    send(out, sink)?;
    if bytes.len() <= ROOM_BYTES {
        out.push(bytes);
        return Ok(());
    }
    hand_over(bytes, &mut out.taken, sink)
}
