// Messages: records one after another, each put into the message that is there.
ghost use Rattle.std.specs.Prelude.{◌≡◌, ◌-◌, ◌+◌, ◌*◌, ◌<◌, ◌≤◌, ◌^◌, ◌∷◌, [], false, true, ℕ, List, length, drop, IfOk, IfErr, IsOk, IsErr, MatchOption};
ghost use Rattle.pb_schema.specs.Records.{Record, Records};
ghost use Rattle.pb_schema.specs.Kinds.{value_type_of};
ghost use Rattle.pb_schema.specs.Fits.{fields_of, is_taken, takes};
ghost use Rattle.pb_schema.specs.HeldAt.{field_at};
ghost use Rattle.pb_schema.specs.Tree.{Shape};
ghost use Rattle.dyn_message.specs.Feet.{Foot};
ghost use Rattle.dyn_message.specs.Stands.{Stands, IsSingle, IsList};
ghost use Rattle.dyn_message.specs.Changes.{Changes, NowStands};
ghost use Rattle.dyn_message.specs.Fields.{IsMessageIn, IsMessageType};
ghost use Rattle.pb_parse.specs.Costs.{Costs, read_cost};
ghost use Rattle.pb_parse.specs.Parsing.{Always, Came, CostsTaken, IsCause, IsFor, LiesBefore, pending};
ghost use Rattle.pb_parse.specs.Reading.{contents_read, read_left, record_at, walked, with_taken};

use crate::contents::{DELIMITED, is_list, takes_wire};
use crate::short::{set_short, short_number};
use crate::stop::Halt;
use crate::unknown::{MOST_ELEMENTS, Unknown, append_pending};
use crate::values::{append_number, append_packed, append_string, set_number, set_string};
use arena_mem::{MemFault, Memory};
use dyn_message::{MsgRef, append_sub, count, make_sub};
use msg_layout::tables::Layouts;
use pb_schema::{FieldType, Kind};
use pb_wire::{WireRecord, read_record};
use std::alloc::Global;

/// A message or a group is at most so many levels below the root.
pub const MOST_LEVELS: u32 = 100;

/// Reads the bytes from `start` on, record by record, into a message that is there and has so many levels left below it.
#[cycle(parse)]
pub fn parse_message<M: Memory>(
    alloc: Global,
    mem: &mut M,
    types: &Layouts,
    msg: MsgRef,
    bytes: &[u8],
    start: u32,
    left: u32,
) -> Result<(), Halt>
    requires message { IsMessageIn types.now (M.places mem.old) (M.buffers mem.old) msg }
    requires start { start ≤ length bytes.now }
    requires short { length bytes.now < 2 ^ 25 }
    requires left { left ≤ 100 }
    ensures stands { IfOk result (λ _. (t : Shape) (feet : List Foot) → Stands types.now (M.places mem.old) (M.buffers mem.old) msg t feet
        → NowStands types.now (M.places mem.old) (M.buffers mem.old) (M.places mem.new) (M.buffers mem.new) msg (read_left types.now left (fields_of types.now msg.type_no) t (drop start bytes.now)) feet) }
    ensures sound { IfOk result (λ _. IsOk (walked types.now left (fields_of types.now msg.type_no) start (drop start bytes.now))) }
    ensures stopped { IfErr result (IsCause (M.blocks mem.new) (IsErr (walked types.now left (fields_of types.now msg.type_no) start (drop start bytes.now)))) }
    ensures changes { (t : Shape) (feet : List Foot) → Stands types.now (M.places mem.old) (M.buffers mem.old) msg t feet
        → Changes M.key M.places M.buffers M.blocks (4 * (length bytes.now - start) + 2) (4 * (length bytes.now - start) + 2) feet mem.old mem.new }
    ensures costs { IfOk result (λ _. (t : Shape) (feet : List Foot) → Stands types.now (M.places mem.old) (M.buffers mem.old) msg t feet
        → Costs types.now (M.places mem.old) (M.buffers mem.old) (M.places mem.new) (M.buffers mem.new) (λ meter. read_cost meter types.now left msg.type_no t (drop start bytes.now))) }
{
    let mut unknown = Unknown::before(alloc, start);
    let mut at = start;
    while (at as usize) < bytes.len() {
        if let Some(short) = short_number(types, msg.type_no, bytes, at) {
            set_short(mem, types, msg, bytes, at, short);
            at = short.end;
            continue;
        }
        match parse_record(alloc, mem, types, msg, bytes, at, left, &mut unknown) {
            Ok(next) => at = next,
            Err(halt) => return Err(halt),
        }
    }
    match append_pending(mem, types, msg, bytes, &mut unknown) {
        Ok(()) => Ok(()),
        Err(fault) => Err(Halt::Refused(fault)),
    }
}

// Reads the record at `at`, and answers the place behind it.
#[cycle(parse)]
fn parse_record<M: Memory>(
    alloc: Global,
    mem: &mut M,
    types: &Layouts,
    msg: MsgRef,
    bytes: &[u8],
    at: u32,
    left: u32,
    unknown: &mut Unknown,
) -> Result<u32, Halt>
    requires message { IsMessageIn types.now (M.places mem.old) (M.buffers mem.old) msg }
    requires at { at < length bytes.now }
    requires short { length bytes.now < 2 ^ 25 }
    requires left { left ≤ 100 }
    requires lies { LiesBefore unknown.old bytes.now at }
    requires whole { (rs : List Record) × Records (pending unknown.old bytes.now) rs }
    ensures bound { IfOk result (λ next. (at < next) × (next ≤ length bytes.now)) }
    ensures walk { IfOk result (λ next. walked types.now left (fields_of types.now msg.type_no) at (drop at bytes.now) ≡ walked types.now left (fields_of types.now msg.type_no) next (drop next bytes.now)) }
    ensures came { IfOk result (λ next. Always types.now (M.places mem.old) (M.buffers mem.old) msg (Came types.now left (M.places mem.old) (M.buffers mem.old) (M.places mem.new) (M.buffers mem.new) msg bytes.now at next (pending unknown.old bytes.now) (pending unknown.new bytes.now))) }
    ensures lies { IfOk result (LiesBefore unknown.new bytes.now) }
    ensures whole { IfOk result (λ next. (rs : List Record) × Records (pending unknown.new bytes.now) rs) }
    ensures few { IfOk result (λ next. Always types.now (M.places mem.old) (M.buffers mem.old) msg (λ t feet. Changes M.key M.places M.buffers M.blocks (4 * (next - at)) (4 * (next - at)) feet mem.old mem.new)) }
    ensures stopped { IfErr result (IsCause (M.blocks mem.new) (IsErr (walked types.now left (fields_of types.now msg.type_no) at (drop at bytes.now)))) }
    ensures changes { Always types.now (M.places mem.old) (M.buffers mem.old) msg (λ t feet. Changes M.key M.places M.buffers M.blocks (4 * (length bytes.now - at)) (4 * (length bytes.now - at)) feet mem.old mem.new) }
{
    let _schema = types.schema();
    let Ok(found) = read_record(bytes, at, MOST_LEVELS - left) else {
        return Err(Halt::Bad);
    };
    match field_for(types, msg.type_no, found) {
        Some(field) => match parse_taken(alloc, mem, types, msg, bytes, found, field, left) {
            Ok(()) => Ok(found.end),
            Err(halt) => Err(halt),
        },
        None => match unknown.add(bytes, at, found.end) {
            Ok(()) => Ok(found.end),
            Err(_) => Err(Halt::Refused(MemFault::NoMemory)),
        },
    }
}

// The field of a type that takes a record.
fn field_for(types: &Layouts, type_no: u32, found: WireRecord) -> Option<FieldType>
    requires { type_no < length types.now.types }
    ensures { (r : Record) → r.number ≡ found.number → r.wire ≡ found.wire → MatchOption result (is_taken types.now (fields_of types.now type_no) r ≡ false)
        (λ field. (field_at types.now type_no field.number ≡ Some field) × (takes types.now field r ≡ true)) }
{
    let _schema = types.schema();
    match types.entry(type_no, found.number) {
        Some(entry) if takes_wire(entry.field, found.wire) => Some(entry.field),
        _ => None,
    }
}

// Puts a record into the field that takes it.
#[cycle(parse)]
fn parse_taken<M: Memory>(
    alloc: Global,
    mem: &mut M,
    types: &Layouts,
    msg: MsgRef,
    bytes: &[u8],
    found: WireRecord,
    field: FieldType,
    left: u32,
) -> Result<(), Halt>
    requires message { IsMessageIn types.now (M.places mem.old) (M.buffers mem.old) msg }
    requires taken { IsFor types.now msg.type_no bytes.now found field }
    requires short { length bytes.now < 2 ^ 25 }
    requires left { left ≤ 100 }
    ensures put { IfOk result (λ _. (t : Shape) (feet : List Foot) → Stands types.now (M.places mem.old) (M.buffers mem.old) msg t feet
        → NowStands types.now (M.places mem.old) (M.buffers mem.old) (M.places mem.new) (M.buffers mem.new) msg (with_taken types.now left msg.type_no field (record_at found bytes.now) t) feet) }
    ensures sound { IfOk result (λ _. IsOk (contents_read types.now left field found bytes.now)) }
    ensures stopped { IfErr result (IsCause (M.blocks mem.new) (IsErr (contents_read types.now left field found bytes.now))) }
    ensures changes { (t : Shape) (feet : List Foot) → Stands types.now (M.places mem.old) (M.buffers mem.old) msg t feet
        → Changes M.key M.places M.buffers M.blocks (4 * (found.end - found.start)) (4 * (found.end - found.start)) feet mem.old mem.new }
    ensures costs { IfOk result (λ _. (t : Shape) (feet : List Foot) → Stands types.now (M.places mem.old) (M.buffers mem.old) msg t feet
        → CostsTaken types.now left (M.places mem.old) (M.buffers mem.old) (M.places mem.new) (M.buffers mem.new) msg field (record_at found bytes.now) t) }
{
    let listed = is_list(field.card);
    match field.kind {
        Kind::Message(_) if listed => parse_element(
            alloc, mem, types, msg, bytes, found, field, left,
        ),
        Kind::Message(_) => parse_sub(alloc, mem, types, msg, bytes, found, field, left),
        Kind::Text | Kind::Bytes if listed => append_string(mem, types, msg, bytes, found, field),
        Kind::Text | Kind::Bytes => set_string(mem, types, msg, bytes, found, field),
        _ if listed && found.wire == DELIMITED => {
            let (own, its) = (copy_record(found), copy_field(field));
            append_packed(mem, types, msg, bytes, own, its)
        }
        _ if listed => append_number(mem, types, msg, bytes, found, field),
        _ => {
            set_number(mem, types, msg, bytes, found, field);
            Ok(())
        }
    }
}

// The same record, at a place of its own: one whose place is handed out would be kept in memory on every way to here.
#[inline(always)]
fn copy_record(found: WireRecord) -> WireRecord
    ensures { result ≡ found }
{
    WireRecord {
        number: found.number,
        wire: found.wire,
        start: found.start,
        payload: found.payload,
        payload_len: found.payload_len,
        end: found.end,
    }
}

// The same of a field.
#[inline(always)]
fn copy_field(field: FieldType) -> FieldType
    ensures { result ≡ field }
{
    FieldType {
        number: field.number,
        kind: field.kind,
        card: field.card,
    }
}

// Reads a record's payload into the one message of a field, or into an empty one that is made there.
#[cycle(parse)]
fn parse_sub<M: Memory>(
    alloc: Global,
    mem: &mut M,
    types: &Layouts,
    msg: MsgRef,
    bytes: &[u8],
    found: WireRecord,
    field: FieldType,
    left: u32,
) -> Result<(), Halt>
    requires message { IsMessageIn types.now (M.places mem.old) (M.buffers mem.old) msg }
    requires taken { IsFor types.now msg.type_no bytes.now found field }
    requires short { length bytes.now < 2 ^ 25 }
    requires left { left ≤ 100 }
    requires kind { IsMessageType (value_type_of field.kind) }
    requires single { IsSingle field.card }
    ensures put { IfOk result (λ _. (t : Shape) (feet : List Foot) → Stands types.now (M.places mem.old) (M.buffers mem.old) msg t feet
        → NowStands types.now (M.places mem.old) (M.buffers mem.old) (M.places mem.new) (M.buffers mem.new) msg (with_taken types.now left msg.type_no field (record_at found bytes.now) t) feet) }
    ensures sound { IfOk result (λ _. IsOk (contents_read types.now left field found bytes.now)) }
    ensures stopped { IfErr result (IsCause (M.blocks mem.new) (IsErr (contents_read types.now left field found bytes.now))) }
    ensures changes { (t : Shape) (feet : List Foot) → Stands types.now (M.places mem.old) (M.buffers mem.old) msg t feet
        → Changes M.key M.places M.buffers M.blocks (4 * found.payload_len + 4) (4 * found.payload_len + 4) feet mem.old mem.new }
    ensures costs { IfOk result (λ _. (t : Shape) (feet : List Foot) → Stands types.now (M.places mem.old) (M.buffers mem.old) msg t feet
        → CostsTaken types.now left (M.places mem.old) (M.buffers mem.old) (M.places mem.new) (M.buffers mem.new) msg field (record_at found bytes.now) t) }
{
    let _schema = types.schema();
    if left == 0 {
        return Err(Halt::Bad);
    }
    let child = match make_sub(mem, types, msg, field.number) {
        Ok(child) => child,
        Err(fault) => return Err(Halt::Refused(fault)),
    };
    let front = &bytes[..found.end as usize];
    parse_message(alloc, mem, types, child, front, found.payload, left - 1)
}

// Reads a record's payload into an empty message that is appended to a list.
#[cycle(parse)]
fn parse_element<M: Memory>(
    alloc: Global,
    mem: &mut M,
    types: &Layouts,
    msg: MsgRef,
    bytes: &[u8],
    found: WireRecord,
    field: FieldType,
    left: u32,
) -> Result<(), Halt>
    requires message { IsMessageIn types.now (M.places mem.old) (M.buffers mem.old) msg }
    requires taken { IsFor types.now msg.type_no bytes.now found field }
    requires short { length bytes.now < 2 ^ 25 }
    requires left { left ≤ 100 }
    requires kind { IsMessageType (value_type_of field.kind) }
    requires list { IsList field.card }
    ensures put { IfOk result (λ _. (t : Shape) (feet : List Foot) → Stands types.now (M.places mem.old) (M.buffers mem.old) msg t feet
        → NowStands types.now (M.places mem.old) (M.buffers mem.old) (M.places mem.new) (M.buffers mem.new) msg (with_taken types.now left msg.type_no field (record_at found bytes.now) t) feet) }
    ensures sound { IfOk result (λ _. IsOk (contents_read types.now left field found bytes.now)) }
    ensures stopped { IfErr result (IsCause (M.blocks mem.new) (IsErr (contents_read types.now left field found bytes.now))) }
    ensures changes { (t : Shape) (feet : List Foot) → Stands types.now (M.places mem.old) (M.buffers mem.old) msg t feet
        → Changes M.key M.places M.buffers M.blocks (4 * found.payload_len + 4) (4 * found.payload_len + 4) feet mem.old mem.new }
    ensures costs { IfOk result (λ _. (t : Shape) (feet : List Foot) → Stands types.now (M.places mem.old) (M.buffers mem.old) msg t feet
        → CostsTaken types.now left (M.places mem.old) (M.buffers mem.old) (M.places mem.new) (M.buffers mem.new) msg field (record_at found bytes.now) t) }
{
    if left == 0 {
        return Err(Halt::Bad);
    }
    if count(mem, types, msg, field.number) >= MOST_ELEMENTS {
        return Err(Halt::Refused(MemFault::NoMemory));
    }
    let child = match append_sub(mem, types, msg, field.number) {
        Ok(child) => child,
        Err(fault) => return Err(Halt::Refused(fault)),
    };
    let front = &bytes[..found.end as usize];
    parse_message(alloc, mem, types, child, front, found.payload, left - 1)
}
