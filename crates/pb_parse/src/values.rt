// Records of fields that hold numbers, texts and bytes.
ghost use Rattle.std.specs.Prelude.{◌≡◌, ◌≢◌, ◌-◌, ◌+◌, ◌*◌, ◌<◌, ◌≤◌, ◌^◌, ◌∷◌, [], ℕ, List, Some, length, drop, true, IfOk, IfErr, IsOk, IsErr};
ghost use Rattle.std.specs.FinMap as fin;
ghost use Rattle.arena_mem.specs.Places.{NamesFullRegion, used};
ghost use Rattle.pb_schema.specs.Kinds.{value_type_of};
ghost use Rattle.pb_schema.specs.Meter.{array_bytes, cleanups, string_bytes};
ghost use Rattle.pb_schema.specs.Tree.{Shape, Number, Bytes};
ghost use Rattle.dyn_message.specs.Feet.{Foot, InPlace};
ghost use Rattle.dyn_message.specs.Stands.{Stands, IsSingle, IsList};
ghost use Rattle.dyn_message.specs.Changes.{Changes, NowStands};
ghost use Rattle.dyn_message.specs.Fields.{IsMessageIn, IsNumberType, IsBytesType};
ghost use Rattle.dyn_message.specs.Lists.{ListsNumber, ListsBytes, count_at, element_bytes, with_appended};
ghost use Rattle.dyn_message.specs.Rooms.{IsListAt};
ghost use Rattle.msg_layout.specs.Layout.{entry_of};
ghost use Rattle.pb_parse.specs.Parsing.{CostsTaken, IsCause, IsFor, fits_kind};
ghost use Rattle.pb_parse.specs.Reading.{contents_read, record_at, with_taken};

use crate::number::{keeps_small, next_number, number_at};
use crate::stop::Halt;
use crate::unknown::MOST_ELEMENTS;
use arena_mem::{MemFault, Memory, Place};
use dyn_message::{
    MsgRef, append_bytes, append_scalar, append_scalar_by, count, entry_in, list_by, set_bytes,
    set_scalar,
};
use msg_layout::Entry;
use msg_layout::tables::Layouts;
use pb_schema::{FieldType, Kind};
use pb_wire::WireRecord;

/// Sets a field of one number to a record's. It takes no memory.
pub fn set_number<M: Memory>(
    mem: &mut M,
    types: &Layouts,
    msg: MsgRef,
    bytes: &[u8],
    found: WireRecord,
    field: FieldType,
)
    requires message { IsMessageIn types.now (M.places mem.old) (M.buffers mem.old) msg }
    requires taken { IsFor types.now msg.type_no bytes.now found field }
    requires short { length bytes.now < 2 ^ 25 }
    requires number { IsNumberType (value_type_of field.kind) }
    requires single { IsSingle field.card }
    ensures put { (left : ℕ) (t : Shape) (feet : List Foot) → Stands types.now (M.places mem.old) (M.buffers mem.old) msg t feet
        → NowStands types.now (M.places mem.old) (M.buffers mem.old) (M.places mem.new) (M.buffers mem.new) msg (with_taken types.now left msg.type_no field (record_at found bytes.now) t) feet }
    ensures sound { (left : ℕ) → IsOk (contents_read types.now left field found bytes.now) }
    ensures changes { Changes M.key M.places M.buffers M.blocks 0 0 (InPlace msg.place ∷ []) mem.old mem.new }
    ensures costs { (left : ℕ) (t : Shape) → CostsTaken types.now left (M.places mem.old) (M.buffers mem.old) (M.places mem.new) (M.buffers mem.new) msg field (record_at found bytes.now) t }
{
    let Some((bits, _)) = number_at(bytes, found.payload, field.kind) else {
        unreachable!()
    };
    set_scalar(mem, types, msg, field.number, bits);
}

/// Sets a field of one text or bytes to a record's payload.
pub fn set_string<M: Memory>(
    mem: &mut M,
    types: &Layouts,
    msg: MsgRef,
    bytes: &[u8],
    found: WireRecord,
    field: FieldType,
) -> Result<(), Halt>
    requires message { IsMessageIn types.now (M.places mem.old) (M.buffers mem.old) msg }
    requires taken { IsFor types.now msg.type_no bytes.now found field }
    requires short { length bytes.now < 2 ^ 25 }
    requires bytes { IsBytesType (value_type_of field.kind) }
    requires single { IsSingle field.card }
    ensures put { IfOk result (λ _. (left : ℕ) (t : Shape) (feet : List Foot) → Stands types.now (M.places mem.old) (M.buffers mem.old) msg t feet
        → NowStands types.now (M.places mem.old) (M.buffers mem.old) (M.places mem.new) (M.buffers mem.new) msg (with_taken types.now left msg.type_no field (record_at found bytes.now) t) feet) }
    ensures sound { IfOk result (λ _. (left : ℕ) → IsOk (contents_read types.now left field found bytes.now)) }
    ensures stopped { IfErr result (IsCause (M.blocks mem.new) ((left : ℕ) → IsErr (contents_read types.now left field found bytes.now))) }
    ensures changes { Changes M.key M.places M.buffers M.blocks 1 1 (InPlace msg.place ∷ []) mem.old mem.new }
    ensures costs { IfOk result (λ _. (left : ℕ) (t : Shape) → CostsTaken types.now left (M.places mem.old) (M.buffers mem.old) (M.places mem.new) (M.buffers mem.new) msg field (record_at found bytes.now) t) }
{
    let payload = &bytes[found.payload as usize..found.end as usize];
    if !is_string(field.kind, payload) {
        return Err(Halt::Bad);
    }
    match set_bytes(mem, types, msg, field.number, payload) {
        Ok(()) => Ok(()),
        Err(fault) => Err(Halt::Refused(fault)),
    }
}

// Whether bytes may be a value of a kind: a text is UTF-8.
fn is_string(kind: Kind, bytes: &[u8]) -> bool
    requires { IsBytesType (value_type_of kind) }
    ensures { result ≡ fits_kind (value_type_of kind) bytes.now }
{
    match kind {
        Kind::Text => match str::from_utf8(bytes) {
            Ok(_) => true,
            Err(_) => false,
        },
        _ => true,
    }
}

/// Appends a record's number to a list.
pub fn append_number<M: Memory>(
    mem: &mut M,
    types: &Layouts,
    msg: MsgRef,
    bytes: &[u8],
    found: WireRecord,
    field: FieldType,
) -> Result<(), Halt>
    requires message { IsMessageIn types.now (M.places mem.old) (M.buffers mem.old) msg }
    requires taken { IsFor types.now msg.type_no bytes.now found field }
    requires short { length bytes.now < 2 ^ 25 }
    requires number { IsNumberType (value_type_of field.kind) }
    requires list { IsList field.card }
    requires one { found.wire ≢ 2 }
    ensures put { IfOk result (λ _. (left : ℕ) (t : Shape) (feet : List Foot) → Stands types.now (M.places mem.old) (M.buffers mem.old) msg t feet
        → NowStands types.now (M.places mem.old) (M.buffers mem.old) (M.places mem.new) (M.buffers mem.new) msg (with_taken types.now left msg.type_no field (record_at found bytes.now) t) feet) }
    ensures sound { (left : ℕ) → IsOk (contents_read types.now left field found bytes.now) }
    ensures stopped { IfErr result (IsCause (M.blocks mem.new) ⊥) }
    ensures changes { (t : Shape) (feet : List Foot) → Stands types.now (M.places mem.old) (M.buffers mem.old) msg t feet → Changes M.key M.places M.buffers M.blocks 1 0 feet mem.old mem.new }
    ensures costs { IfOk result (λ _. (left : ℕ) (t : Shape) (feet : List Foot) → Stands types.now (M.places mem.old) (M.buffers mem.old) msg t feet
        → CostsTaken types.now left (M.places mem.old) (M.buffers mem.old) (M.places mem.new) (M.buffers mem.new) msg field (record_at found bytes.now) t) }
{
    let Some((bits, _)) = number_at(bytes, found.payload, field.kind) else {
        unreachable!()
    };
    match append_one(mem, types, msg, field.number, bits) {
        Ok(()) => Ok(()),
        Err(fault) => Err(Halt::Refused(fault)),
    }
}

/// Appends the numbers of a packed record to a list, one by one. It isn't inlined, so that the recursive function that calls
/// it stays small.
#[inline(never)]
pub fn append_packed<M: Memory>(
    mem: &mut M,
    types: &Layouts,
    msg: MsgRef,
    bytes: &[u8],
    found: WireRecord,
    field: FieldType,
) -> Result<(), Halt>
    requires message { IsMessageIn types.now (M.places mem.old) (M.buffers mem.old) msg }
    requires taken { IsFor types.now msg.type_no bytes.now found field }
    requires short { length bytes.now < 2 ^ 25 }
    requires number { IsNumberType (value_type_of field.kind) }
    requires list { IsList field.card }
    requires packed { found.wire ≡ 2 }
    ensures put { IfOk result (λ _. (left : ℕ) (t : Shape) (feet : List Foot) → Stands types.now (M.places mem.old) (M.buffers mem.old) msg t feet
        → NowStands types.now (M.places mem.old) (M.buffers mem.old) (M.places mem.new) (M.buffers mem.new) msg (with_taken types.now left msg.type_no field (record_at found bytes.now) t) feet) }
    ensures sound { IfOk result (λ _. (left : ℕ) → IsOk (contents_read types.now left field found bytes.now)) }
    ensures stopped { IfErr result (IsCause (M.blocks mem.new) ((left : ℕ) → IsErr (contents_read types.now left field found bytes.now))) }
    ensures changes { (t : Shape) (feet : List Foot) → Stands types.now (M.places mem.old) (M.buffers mem.old) msg t feet → Changes M.key M.places M.buffers M.blocks found.payload_len 0 feet mem.old mem.new }
    ensures costs { IfOk result (λ _. (left : ℕ) (t : Shape) (feet : List Foot) → Stands types.now (M.places mem.old) (M.buffers mem.old) msg t feet
        → CostsTaken types.now left (M.places mem.old) (M.buffers mem.old) (M.places mem.new) (M.buffers mem.new) msg field (record_at found bytes.now) t) }
{
    let _schema = types.schema();
    let front = &bytes[..found.end as usize];
    let number = field.number;
    let entry = entry_in(types, msg.type_no, number);
    let (mut array, mut count) = list_by(mem, types, msg, number, entry);
    let plain = keeps_small(field.kind);
    let mut at = found.payload;
    while at < found.end {
        let Some((bits, behind)) = next_number(front, at, field.kind, plain) else {
            return Err(Halt::Bad);
        };
        match append_next(mem, types, msg, number, entry, array, count, bits) {
            Ok(next) => array = next,
            Err(fault) => return Err(Halt::Refused(fault)),
        }
        count += 1;
        at = behind;
    }
    Ok(())
}

/// Appends a record's payload to a list of texts or bytes.
pub fn append_string<M: Memory>(
    mem: &mut M,
    types: &Layouts,
    msg: MsgRef,
    bytes: &[u8],
    found: WireRecord,
    field: FieldType,
) -> Result<(), Halt>
    requires message { IsMessageIn types.now (M.places mem.old) (M.buffers mem.old) msg }
    requires taken { IsFor types.now msg.type_no bytes.now found field }
    requires short { length bytes.now < 2 ^ 25 }
    requires bytes { IsBytesType (value_type_of field.kind) }
    requires list { IsList field.card }
    ensures put { IfOk result (λ _. (left : ℕ) (t : Shape) (feet : List Foot) → Stands types.now (M.places mem.old) (M.buffers mem.old) msg t feet
        → NowStands types.now (M.places mem.old) (M.buffers mem.old) (M.places mem.new) (M.buffers mem.new) msg (with_taken types.now left msg.type_no field (record_at found bytes.now) t) feet) }
    ensures sound { IfOk result (λ _. (left : ℕ) → IsOk (contents_read types.now left field found bytes.now)) }
    ensures stopped { IfErr result (IsCause (M.blocks mem.new) ((left : ℕ) → IsErr (contents_read types.now left field found bytes.now))) }
    ensures changes { (t : Shape) (feet : List Foot) → Stands types.now (M.places mem.old) (M.buffers mem.old) msg t feet → Changes M.key M.places M.buffers M.blocks 2 1 feet mem.old mem.new }
    ensures costs { IfOk result (λ _. (left : ℕ) (t : Shape) (feet : List Foot) → Stands types.now (M.places mem.old) (M.buffers mem.old) msg t feet
        → CostsTaken types.now left (M.places mem.old) (M.buffers mem.old) (M.places mem.new) (M.buffers mem.new) msg field (record_at found bytes.now) t) }
{
    let payload = &bytes[found.payload as usize..found.end as usize];
    if !is_string(field.kind, payload) {
        return Err(Halt::Bad);
    }
    match append_some(mem, types, msg, field.number, payload) {
        Ok(()) => Ok(()),
        Err(fault) => Err(Halt::Refused(fault)),
    }
}

// Appends a number. A list that has all that it may have is refused: no payload of fewer than 2^25 bytes comes so far.
fn append_one<M: Memory>(
    mem: &mut M,
    types: &Layouts,
    msg: MsgRef,
    number: u32,
    bits: u64,
) -> Result<(), MemFault>
    requires message { IsMessageIn types.now (M.places mem.old) (M.buffers mem.old) msg }
    requires field { ListsNumber types.now msg.type_no number bits }
    ensures appended { IfOk result (λ _. (t : Shape) (feet : List Foot) → Stands types.now (M.places mem.old) (M.buffers mem.old) msg t feet
        → NowStands types.now (M.places mem.old) (M.buffers mem.old) (M.places mem.new) (M.buffers mem.new) msg (with_appended types.now msg.type_no number (Number bits) t) feet) }
    ensures changes { (t : Shape) (feet : List Foot) → Stands types.now (M.places mem.old) (M.buffers mem.old) msg t feet → Changes M.key M.places M.buffers M.blocks 1 0 feet mem.old mem.new }
    ensures space { IfOk result (λ _. (t : Shape) (feet : List Foot) → Stands types.now (M.places mem.old) (M.buffers mem.old) msg t feet
        → used (M.places mem.new) ≡ used (M.places mem.old) + array_bytes (element_bytes types.now msg.type_no number) (count_at types.now msg.type_no number t) (count_at types.now msg.type_no number t + 1)) }
    ensures buffers { M.buffers mem.new ≡ M.buffers mem.old }
    ensures spent { IfErr result (NamesFullRegion (M.blocks mem.new)) }
{
    if count(mem, types, msg, number) >= MOST_ELEMENTS {
        return Err(MemFault::NoMemory);
    }
    append_scalar(mem, types, msg, number, bits)
}

// The same behind the elements that the list's slot tells of; it answers where they lie then.
#[inline(always)]
fn append_next<M: Memory>(
    mem: &mut M,
    types: &Layouts,
    msg: MsgRef,
    number: u32,
    entry: Entry,
    array: Place,
    count: u32,
    bits: u64,
) -> Result<Place, MemFault>
    requires message { IsMessageIn types.now (M.places mem.old) (M.buffers mem.old) msg }
    requires entry { entry_of types.now msg.type_no number ≡ Some entry }
    requires field { ListsNumber types.now msg.type_no number bits }
    requires told { IsListAt (M.places mem.old) msg.place entry.slot array count }
    ensures appended { IfOk result (λ _. (t : Shape) (feet : List Foot) → Stands types.now (M.places mem.old) (M.buffers mem.old) msg t feet
        → NowStands types.now (M.places mem.old) (M.buffers mem.old) (M.places mem.new) (M.buffers mem.new) msg (with_appended types.now msg.type_no number (Number bits) t) feet) }
    ensures told { IfOk result (λ next. IsListAt (M.places mem.new) msg.place entry.slot next (count + 1)) }
    ensures few { IfOk result (λ _. count < 2 ^ 26) }
    ensures changes { (t : Shape) (feet : List Foot) → Stands types.now (M.places mem.old) (M.buffers mem.old) msg t feet → Changes M.key M.places M.buffers M.blocks 1 0 feet mem.old mem.new }
    ensures space { IfOk result (λ _. (t : Shape) (feet : List Foot) → Stands types.now (M.places mem.old) (M.buffers mem.old) msg t feet
        → used (M.places mem.new) ≡ used (M.places mem.old) + array_bytes (element_bytes types.now msg.type_no number) (count_at types.now msg.type_no number t) (count_at types.now msg.type_no number t + 1)) }
    ensures buffers { M.buffers mem.new ≡ M.buffers mem.old }
    ensures spent { IfErr result (NamesFullRegion (M.blocks mem.new)) }
{
    if count >= MOST_ELEMENTS {
        return Err(MemFault::NoMemory);
    }
    append_scalar_by(mem, types, msg, number, entry, array, count, bits)
}

// The same of a text or bytes.
fn append_some<M: Memory>(
    mem: &mut M,
    types: &Layouts,
    msg: MsgRef,
    number: u32,
    bytes: &[u8],
) -> Result<(), MemFault>
    requires message { IsMessageIn types.now (M.places mem.old) (M.buffers mem.old) msg }
    requires field { ListsBytes types.now msg.type_no number bytes.now }
    requires short { length bytes.now < 2 ^ 31 }
    ensures appended { IfOk result (λ _. (t : Shape) (feet : List Foot) → Stands types.now (M.places mem.old) (M.buffers mem.old) msg t feet
        → NowStands types.now (M.places mem.old) (M.buffers mem.old) (M.places mem.new) (M.buffers mem.new) msg (with_appended types.now msg.type_no number (Bytes bytes.now) t) feet) }
    ensures changes { (t : Shape) (feet : List Foot) → Stands types.now (M.places mem.old) (M.buffers mem.old) msg t feet → Changes M.key M.places M.buffers M.blocks 2 1 feet mem.old mem.new }
    ensures space { IfOk result (λ _. (t : Shape) (feet : List Foot) → Stands types.now (M.places mem.old) (M.buffers mem.old) msg t feet
        → used (M.places mem.new) ≡ used (M.places mem.old) + string_bytes (length bytes.now) + array_bytes 24 (count_at types.now msg.type_no number t) (count_at types.now msg.type_no number t + 1)) }
    ensures kept { IfOk result (λ _. fin.len (M.buffers mem.new) ≡ fin.len (M.buffers mem.old) + cleanups.bytes (length bytes.now)) }
    ensures spent { IfErr result (NamesFullRegion (M.blocks mem.new)) }
{
    if count(mem, types, msg, number) >= MOST_ELEMENTS {
        return Err(MemFault::NoMemory);
    }
    append_bytes(mem, types, msg, number, bytes)
}
