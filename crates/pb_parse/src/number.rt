// Numbers of all kinds in bytes.
ghost use Rattle.std.specs.Prelude.{◌≡◌, ◌-◌, ◌+◌, ◌<◌, ◌≤◌, ◌^◌, ℕ, true, length, take, drop, Ok, Err, IfSome, MatchOption};
ghost use Rattle.pb_schema.specs.declared.wire_fault.WireFault.{WireFault};
ghost use Rattle.pb_schema.specs.Kinds.{Coding, Scalar, unzigzag, value_type_of};
ghost use Rattle.pb_schema.specs.Form.{read_scalar};
ghost use Rattle.pb_schema.specs.TreeOf.{little_endian, pattern_in};
ghost use Rattle.dyn_message.specs.Fields.{IsNumberType};
ghost use Rattle.pb_parse.specs.Contents.{IsNumberWire};
ghost use Rattle.pb_parse.specs.Numbers.{IsFound, IsFoundOrNone, KeepsSmall, kept_by};

use crate::contents::{EIGHT_BYTES, FOUR_BYTES, wire_of_kind};
use pb_schema::Kind;
use pb_wire::find_value;

/// How many numbers 32 bits spell.
const LOW_END: u64 = 1 << 32;

/// The number of a kind at a place, as its bit pattern, and the place behind it; none where no whole number stands there.
#[inline(never)]
pub fn number_at(bytes: &[u8], at: u32, kind: Kind) -> Option<(u64, u32)>
    requires number { IsNumberType (value_type_of kind) }
    requires at { at ≤ length bytes.now }
    requires short { length bytes.now < 2 ^ 31 }
    ensures { (coding : Coding) → value_type_of kind ≡ Scalar coding → MatchOption result
        ((fault : WireFault) × (read_scalar coding.wire at (drop at bytes.now) ≡ Err fault))
        (λ found. (read_scalar coding.wire at (drop at bytes.now) ≡ Ok (found.1 - at)) × (at < found.1) × (found.1 ≤ length bytes.now)
        × (found.0 ≡ pattern_in coding (take (found.1 - at) (drop at bytes.now))) × (found.0 < coding.patterns)) }
{
    match spelled_at(bytes, at, wire_of_kind(kind)) {
        Some((number, behind)) => Some((kept(kind, number), behind)),
        None => None,
    }
}

/// Whether a small number of this kind is a varint, and its own pattern.
#[inline]
pub fn keeps_small(kind: Kind) -> bool
    ensures { result ≡ true → KeepsSmall (value_type_of kind) }
{
    matches!(
        kind,
        Kind::Int32 | Kind::Int64 | Kind::UInt32 | Kind::UInt64 | Kind::Enumeration
    )
}

/// The same as [`number_at`], where most numbers are small and of a kind that keeps them: those are read straight away.
#[inline(always)]
pub fn next_number(bytes: &[u8], at: u32, kind: Kind, plain: bool) -> Option<(u64, u32)>
    requires number { IsNumberType (value_type_of kind) }
    requires plain { plain ≡ true → KeepsSmall (value_type_of kind) }
    requires at { at ≤ length bytes.now }
    requires short { length bytes.now < 2 ^ 31 }
    ensures { (coding : Coding) → value_type_of kind ≡ Scalar coding → MatchOption result
        ((fault : WireFault) × (read_scalar coding.wire at (drop at bytes.now) ≡ Err fault))
        (λ found. (read_scalar coding.wire at (drop at bytes.now) ≡ Ok (found.1 - at)) × (at < found.1) × (found.1 ≤ length bytes.now)
        × (found.0 ≡ pattern_in coding (take (found.1 - at) (drop at bytes.now))) × (found.0 < coding.patterns)) }
{
    if plain {
        if let Some(found) = small_at(bytes, at) {
            return Some(found);
        }
    }
    number_at(bytes, at, kind)
}

// The varint of one or two bytes at a place, and the place behind it, where such a one stands there.
#[inline(always)]
fn small_at(bytes: &[u8], at: u32) -> Option<(u64, u32)>
    requires at { at ≤ length bytes.now }
    requires short { length bytes.now < 2 ^ 31 }
    ensures { IfSome result (λ found. IsFound 0 at (drop at bytes.now) found.0 found.1 × (found.0 < 2 ^ 14)) }
{
    let start = at as usize;
    if start >= bytes.len() {
        return None;
    }
    let low = u64::from(bytes[start]);
    if low < 128 {
        return Some((low, at + 1));
    }
    if bytes.len() - start < 2 {
        return None;
    }
    let high = u64::from(bytes[start + 1]);
    if high < 128 {
        return Some((low % 128 + high * 128, at + 2));
    }
    None
}

// The number that the bytes of this wire type spell at a place, and the place behind it.
#[inline]
fn spelled_at(bytes: &[u8], at: u32, wire: u8) -> Option<(u64, u32)>
    requires wire { IsNumberWire wire }
    requires at { at ≤ length bytes.now }
    requires short { length bytes.now < 2 ^ 31 }
    ensures { IsFoundOrNone wire at (drop at bytes.now) result }
{
    if wire == EIGHT_BYTES {
        eight_at(bytes, at)
    } else if wire == FOUR_BYTES {
        four_at(bytes, at)
    } else {
        varint_at(bytes, at)
    }
}

#[inline(always)]
fn varint_at(bytes: &[u8], at: u32) -> Option<(u64, u32)>
    requires at { at ≤ length bytes.now }
    requires short { length bytes.now < 2 ^ 31 }
    ensures { IsFoundOrNone 0 at (drop at bytes.now) result }
{
    match find_value(bytes, at as usize, bytes.len()) {
        Some((value, behind)) => Some((value, behind as u32)),
        None => None,
    }
}

#[inline]
fn eight_at(bytes: &[u8], at: u32) -> Option<(u64, u32)>
    requires at { at ≤ length bytes.now }
    requires short { length bytes.now < 2 ^ 31 }
    ensures { IsFoundOrNone 1 at (drop at bytes.now) result }
{
    if bytes.len() - (at as usize) < 8 {
        return None;
    }
    Some((long_at(bytes, at), at + 8))
}

#[inline]
fn four_at(bytes: &[u8], at: u32) -> Option<(u64, u32)>
    requires at { at ≤ length bytes.now }
    requires short { length bytes.now < 2 ^ 31 }
    ensures { IsFoundOrNone 5 at (drop at bytes.now) result }
{
    if bytes.len() - (at as usize) < 4 {
        return None;
    }
    Some((u64::from(word_at(bytes, at)), at + 4))
}

// The number of eight bytes at a place, the lowest byte first.
#[inline]
fn long_at(bytes: &[u8], at: u32) -> u64
    requires { at + 8 ≤ length bytes.now }
    ensures { result ≡ little_endian (take 8 (drop at bytes.now)) }
{
    let start = at as usize;
    let mut long = [0u8; 8];
    long.copy_from_slice(&bytes[start..start + 8]);
    u64::from_le_bytes(long)
}

// The same of four bytes.
#[inline]
fn word_at(bytes: &[u8], at: u32) -> u32
    requires { at + 4 ≤ length bytes.now }
    ensures { result ≡ little_endian (take 4 (drop at bytes.now)) }
{
    let start = at as usize;
    let mut word = [0u8; 4];
    word.copy_from_slice(&bytes[start..start + 4]);
    u32::from_le_bytes(word)
}

// The pattern of the number that stands on the wire, by the kind.
#[inline(always)]
fn kept(kind: Kind, number: u64) -> u64
    ensures { result ≡ kept_by (value_type_of kind) number }
{
    match kind {
        Kind::Bool => u64::from(number != 0),
        Kind::Int32 | Kind::UInt32 | Kind::Enumeration => number % LOW_END,
        Kind::SInt32 => unzigzag_low(number % LOW_END),
        Kind::SInt64 => unzigzag_all(number),
        _ => number,
    }
}

// 0, -1, 1, -2 and so on are written 0, 1, 2, 3; here in 32 bits.
#[inline]
fn unzigzag_low(number: u64) -> u64
    requires { number < 2 ^ 32 }
    ensures { result ≡ unzigzag (2 ^ 32) number }
{
    if number % 2 == 0 {
        number / 2
    } else {
        LOW_END - 1 - number / 2
    }
}

// The same in 64 bits.
#[inline]
fn unzigzag_all(number: u64) -> u64
    ensures { result ≡ unzigzag (2 ^ 64) number }
{
    if number % 2 == 0 {
        number / 2
    } else {
        !(number / 2)
    }
}
