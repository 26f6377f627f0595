// The text of a fault, told to a sink piece by piece.
ghost use Rattle.std.specs.Prelude.{◌≡◌, ◌++◌, [], ◌∷◌, None, Some, OnOk, OnErr, IfOk, codes};
ghost use Rattle.std.specs.Fmt.{decimal};
ghost use Rattle.std.specs.Io.KnownBytes.{Appends};
ghost use Rattle.std.specs.String.{string_bytes};
ghost use Rattle.arena_mem.specs.Outside.{HasCause, TookPart};
ghost use Rattle.arena_run.specs.declared.fault.Fault.{Fault as TheFault};
ghost use Rattle.arena_run.specs.FaultTexts.{IsTold, fault_text_of, input_words, piece_text, pieces_text, set_parts, wire_words};
ghost use Rattle.std.specs.List.{concat};

use crate::fault::{Fault, InputKind};
use arena_mem::{Failed, Sink};
use desc_pool::SchemaFault;
use itoa::Buffer;
use no_memory::NoMemory;
use pb_schema::Name;
use pb_wire::WireKind;
use std::alloc::Global;

/// A piece of a text.
#[derive(Clone, Copy, Debug)]
enum Piece<'a> {
    Words(&'static str),
    /// In decimal.
    Number(u32),
    FullName(&'a Name),
}

/// The text of a fault: one line, with a line feed.
pub fn fault_text(alloc: Global, fault: &Fault) -> Result<String, NoMemory>
    ensures { IfOk result (λ text. string_bytes text ≡ fault_text_of fault.now) }
{
    let pieces = pieces_of(fault);
    joined(alloc, &pieces)
}

// The pieces, one behind the other.
fn joined(alloc: Global, pieces: &[Piece<'_>]) -> Result<String, NoMemory>
    ensures { IfOk result (λ text. string_bytes text ≡ pieces_text pieces.now) }
{
    let mut text = String::new(alloc);
    for piece in pieces {
        push_piece(&mut text, *piece)?;
    }
    Ok(text)
}

fn push_piece(text: &mut String, piece: Piece<'_>) -> Result<(), NoMemory>
    ensures { OnOk result (string_bytes text.new ≡ string_bytes text.old ++ piece_text piece.entry) }
{
    match piece {
        Piece::Words(words) => text.push_str(words)?,
        Piece::Number(number) => {
            let mut digits = Buffer::new();
            text.push_str(digits.format(number))?;
        }
        Piece::FullName(name) => text.push_str(name.as_str())?,
    }
    Ok(())
}

/// Tells a sink the fault that a run ended with, where there is one. What the sink answers changes nothing.
pub fn tell_end<E: Sink>(end: &Option<Fault>, err: &mut E)
    ensures untold { end.now ≡ None → err.new ≡ err.old }
    ensures told { (fault : TheFault) → end.now ≡ Some fault → IsTold fault (E.taken err.old) (E.taken err.new) (E.faults err.old) (E.faults err.new) }
{
    if let Some(fault) = end {
        let _ = tell(fault, err);
    }
}

// Tells a sink the text of a fault. It takes no memory.
fn tell<E: Sink>(fault: &Fault, err: &mut E) -> Result<(), Failed>
    ensures ok { OnOk result (Appends (E.taken err.old) (E.taken err.new) (fault_text_of fault.now)) }
    ensures err { OnErr result (TookPart (E.taken err.old) (E.taken err.new) (fault_text_of fault.now)) }
    ensures cause { HasCause (E.faults err.old) (E.faults err.new) result }
{
    let pieces = pieces_of(fault);
    write_pieces(&pieces, err)
}

// Writes the pieces, one behind the other.
fn write_pieces<E: Sink>(pieces: &[Piece<'_>], err: &mut E) -> Result<(), Failed>
    ensures ok { OnOk result (Appends (E.taken err.old) (E.taken err.new) (pieces_text pieces.now)) }
    ensures err { OnErr result (TookPart (E.taken err.old) (E.taken err.new) (pieces_text pieces.now)) }
    ensures cause { HasCause (E.faults err.old) (E.faults err.new) result }
{
    for piece in pieces {
        write_piece(*piece, err)?;
    }
    Ok(())
}

fn write_piece<E: Sink>(piece: Piece<'_>, err: &mut E) -> Result<(), Failed>
    ensures ok { OnOk result (Appends (E.taken err.old) (E.taken err.new) (piece_text piece.entry)) }
    ensures err { OnErr result (TookPart (E.taken err.old) (E.taken err.new) (piece_text piece.entry)) }
    ensures cause { HasCause (E.faults err.old) (E.faults err.new) result }
{
    match piece {
        Piece::Words(words) => write_bytes(words.as_bytes(), err),
        Piece::Number(number) => {
            let mut digits = Buffer::new();
            write_bytes(digits.format(number).as_bytes(), err)
        }
        Piece::FullName(name) => write_bytes(name.as_str().as_bytes(), err),
    }
}

// Writes all of the bytes, in as many calls as the sink wants.
fn write_bytes<E: Sink>(bytes: &[u8], err: &mut E) -> Result<(), Failed>
    ensures ok { OnOk result (Appends (E.taken err.old) (E.taken err.new) bytes.now) }
    ensures err { OnErr result (TookPart (E.taken err.old) (E.taken err.new) bytes.now) }
    ensures cause { HasCause (E.faults err.old) (E.faults err.new) result }
{
    let mut done = 0;
    while done < bytes.len() {
        done += err.write(&bytes[done..])?;
    }
    Ok(())
}

// The pieces of a fault's text.
#[tactic(auto, unfolding(crate::specs::FaultTexts::fault_text_of))]
fn pieces_of<'a>(fault: &'a Fault) -> [Piece<'a>; 5]
    ensures { pieces_text result ≡ fault_text_of fault.now }
{
    match fault {
        Fault::NoMemory => words("no memory\n"),
        Fault::Usage => words(
            "usage: cat SET TYPE FRAMES WORKERS, run SET TYPE FRAMES SCRIPT WORKERS or gen SEED COUNT WORKERS\n",
        ),
        Fault::Schema(refused) => pieces_of_set(refused),
        Fault::NoType { name } => named("schema: no type ", name),
        Fault::FrameCut { index } => around("frames: frame ", *index, " is cut\n"),
        Fault::BadFrame { index, fault } => [
            Piece::Words("frames: frame "),
            Piece::Number(*index),
            Piece::Words(words_of_kind(fault.kind)),
            Piece::Number(fault.byte),
            Piece::Words("\n"),
        ],
        Fault::ReadFault => words("read fault\n"),
        Fault::WriteFault => words("write fault\n"),
        Fault::TooLong { which, limit } => around(words_of_input(*which), *limit, "\n"),
        Fault::NotBuilt => words("not built\n"),
    }
}

// The pieces of the text of a set's fault.
fn pieces_of_set<'a>(refused: &'a SchemaFault) -> [Piece<'a>; 5]
    ensures { pieces_text result ≡ concat (set_parts refused.now) }
{
    match refused {
        SchemaFault::Malformed { byte } => around("schema: malformed at byte ", *byte, "\n"),
        SchemaFault::Syntax { file } => around("schema: file ", *file, " is not proto3\n"),
        SchemaFault::DuplicateName { name } => named("schema: duplicate name ", name),
        SchemaFault::BadNumber { name } => named("schema: bad number ", name),
        SchemaFault::DuplicateNumber { name } => named("schema: duplicate number ", name),
        SchemaFault::RelativeName { name } => named("schema: relative name ", name),
        SchemaFault::UnknownType { name } => named("schema: unknown type ", name),
        SchemaFault::BadOneof { name } => named("schema: bad oneof ", name),
        SchemaFault::UnsupportedType { name } => named("schema: unsupported type ", name),
        SchemaFault::TooMany { name } => named("schema: too many ", name),
    }
}

// A text of words alone.
fn words<'a>(text: &'static str) -> [Piece<'a>; 5]
    ensures { pieces_text result ≡ concat (text.now ∷ []) }
{
    let end = Piece::Words("");
    [Piece::Words(text), end, end, end, end]
}

// A text that ends with a name.
fn named<'a>(front: &'static str, name: &'a Name) -> [Piece<'a>; 5]
    ensures { pieces_text result ≡ concat (front.now ∷ name.now ∷ codes "\n" ∷ []) }
{
    let end = Piece::Words("");
    [
        Piece::Words(front),
        Piece::FullName(name),
        Piece::Words("\n"),
        end,
        end,
    ]
}

// A text around a number.
fn around<'a>(front: &'static str, number: u32, rest: &'static str) -> [Piece<'a>; 5]
    ensures { pieces_text result ≡ concat (front.now ∷ decimal number ∷ rest.now ∷ []) }
{
    let end = Piece::Words("");
    [
        Piece::Words(front),
        Piece::Number(number),
        Piece::Words(rest),
        end,
        end,
    ]
}

// What is wrong with a frame's bytes.
fn words_of_kind(kind: WireKind) -> &'static str
    ensures { result.now ≡ wire_words kind }
{
    match kind {
        WireKind::Cut => ": cut at byte ",
        WireKind::LongVarint => ": long varint at byte ",
        WireKind::BadTag => ": bad tag at byte ",
        WireKind::BadLength => ": bad length at byte ",
        WireKind::GroupEnd => ": group end at byte ",
        WireKind::TooDeep => ": too deep at byte ",
        WireKind::NotUtf8 => ": not UTF-8 at byte ",
    }
}

// What there is too much of.
fn words_of_input(which: InputKind) -> &'static str
    ensures { result.now ≡ input_words which }
{
    match which {
        InputKind::SetBytes => "set bytes above ",
        InputKind::FrameBytes => "frame bytes above ",
        InputKind::FrameCount => "frames above ",
    }
}
