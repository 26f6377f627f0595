// The records of the built-in types.
ghost use Rattle.std.specs.Prelude.{length, ◌≡◌, IfOk};
ghost use Rattle.pb_schema.specs.Lawful.{NumbersAscend, FieldsAllowed};

use super::*;
use pb_schema::{Card, FieldList, FieldType, Kind, MessageType, Name, Schema, TypeList, builtin};
use std::alloc::{AllocError, Global};
use std::process::Abort;
use std::test::Fail;

#[test]
fn built_in_types_have_these_records(rt: HostRuntime) -> Result<(), Fail> {
    let schema = builtin(rt.alloc())?;
    let made = layouts(rt.alloc(), schema)?;
    assert_eq!(rt; made.schema().types.items().len(), 2);
    assert_eq!(rt; made.record_size(0), 32);
    assert_eq!(rt; made.record_size(1), 192);
    let node = made.of_type(1);
    assert_eq!(rt; node.unknown(), 8);
    assert_eq!(rt; node.word_of(0), Some(0));
    assert_eq!(rt; node.word_of(1), None);
    // Name, count, child, mark, blob, next, word and node.
    let slots = [32, 184, 56, 80, 104, 152, 128, 168];
    assert_eq!(rt; node.entries().len(), slots.len());
    for (entry, slot) in node.entries().iter().zip(slots) {
        assert_eq!(rt; entry.slot, slot);
        let marked = entry.field.number > 6;
        let mark = if marked {
            Mark::Word(0)
        } else {
            Mark::Unmarked
        };
        assert_eq!(rt; entry.mark, mark);
        assert_eq!(rt; node.find(entry.field.number), Some(*entry));
    }
    assert_eq!(rt; made.entry(1, 9), None);
    assert_eq!(rt; made.entry(0, 0), None);
    assert_eq!(rt; made.entry(0, 536_870_911), None);
    Ok(())
}

// As many fields as a type may have, the last of them with the greatest number.
fn far_fields(alloc: Global) -> Result<Vec<FieldType>, AllocError>
    ensures numbers { IfOk result (λ fields. NumbersAscend 1 fields.items) }
    ensures allowed { IfOk result (λ fields. FieldsAllowed 1 0 fields.items) }
    ensures count { IfOk result (λ fields. length fields.items ≡ 512) }
{
    let mut fields = Vec::new(alloc);
    for place in 0..512u32 {
        let number = place * (1 << 20) + ((1 << 20) - 1);
        fields.push(FieldType {
            number,
            kind: Kind::UInt32,
            card: Card::Implicit,
        })?;
    }
    Ok(fields)
}

#[test]
fn the_widest_type_finds_each_of_its_fields(rt: HostRuntime) -> Result<(), Fail> {
    let wide = MessageType {
        name: Name::of(rt.alloc(), "Wide")?,
        fields: FieldList::of(far_fields(rt.alloc())?),
        oneofs: 0,
    };
    let schema = Schema {
        types: TypeList::of(vec![in rt.alloc(); wide]?),
    };
    let made = layouts(rt.alloc(), schema)?;
    assert_eq!(rt; made.record_size(0), 24 + 512 * 4);
    let layout = made.of_type(0);
    for (place, entry) in layout.entries().iter().enumerate() {
        assert_eq!(rt; entry.slot as usize, 24 + 4 * place);
        assert_eq!(rt; layout.find(entry.field.number), Some(*entry));
        // The numbers are odd, so this one is no field's.
        assert_eq!(rt; layout.find(entry.field.number ^ 1), None);
    }
    assert!(rt; layout.find(536_870_911).is_some());
    Ok(())
}
