// Names and lists are made, and lend what they were made of; and the built-in types are found by their names.
use super::*;
use std::process::Abort;
use std::test::Fail;

#[test]
fn a_schema_is_made_of_lists(rt: HostRuntime) -> Result<(), Fail> {
    let field = FieldType {
        number: 1,
        kind: Kind::UInt64,
        card: Card::Implicit,
    };
    let name = Name::of(rt.alloc(), "pb.Tick");
    assert!(rt; name.is_ok());
    let Ok(name) = name else {
        return Ok(());
    };
    assert_eq!(rt; name.as_str(), "pb.Tick");
    let shown = format!(in rt.alloc(); "{name:?}")?;
    assert_eq!(rt; shown.as_str(), "Name { text: \"pb.Tick\" }");
    let fields = FieldList::of(vec![in rt.alloc(); field]?);
    assert_eq!(rt; fields.items(), [field].as_slice());
    let types = TypeList::of(vec![in rt.alloc();
        MessageType {
            name,
            fields,
            oneofs: 0
        },
    ]?);
    assert_eq!(rt; types.items().len(), 1);
    let bytes = ByteList::of(b"\x08\x01".to_vec(rt.alloc())?);
    assert_eq!(rt; bytes.items(), b"\x08\x01".as_slice());
    Ok(())
}

#[test]
fn the_built_in_types_are_found(rt: HostRuntime) -> Result<(), Fail> {
    let schema = builtin(rt.alloc())?;
    assert_eq!(rt; schema.find("pb.Tick"), Some(0));
    assert_eq!(rt; schema.find("pb.Node"), Some(1));
    assert_eq!(rt; schema.find("pb.Nod"), None);
    assert_eq!(rt; schema.find(".pb.Node"), None);
    assert_eq!(rt; schema.find(""), None);
    assert_eq!(rt; schema.types.items().len(), 2);
    Ok(())
}

#[test]
fn of_types_with_one_name_the_first_is_found(rt: HostRuntime) -> Result<(), Fail> {
    let mut types = Vec::new(rt.alloc());
    for text in ["a", "b", "b"] {
        types.push(MessageType {
            name: Name::of(rt.alloc(), text)?,
            fields: FieldList::of(Vec::new(rt.alloc())),
            oneofs: 0,
        })?;
    }
    let schema = Schema {
        types: TypeList::of(types),
    };
    assert_eq!(rt; schema.find("b"), Some(1));
    Ok(())
}
