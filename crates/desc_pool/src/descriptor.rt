// The messages in which a set is written, and what their records hold.
ghost use Rattle.std.specs.Prelude.{◌≡◌};
ghost use Rattle.desc_pool.specs.Contents.{contents_at, meaning};
ghost use Rattle.desc_pool.specs.declared.descriptor.Descriptor.TheVariants as descriptors;

/// The wire type of a payload behind its length.
pub(crate) const DELIMITED: u8 = 2;

/// The wire type of a number.
pub(crate) const VARINT: u8 = 0;

/// A message of descriptor.proto, from `FileDescriptorSet` to `EnumValueDescriptorProto`.
#[derive(Clone, Copy, Debug, PartialEq, Eq)]
pub(crate) enum Descriptor {
    Set,
    File,
    Message,
    Field,
    FieldOptions,
    MessageOptions,
    Oneof,
    Enumeration,
    EnumValue,
}

/// What the payload of a record has to be: anything, text in UTF-8, or a message.
#[derive(Clone, Copy, Debug, PartialEq, Eq)]
pub(crate) enum Contents {
    Anything,
    Text,
    Message(Descriptor),
}

/// What a record of this number and wire type in a message has to hold (descriptor.proto). Numbers can't be wrong by
/// themselves, and a field that isn't read holds anything.
pub(crate) fn contents_by(descriptor: Descriptor, number: u32, wire: u8) -> Contents
    ensures { meaning result ≡ contents_at descriptor number wire }
{
    if wire != DELIMITED {
        return Contents::Anything;
    }
    match descriptor {
        Descriptor::Set => set_contents(number),
        Descriptor::File => file_contents(number),
        Descriptor::Message => message_contents(number),
        Descriptor::Field => field_contents(number),
        Descriptor::FieldOptions => Contents::Anything,
        Descriptor::MessageOptions => Contents::Anything,
        Descriptor::Oneof => Contents::Anything,
        Descriptor::Enumeration => enum_contents(number),
        Descriptor::EnumValue => enum_value_contents(number),
    }
}

fn set_contents(number: u32) -> Contents
    ensures { meaning result ≡ contents_at descriptors.Set number 2 }
{
    match number {
        1 => Contents::Message(Descriptor::File),
        _ => Contents::Anything,
    }
}

fn file_contents(number: u32) -> Contents
    ensures { meaning result ≡ contents_at descriptors.File number 2 }
{
    match number {
        1 => Contents::Text,
        2 => Contents::Text,
        3 => Contents::Text,
        4 => Contents::Message(Descriptor::Message),
        5 => Contents::Message(Descriptor::Enumeration),
        12 => Contents::Text,
        _ => Contents::Anything,
    }
}

fn message_contents(number: u32) -> Contents
    ensures { meaning result ≡ contents_at descriptors.Message number 2 }
{
    match number {
        1 => Contents::Text,
        2 => Contents::Message(Descriptor::Field),
        3 => Contents::Message(Descriptor::Message),
        4 => Contents::Message(Descriptor::Enumeration),
        7 => Contents::Message(Descriptor::MessageOptions),
        8 => Contents::Message(Descriptor::Oneof),
        _ => Contents::Anything,
    }
}

fn field_contents(number: u32) -> Contents
    ensures { meaning result ≡ contents_at descriptors.Field number 2 }
{
    match number {
        1 => Contents::Text,
        6 => Contents::Text,
        7 => Contents::Text,
        8 => Contents::Message(Descriptor::FieldOptions),
        _ => Contents::Anything,
    }
}

fn enum_contents(number: u32) -> Contents
    ensures { meaning result ≡ contents_at descriptors.Enumeration number 2 }
{
    match number {
        1 => Contents::Text,
        2 => Contents::Message(Descriptor::EnumValue),
        _ => Contents::Anything,
    }
}

fn enum_value_contents(number: u32) -> Contents
    ensures { meaning result ≡ contents_at descriptors.EnumValue number 2 }
{
    match number {
        1 => Contents::Text,
        _ => Contents::Anything,
    }
}
