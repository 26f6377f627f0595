//! A law of what is parsed, the contract of a function that does nothing.
ghost use Rattle.std.specs.Prelude.{◌≡◌, ℕ, ◌*◌, ◌≤◌, List, length, Some};
ghost use Rattle.pb_schema.specs.declared.schema.Schema.{Schema};
ghost use Rattle.pb_schema.specs.Lawful.{Lawful};
ghost use Rattle.pb_schema.specs.Text.{text_of};
ghost use Rattle.pb_schema.specs.Tree.{Tree};
ghost use Rattle.pb_schema.specs.TreeOf.{tree_of};

/// What is written for a message that a payload decodes to has at most twenty times the bytes of the payload, by a lawful
/// schema. It may have more bytes than the payload: numbers may be written longer than they were read, and a packed list
/// value by value.
pub fn decoded_texts_are_bounded()
    ensures { (schema : Schema) (type_no : ℕ) (s : List ℕ) (t : Tree) → Lawful schema
        → tree_of schema type_no s ≡ Some t → length (text_of schema type_no t) ≤ 20 * length s }
{}
