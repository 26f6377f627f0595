//! Laws of reading step by step, each the contract of a function that does nothing: one record or one payload more in
//! a message that is there, and the first fault of bytes that go on.
ghost use Rattle.std.specs.Prelude.{◌≡◌, ◌≢◌, ◌↔◌, ◌⊎◌, ℕ, ◌-◌, ◌^◌, ◌<◌, List, [], ◌∷◌, ◌++◌, length, IsSome, None, Some, Err};
ghost use Rattle.std.specs.Option.{option_map};
ghost use Rattle.std.specs.List.{concat};
ghost use Rattle.pb_schema.specs.declared.schema.Schema.{Schema};
ghost use Rattle.pb_schema.specs.declared.wire_fault.WireFault.{WireFault};
ghost use Rattle.pb_schema.specs.declared.wire_fault.WireKind.TheVariants.{Cut};
ghost use Rattle.pb_schema.specs.Reads.{moved};
ghost use Rattle.pb_schema.specs.Fits.{fields_of};
ghost use Rattle.pb_schema.specs.Walk.{record_left};
ghost use Rattle.pb_schema.specs.Broken.{broken_of, most_levels};
ghost use Rattle.pb_schema.specs.Tree.{Tree, Shape, tree_map};
ghost use Rattle.pb_schema.specs.Empty.{empty_with};
ghost use Rattle.pb_schema.specs.TreeOf.{tree_of};
ghost use Rattle.pb_schema.specs.ShapeOf.{shape_of};
ghost use Rattle.pb_schema.specs.Fitted.{Fitted};
ghost use Rattle.pb_schema.specs.Lawful.{Lawful};
ghost use Rattle.pb_schema.specs.Merge.{merge_of};
ghost use Rattle.pb_schema.specs.Text.{text_of};
ghost use Rattle.pb_schema.specs.Put.{shape_read, tree_read};

/// The shape of payloads and one more is the shape of those with the records of that one put into it, one after another,
/// and that of no payload is the empty message: for any bytes, at any type. With pieces joined reading into a shape is
/// reading into a tree; so the tree of bytes with more bytes behind them is the tree of the first with the records of the
/// others put into it, by a lawful schema and where both have a tree.
pub fn one_record_more()
    ensures shapes { (schema : Schema) (type_no : ℕ) (payloads : List (List ℕ)) (payload : List ℕ)
        → shape_of schema type_no (payloads ++ (payload ∷ []))
        ≡ shape_read schema type_no (shape_of schema type_no payloads) payload }
    ensures none { (schema : Schema) (type_no : ℕ)
        → shape_of schema type_no [] ≡ empty_with [] (fields_of schema type_no) }
    ensures joined { (schema : Schema) (type_no : ℕ) (shape : Shape) (payload : List ℕ)
        → tree_map concat (shape_read schema type_no shape payload)
        ≡ tree_read schema type_no (tree_map concat shape) payload }
    ensures trees { (schema : Schema) (type_no : ℕ) (x y : List ℕ) (t : Tree) → Lawful schema
        → tree_of schema type_no x ≡ Some t → IsSome (tree_of schema type_no (x ++ y))
        → tree_of schema type_no (x ++ y) ≡ Some (tree_read schema type_no t y) }
{}

/// Bytes that begin with records without a fault have the fault of the rest, moved by as many bytes; and where the record
/// at the front has a fault, of its form, its depth or its contents, the bytes have that. So bytes have a fault exactly
/// where such records stand in front of a record that has it.
pub fn first_fault()
    ensures behind { (schema : Schema) (type_no depth : ℕ) (x y : List ℕ) → broken_of schema type_no depth x ≡ None
        → broken_of schema type_no depth (x ++ y)
        ≡ option_map (moved (length x)) (broken_of schema type_no depth y) }
    ensures head { (schema : Schema) (type_no depth : ℕ) (s : List ℕ) (fault : WireFault) → s ≢ []
        → record_left schema (most_levels - depth) (fields_of schema type_no) 0 s ≡ Err fault
        → broken_of schema type_no depth s ≡ Some fault }
    ensures exact { (schema : Schema) (type_no depth : ℕ) (s : List ℕ) (fault : WireFault)
        → (broken_of schema type_no depth s ≡ Some fault)
        ↔ ((x : List ℕ) × (y : List ℕ) × (own : WireFault) × (s ≡ x ++ y) × (broken_of schema type_no depth x ≡ None)
        × (y ≢ []) × (record_left schema (most_levels - depth) (fields_of schema type_no) 0 y ≡ Err own)
        × (fault ≡ moved (length x) own)) }
{}

/// A front of bytes without a fault has no fault, or is cut.
pub fn a_prefix_is_sound_or_cut()
    ensures { (schema : Schema) (type_no depth : ℕ) (x y : List ℕ) → broken_of schema type_no depth (x ++ y) ≡ None
        → (broken_of schema type_no depth x ≡ None)
        ⊎ ((byte : ℕ) × (broken_of schema type_no depth x ≡ Some (record { kind = Cut; byte = byte }))) }
{}

/// The text of a message that a payload may hold, appended to a payload: where both have a tree, by a lawful schema, the
/// tree of the whole is the one of the payload with the message merged into it.
pub fn appended_text_merges()
    ensures { (schema : Schema) (type_no : ℕ) (x : List ℕ) (a t : Tree) → Lawful schema → Fitted schema type_no t
        → tree_of schema type_no x ≡ Some a → IsSome (tree_of schema type_no (x ++ text_of schema type_no t))
        → tree_of schema type_no (x ++ text_of schema type_no t) ≡ Some (merge_of schema type_no a t) }
{}

/// What is written for a message that a payload decodes to has no fault and decodes to that message, by a lawful schema
/// and where it has fewer than 2^31 bytes. It can have more bytes than the payload, whose numbers may have been written
/// shorter (a negative number of `int32` in five bytes is written in ten); it nests no deeper.
pub fn written_messages_are_read_back()
    ensures { (schema : Schema) (type_no : ℕ) (s : List ℕ) (t : Tree) → Lawful schema
        → tree_of schema type_no s ≡ Some t → length (text_of schema type_no t) < 2 ^ 31
        → tree_of schema type_no (text_of schema type_no t) ≡ Some t }
{}
