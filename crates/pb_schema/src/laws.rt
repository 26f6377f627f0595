//! Laws of the definitions in `specs/`, each the contract of a function that does nothing.
ghost use Rattle.std.specs.Prelude.{◌≡◌, ◌≢◌, ◌↔◌, if◌then◌else◌, max, slice_get, ℕ, ◌+◌, ◌-◌, ◌*◌, ◌%◌, ◌^◌, ◌<◌, ◌≤◌, List, [], ◌∷◌, ◌++◌, length, take, IsSome, None, Some, Ok, Err, All, flat_map, map, sum, slice_index};
ghost use Rattle.std.specs.List.{range_with_len, concat};
ghost use Rattle.pb_schema.specs.declared.schema.Schema.{Schema};
ghost use Rattle.pb_schema.specs.Builtin.{builtin};
ghost use Rattle.pb_schema.specs.Varint.{Varint, varint_at, length_bytes, value_bytes, varint_of};
ghost use Rattle.pb_schema.specs.Tag.{IsTag};
ghost use Rattle.pb_schema.specs.Form.{Form, read_tag, read_length};
ghost use Rattle.pb_schema.specs.Walk.{record_left};
ghost use Rattle.pb_schema.specs.Frames.{Frames, frames_of};
ghost use Rattle.pb_schema.specs.Records.{AreRecords, IsRecord, Record, Records, RecordsWithin, record_of, records_of, records_within};
ghost use Rattle.pb_schema.specs.Tree.{Held, Nothing, Tree, Shape, fields_held, fields_in_list, tree_map};
ghost use Rattle.pb_schema.specs.HeldAt.{clears, field_at, held_at, with_held};
ghost use Rattle.pb_schema.specs.Payloads.{bad_payload, trees_of};
ghost use Rattle.pb_schema.specs.Meter.{Meter, GrowsInParts, placed_bytes, cleanups};
ghost use Rattle.pb_schema.specs.ParseCost.{parse_cost};
ghost use Rattle.pb_schema.specs.MoreCost.{more_cost};
ghost use Rattle.pb_schema.specs.declared.kind.FieldType.{FieldType};
ghost use Rattle.pb_schema.specs.declared.wire_fault.WireFault.{WireFault};
ghost use Rattle.pb_schema.specs.Depth.{depth_of, held_levels};
ghost use Rattle.pb_schema.specs.Units.{tree_units, units_of};
ghost use Rattle.pb_schema.specs.ShapeOf.{shape_of};
ghost use Rattle.pb_schema.specs.Broken.{broken_of};
ghost use Rattle.pb_schema.specs.Fits.{Message, contents_of, fields_of, no_types};
ghost use Rattle.pb_schema.specs.Fault.{fault_of, most_levels};
ghost use Rattle.pb_schema.specs.TreeOf.{tree_of, records_in, pattern_in};
ghost use Rattle.pb_schema.specs.declared.kind.Kind.{Kind};
ghost use Rattle.pb_schema.specs.Kinds.{Coding, Scalar, value_type_of, wire_numbers};
ghost use Rattle.pb_schema.specs.Fitted.{Fitted};
ghost use Rattle.pb_schema.specs.Lawful.{Lawful};
ghost use Rattle.pb_schema.specs.Empty.{empty};
ghost use Rattle.pb_schema.specs.Merge.{merge_of, shape_merge};
ghost use Rattle.pb_schema.specs.Text.{framed, number_text, text_of};

/// A varint has one to `most` bytes, each but the last at least 128 and the last below 128, and its value is the sum
/// of the low seven bits of each byte times 128 to the byte's place, modulo 2^64.
pub fn varint_by_places()
    ensures { (s : List ℕ) (most v : ℕ) → Varint s most v
        ↔ ((0 < length s) × (length s ≤ most)
        × ((i : ℕ) → i + 1 < length s → 128 ≤ slice_index s i)
        × (slice_index s (length s - 1) < 128)
        × (v ≡ sum (map (λ i. slice_index s i % 128 * 128 ^ i) (range_with_len 0 (length s))) % 2 ^ 64)) }
{}

/// No varint begins another, so the same bytes begin with one varint of one value at most, and `varint_at` finds
/// it exactly where there is one.
pub fn one_varint()
    ensures only { (s t x y : List ℕ) (most v w : ℕ) → Varint s most v → Varint t most w → s ++ x ≡ t ++ y
        → (s ≡ t) × (v ≡ w) }
    ensures exact { (most : ℕ) (s : List ℕ) (v n : ℕ)
        → (varint_at most s ≡ Some (v, n)) ↔ ((n ≤ length s) × Varint (take n s) most v) }
{}

/// The same bytes are the frames of one list of payloads at most, and `frames_of` finds it exactly where there is
/// one. Elsewhere it gives the number of whole frames before the first place where none stands.
pub fn one_framing()
    ensures only { (s : List ℕ) (ps qs : List (List ℕ)) → Frames s ps → Frames s qs → ps ≡ qs }
    ensures exact { (s : List ℕ) (ps : List (List ℕ)) → (frames_of s ≡ Ok ps) ↔ Frames s ps }
    ensures cut { (s : List ℕ) (n : ℕ) → (frames_of s ≡ Err n)
        ↔ ((front : List ℕ) × (rest : List ℕ) × (payloads : List (List ℕ)) × (s ≡ front ++ rest)
        × Frames front payloads × (length payloads ≡ n) × (rest ≢ [])
        × ((prefix payload tail : List ℕ) → rest ≡ prefix ++ (payload ++ tail)
        → Varint prefix length_bytes (length payload) → length payload < 2 ^ 31 → ⊥)) }
{}

/// The same bytes are cut into one list of records at most, however deep groups are nested in them, and `records_of`
/// finds it exactly where there is one; so does `records_within` where groups are nested at most so many levels.
pub fn one_list_of_records()
    ensures only { (s : List ℕ) (rs qs : List Record) → Records s rs → Records s qs → rs ≡ qs }
    ensures exact { (s : List ℕ) (rs : List Record) → (records_of s ≡ Some rs) ↔ Records s rs }
    ensures within { (levels : ℕ) (s : List ℕ) (rs : List Record)
        → (records_within levels s ≡ Some rs) ↔ RecordsWithin levels s rs }
{}

/// What is read at the front of some bytes is a tag, a length or a record exactly where one stands there, at whatever
/// byte the bytes begin and whatever follows; a record is read without a type, with groups nested at most so many
/// levels.
pub fn one_record()
    ensures tag { (at : ℕ) (s : List ℕ) (number wire n : ℕ)
        → (read_tag at s ≡ Ok (number, wire, n)) ↔ ((n ≤ length s) × IsTag (take n s) number wire) }
    ensures prefix { (at : ℕ) (s : List ℕ) (len n : ℕ)
        → (read_length at s ≡ Ok (len, n)) ↔ ((n ≤ length s) × Varint (take n s) length_bytes len × (len < 2 ^ 31)) }
    ensures found { (levels at : ℕ) (s : List ℕ) (form : Form) → record_left no_types levels [] at s ≡ Ok form
        → IsRecord (AreRecords levels) (record_of form s) × (0 < form.size) × (form.size ≤ length s) }
    ensures front { (levels at : ℕ) (s rest : List ℕ) (r : Record) → IsRecord (AreRecords levels) r
        → s ≡ r.span ++ rest → (form : Form) × (record_left no_types levels [] at s ≡ Ok form)
        × (form.size ≡ length r.span) × (record_of form s ≡ r) }
{}

/// At the root a payload has a tree exactly where its bytes have no fault, which by today's rules is any fault. At each
/// depth a payload without a fault is cut into records; each of them that a message field takes holds a payload that has
/// no fault one level deeper, and is at most 100 levels below the root; and two payloads without a fault have none one
/// behind the other. So wherever a tree gathers from the records of a payload, at the root or in a message at any level,
/// there are records.
pub fn a_tree_where_no_fault()
    ensures tree { (schema : Schema) (type_no : ℕ) (s : List ℕ)
        → IsSome (tree_of schema type_no s) ↔ (broken_of schema type_no 0 s ≡ None) }
    ensures records { (schema : Schema) (type_no depth : ℕ) (s : List ℕ) → broken_of schema type_no depth s ≡ None
        → (rs : List Record) × RecordsWithin (most_levels - depth) s rs }
    ensures nested { (schema : Schema) (type_no depth : ℕ) (s : List ℕ) (rs : List Record)
        → broken_of schema type_no depth s ≡ None → RecordsWithin (most_levels - depth) s rs
        → All (λ r. (inner : ℕ) → contents_of schema (fields_of schema type_no) r ≡ Message inner
        → (depth < most_levels) × (broken_of schema inner (depth + 1) r.payload ≡ None)) rs }
    ensures together { (schema : Schema) (type_no depth : ℕ) (s t : List ℕ) → broken_of schema type_no depth s ≡ None
        → broken_of schema type_no depth t ≡ None → broken_of schema type_no depth (s ++ t) ≡ None }
{}

/// A payload that has a tree at a type of a lawful schema has one that a message of that type may be: each value is of
/// its field's kind, no field without presence holds its default, at most one member of a oneof is set, what fits no
/// field is whole records, and messages nest at most 100 levels deep.
pub fn decoded_trees_are_fitted()
    ensures { (schema : Schema) (type_no : ℕ) (s : List ℕ) (t : Tree) → Lawful schema
        → tree_of schema type_no s ≡ Some t → Fitted schema type_no t }
{}

/// Behind a payload without a fault other bytes make a whole without one exactly where they have none themselves, and
/// then the records of the whole are those of the payload and then those of the other bytes.
pub fn what_stands_behind()
    ensures fault { (schema : Schema) (type_no depth : ℕ) (x y : List ℕ) → broken_of schema type_no depth x ≡ None
        → (broken_of schema type_no depth (x ++ y) ≡ None) ↔ (broken_of schema type_no depth y ≡ None) }
    ensures records { (schema : Schema) (type_no depth : ℕ) (x y : List ℕ) → broken_of schema type_no depth x ≡ None
        → broken_of schema type_no depth (x ++ y) ≡ None → records_in (most_levels - depth) (x ++ y)
        ≡ records_in (most_levels - depth) x ++ records_in (most_levels - depth) y }
{}

/// The number that is written for a pattern of a kind is one that its wire type holds, and is read as the pattern; and
/// so are the bytes of that number.
pub fn kinds_read_what_they_write()
    ensures number { (kind : Kind) (coding : Coding) (p : ℕ) → value_type_of kind ≡ Scalar coding
        → p < coding.patterns → (coding.kept (coding.spelled p) ≡ p) × (coding.spelled p < wire_numbers coding.wire) }
    ensures bytes { (kind : Kind) (coding : Coding) (p : ℕ) → value_type_of kind ≡ Scalar coding → p < coding.patterns
        → pattern_in coding (number_text coding.wire (coding.spelled p)) ≡ p }
{}

/// The shape of payloads, with the pieces of its unknown bytes joined at every level, is the tree of the payloads one
/// behind the other, by a lawful schema and where none of them has a fault; so for one payload it is the tree of that.
pub fn shapes_are_trees_in_pieces()
    ensures all { (schema : Schema) (type_no : ℕ) (payloads : List (List ℕ)) → Lawful schema
        → All (λ s. broken_of schema type_no 0 s ≡ None) payloads
        → tree_of schema type_no (concat payloads) ≡ Some (tree_map concat (shape_of schema type_no payloads)) }
    ensures one { (schema : Schema) (type_no : ℕ) (s : List ℕ) (t : Tree) → Lawful schema
        → tree_of schema type_no s ≡ Some t → tree_map concat (shape_of schema type_no (s ∷ [])) ≡ t }
{}

/// Changing what is unknown in a shape at every level keeps its depth, and gives the units by the size of what comes in
/// its place; joining the pieces goes with merging.
pub fn unknown_parts_are_changed_alone()
    ensures depth { (f : List (List ℕ) → List ℕ) (t : Shape) → depth_of (tree_map f t) ≡ depth_of t }
    ensures units { (f : List (List ℕ) → List ℕ) (t : Shape)
        → units_of (tree_map f t) ≡ tree_units (λ pieces. length (f pieces)) t }
    ensures merged { (schema : Schema) (type_no : ℕ) (a b : Shape)
        → merge_of schema type_no (tree_map concat a) (tree_map concat b)
        ≡ tree_map concat (shape_merge schema type_no a b) }
{}

/// Of payloads that are read at one type all have trees exactly where none has a fault, and that is exactly where none
/// is bad; a bad one is told exactly where it has that fault and none before it has one.
pub fn trees_where_none_is_bad()
    ensures trees { (schema : Schema) (type_no : ℕ) (payloads : List (List ℕ))
        → IsSome (trees_of schema type_no payloads) ↔ All (λ s. broken_of schema type_no 0 s ≡ None) payloads }
    ensures none { (schema : Schema) (type_no : ℕ) (payloads : List (List ℕ))
        → (bad_payload schema type_no payloads ≡ None) ↔ All (λ s. fault_of schema type_no 0 s ≡ None) payloads }
    ensures first { (schema : Schema) (type_no : ℕ) (payloads : List (List ℕ)) (place : ℕ) (fault : WireFault)
        → (bad_payload schema type_no payloads ≡ Some (place, fault))
        ↔ ((payload : List ℕ) × (slice_get payloads place ≡ Some payload)
        × (fault_of schema type_no 0 payload ≡ Some fault)
        × All (λ s. fault_of schema type_no 0 s ≡ None) (take place payloads)) }
{}

/// A message of a type, with one entry for each of its fields, holds at a field what was put there (`here`); at any other
/// field it holds what it held, or nothing where the other field is a member of the same oneof and a value was put
/// (`elsewhere`). The entries stay as many, and the message gets no deeper than it was and what was put is (`entries`,
/// `depth`).
pub fn what_is_put_is_held()
    ensures here { (schema : Schema) (type_no number : ℕ) (field : FieldType) (held : Held) (t : Tree)
        → field_at schema type_no number ≡ Some field
        → length (fields_in_list (fields_held t)) ≡ length (fields_of schema type_no)
        → held_at schema type_no number (with_held schema type_no number held t) ≡ held }
    ensures elsewhere { (schema : Schema) (type_no number other : ℕ) (field second : FieldType) (held : Held) (t : Tree)
        → number ≢ other → field_at schema type_no number ≡ Some field → field_at schema type_no other ≡ Some second
        → held_at schema type_no other (with_held schema type_no number held t)
        ≡ (if clears field.card held second.card then Nothing else held_at schema type_no other t) }
    ensures entries { (schema : Schema) (type_no number : ℕ) (held : Held) (t : Tree)
        → length (fields_in_list (fields_held (with_held schema type_no number held t)))
        ≡ length (fields_in_list (fields_held t)) }
    ensures depth { (schema : Schema) (type_no number : ℕ) (held : Held) (t : Tree)
        → (held_levels (held_at schema type_no number t) ≤ depth_of t)
        × (depth_of (with_held schema type_no number held t) ≤ max (held_levels held) (depth_of t)) }
{}

/// Payloads that are read one after another count by a meter what the earlier ones do, and what the shape of these and
/// the later ones say; no payloads count a record alone. Of the meter it takes that an array counts the same in one go
/// and in parts, and so do the meters of placed bytes and of cleanups.
pub fn later_payloads_count_more()
    ensures later { (meter : Meter) (schema : Schema) (type_no : ℕ) (earlier later : List (List ℕ))
        → GrowsInParts meter → parse_cost meter schema type_no (earlier ++ later)
        ≡ parse_cost meter schema type_no earlier
        + more_cost meter schema type_no (shape_of schema type_no earlier) later }
    ensures none { (meter : Meter) (schema : Schema) (type_no : ℕ) → GrowsInParts meter
        → parse_cost meter schema type_no [] ≡ meter.size type_no }
    ensures placed { (sizes : ℕ → ℕ) → GrowsInParts (placed_bytes sizes) }
    ensures cleanups { GrowsInParts cleanups }
{}

/// Merging the empty message of a type changes no message of that type, on either side. Merging isn't associative, as a
/// worked value shows (`proofs/MergeExamples.antt`): where the message in the middle sets another member of a oneof than
/// the other two, merging from the left keeps the last one's alone, and from the right the first and the last merged.
pub fn empty_merges_to_the_same()
    ensures into { (schema : Schema) (type_no : ℕ) (t : Tree) → Fitted schema type_no t
        → merge_of schema type_no (empty schema type_no) t ≡ t }
    ensures from { (schema : Schema) (type_no : ℕ) (t : Tree) → Fitted schema type_no t
        → merge_of schema type_no t (empty schema type_no) ≡ t }
{}

/// What is written for a number of 64 bits is a varint of it, and no varint of it has fewer bytes.
pub fn shortest_varint()
    ensures spells { (v : ℕ) → v < 2 ^ 64 → Varint (varint_of v) value_bytes v }
    ensures shortest { (s : List ℕ) (v : ℕ) → Varint s value_bytes v → length (varint_of v) ≤ length s }
{}

/// Frames that are written are read as their payloads, where each is shorter than 2^31 bytes.
pub fn frames_are_read_back()
    ensures { (payloads : List (List ℕ)) → All (λ payload. length payload < 2 ^ 31) payloads
        → frames_of (flat_map framed payloads) ≡ Ok payloads }
{}

/// What is written for a message of `pb.Tick` is read as that message, with its unknown bytes.
pub fn ticks_are_read_back()
    ensures { (t : Tree) → Fitted builtin 0 t → tree_of builtin 0 (text_of builtin 0 t) ≡ Some t }
{}
