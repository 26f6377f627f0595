//! Laws of merging, each the contract of a function that does nothing.
ghost use Rattle.std.specs.Prelude.{◌≡◌, ℕ, List};
ghost use Rattle.arena_mem.specs.Places.{Places, Buffers};
ghost use Rattle.pb_schema.specs.declared.schema.Schema.{Schema};
ghost use Rattle.pb_schema.specs.Lawful.{Lawful};
ghost use Rattle.pb_schema.specs.Merge.{shape_merge};
ghost use Rattle.pb_schema.specs.MergeCost.{merge_cost};
ghost use Rattle.pb_schema.specs.Meter.{Meter};
ghost use Rattle.pb_schema.specs.Tree.{Shape};
ghost use Rattle.dyn_message.specs.declared.msg_ref.MsgRef.{MsgRef};
ghost use Rattle.dyn_message.specs.Feet.{Foot};
ghost use Rattle.dyn_message.specs.Stands.{Stands};
ghost use Rattle.msg_merge.specs.Merging.{HoldsByCards, message_into, walk_cost};

/// A walk over a message that puts what each field holds behind, into or in place of what another message holds there,
/// element by element, and then its unknown bytes piece by piece, merges it into the other one.
pub fn walks_merge()
    ensures { (schema : Schema) (type_no : ℕ) (t u : Shape) → Lawful schema → HoldsByCards schema type_no t → HoldsByCards schema type_no u
        → message_into schema type_no t u ≡ shape_merge schema type_no t u }
{}

/// What that walk counts by a meter, step by step, is what the merge counts.
pub fn walks_cost_what_merges_cost()
    ensures { (meter : Meter) (schema : Schema) (type_no : ℕ) (t u : Shape) → Lawful schema → HoldsByCards schema type_no t → HoldsByCards schema type_no u
        → walk_cost meter schema type_no t u ≡ merge_cost meter schema type_no t u }
{}

/// A message that stands holds at each field what its card says, and of the members of a oneof one is set at most.
pub fn standing_messages_hold_by_cards()
    ensures { (schema : Schema) (places : Places) (buffers : Buffers) (msg : MsgRef) (t : Shape) (feet : List Foot) → Lawful schema → Stands schema places buffers msg t feet
        → HoldsByCards schema msg.type_no t }
{}
