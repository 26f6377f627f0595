// Laws of the definitions in `specs/`, each the contract of a function that does nothing.
ghost use Rattle.std.specs.Prelude.{◌<◌, ℕ, length};
ghost use Rattle.pb_schema.specs.declared.schema.Schema.{Schema};
ghost use Rattle.pb_schema.specs.Lawful.{Lawful};
ghost use Rattle.msg_layout.specs.Layout.{layout_of};
ghost use Rattle.msg_layout.specs.Sound.{IsSound};

/// By a lawful schema every slot, bit and word lies in the record, and those of different fields have no byte in
/// common, but for the word that the members of one oneof share.
pub fn layouts_are_sound()
    ensures { (schema : Schema) (type_no : ℕ) → Lawful schema → type_no < length schema.types
        → IsSound (layout_of schema type_no) }
{}
