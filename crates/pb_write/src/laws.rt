//! Laws of texts, each the contract of a function that does nothing.
ghost use Rattle.std.specs.Prelude.{◌+◌, ◌*◌, ◌≤◌, ℕ, length};
ghost use Rattle.std.specs.List.{concat};
ghost use Rattle.pb_schema.specs.declared.schema.Schema.{Schema};
ghost use Rattle.pb_schema.specs.Tree.{Shape};
ghost use Rattle.pb_schema.specs.Units.{tree_units};
ghost use Rattle.pb_write.specs.Texts.{shape_text};

/// A text has fewer than thirty bytes for each unit of what it is the text of. So what a message stands for has a text of
/// fewer than 2^63 bytes wherever its units are counted in 58 bits.
pub fn texts_are_short()
    ensures { (schema : Schema) (type_no : ℕ) (t : Shape)
        → length (shape_text schema type_no t) + 30 ≤ 30 * tree_units (λ pieces. length (concat pieces)) t }
{}
