// Message types by their full names.
ghost use Rattle.std.specs.Prelude.{◌≡◌, ◌↔◌, ◌^◌, None, IfSome};
ghost use Rattle.pb_schema.specs.Names.{HasName, NoneBelow};

use crate::schema::Schema;

impl Schema {
    /// The number of the message type with this full name, and of the first one where several have it. `None` comes
    /// exactly where no type has the name; a schema with 2^32 types and more is looked through for the first 2^32, since
    /// no other has a number. Takes no memory.
    pub fn find(&self, name: &str) -> Option<u32>
        ensures found { IfSome result (λ type_no. HasName self.now name.now type_no) }
        ensures first { IfSome result (λ type_no. NoneBelow self.now name.now type_no) }
        ensures none { (result ≡ None) ↔ NoneBelow self.now name.now (2 ^ 32) }
    {
        let types = self.types.items();
        for i in 0..types.len() {
            if types[i].name.is(name) {
                return u32::try_from(i).ok();
            }
        }
        None
    }
}
