// A file in memory, and how one is found by its name.
ghost use Rattle.std.specs.Prelude.{◌≡◌, ◌<◌, None, Some, IfSome, IfNone, length};
ghost use Rattle.std.specs.FinMap as finite;
ghost use Rattle.arena_mem.specs.NamedBytes.{named_files, content_at};

use std::marker::Model;

/// A file in memory: its name and all its bytes.
#[derive(Drop)]
pub struct NamedBytes {
    pub name: Vec<u8>,
    pub content: Vec<u8>,
}

impl Model for NamedBytes {
    ghost use Rattle.arena_mem.specs.NamedBytes.{FileBytes};

    ghost Value = { FileBytes };

    ghost view = { λ f. record { name = f.name.items; content = f.content.items } };
}

// The index of the first file of that name.
pub(crate) fn find_file(files: &[NamedBytes], name: &[u8]) -> Option<usize>
    ensures within { IfSome result (λ i. i < length files.now) }
    ensures found { IfSome result (λ i. finite.get (named_files files.now) name.now ≡ Some (content_at files.now i)) }
    ensures absent { IfNone result (finite.get (named_files files.now) name.now ≡ None) }
{
    for (i, file) in files.iter().enumerate() {
        if name == file.name.as_slice() {
            return Some(i);
        }
    }
    None
}

// The bytes of the file at that index.
pub(crate) fn content_of(files: &[NamedBytes], index: usize) -> &[u8]
    requires { index < length files.now }
    ensures { result.now ≡ content_at files.now index }
{
    let file = &files[index];
    file.content.as_slice()
}
