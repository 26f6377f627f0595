// The picked name and the blamed name of files, kept by moves.
ghost use Rattle.std.specs.Prelude.{◌≡◌, None, Some};
ghost use Rattle.std.specs.Option.{option_map};
ghost use Rattle.std.specs.String.{string_bytes};

use std::marker::Model;

/// The name that was picked last, and the name that is blamed for the last fault.
///
/// Names are handed over and moved, so no method takes memory.
#[derive(Drop)]
pub struct FileNames {
    picked: Option<String>,
    // The blamed name, where the picked one isn't blamed.
    blamed_before: Option<String>,
    blames_picked: bool,
}

impl Model for FileNames {
    ghost use Rattle.std.specs.Prelude.{if◌then◌else◌};
    ghost use Rattle.std.specs.Option.{option_map};
    ghost use Rattle.std.specs.String.{string_bytes};
    ghost use Rattle.arena_mem.specs.FileNames.{Names};

    ghost Value = { Names };

    ghost view = { λ n. record {
      picked = option_map string_bytes n.picked;
      blamed = option_map string_bytes (if n.blames_picked then n.picked else n.blamed_before);
    } };
}

impl FileNames {
    /// No name is picked yet, and none is blamed.
    pub fn new() -> FileNames
        ensures { result ≡ record { picked = None; blamed = None } }
    {
        FileNames {
            picked: None,
            blamed_before: None,
            blames_picked: false,
        }
    }

    /// Makes `name` the picked name. The blamed name stays as it is.
    pub fn pick(&mut self, name: String)
        ensures { self.new ≡ record self.old { picked = Some (string_bytes name) } }
    {
        if self.blames_picked {
            self.blamed_before = self.picked.take();
            self.blames_picked = false;
        }
        self.picked = Some(name);
    }

    /// Blames the picked name, or nothing where no name was picked yet.
    pub fn blame(&mut self)
        ensures { self.new ≡ record self.old { blamed = self.old.picked } }
    {
        self.blames_picked = true;
    }

    /// Lends the picked name.
    pub fn picked(&self) -> Option<&str>
        ensures { option_map (λ name. name.now) result ≡ self.now.picked }
    {
        self.picked.as_ref().map(|name| name.as_str())
    }

    /// Lends the blamed name.
    pub fn blamed(&self) -> Option<&str>
        ensures { option_map (λ name. name.now) result ≡ self.now.blamed }
    {
        if self.blames_picked {
            self.picked()
        } else {
            self.blamed_before.as_ref().map(|name| name.as_str())
        }
    }
}
