// Files in memory that fail where they were told to.
ghost use Rattle.std.specs.Prelude.{◌≡◌, ◌<◌, min, [], ◌++◌, length, take, drop, None, Some, IsTrue, false, is_ok, is_err, is_some, IfOk, OnErr, unwrap_or};
ghost use Rattle.std.specs.String.{string_bytes};
ghost use Rattle.arena_mem.specs.NamedBytes.{named_files};

use crate::calls::Calls;
use crate::file_names::FileNames;
use crate::named_bytes::NamedBytes;
use crate::outside::{Failed, Files};
use crate::reading::{Reading, open_file, read_next};
use std::marker::Model;

/// Files in memory, of which one is picked and read. They fail at the calls that they were told to.
#[derive(Drop)]
pub struct MemoryFiles {
    files: Vec<NamedBytes>,
    reading: Option<Reading>,
    names: FileNames,
    calls: Calls,
}

impl Model for MemoryFiles {
    ghost use Rattle.std.specs.Prelude.{is_some};
    ghost use Rattle.arena_mem.specs.MemoryFiles.{FilesState};
    ghost use Rattle.arena_mem.specs.Reading.{IsReadingOf, left_of};

    ghost Value = { FilesState };

    ghost view = { λ a. record {
      files = a.files.items;
      left = left_of a.files.items a.reading;
      is_open = is_some a.reading;
      names = a.names;
      calls = a.calls;
    } };

    ghost invariant = { λ a. IsReadingOf a.files.items a.reading };
}

impl MemoryFiles {
    ghost use Rattle.arena_mem.specs.Calls.{no_calls};

    /// These files, of which none is picked. Of two with one name the first counts.
    ///
    /// The calls of `pick` and `read` whose numbers, counted from 0, are in `failing` fail. The number stands
    /// still at `u64::MAX`.
    pub fn new(files: Vec<NamedBytes>, failing: Vec<u64>) -> MemoryFiles
        ensures files { result.files ≡ files.items }
        ensures closed { result.is_open ≡ false }
        ensures left { result.left ≡ [] }
        ensures names { result.names ≡ record { picked = None; blamed = None } }
        ensures calls { result.calls ≡ no_calls failing.items }
    {
        MemoryFiles {
            files,
            reading: None,
            names: FileNames::new(),
            calls: Calls::new(failing),
        }
    }

    /// The picked and the blamed name.
    pub fn names(&self) -> &FileNames
        ensures { result.now ≡ self.now.names }
    {
        &self.names
    }

    /// How many calls have failed.
    pub fn faults(&self) -> u64
        ensures { result ≡ self.now.calls.faults }
    {
        self.calls.faults()
    }
}

impl Files for MemoryFiles {
    ghost use Rattle.arena_mem.specs.Outside.{HasCause, Blames};
    ghost use Rattle.arena_mem.specs.Calls.{fails_next, after_call};
    ghost use Rattle.arena_mem.specs.MemoryFiles.{opened};

    ghost contents = { λ s. Some (named_files s.files) };

    ghost left = { λ s. Some s.left };

    ghost faults = { λ s. s.calls.faults };

    ghost is_open = { λ s. s.is_open };

    ghost picked = { λ s. s.names.picked };

    ghost blamed = { λ s. s.names.blamed };

    fn pick(&mut self, name: String) -> Result<(), Failed>
        ensures files { self.new.files ≡ self.old.files }
        ensures exact { is_ok result ≡ is_some (opened self.old (string_bytes name)) }
        ensures left { self.new.left ≡ unwrap_or (opened self.old (string_bytes name)) [] }
        ensures is_open { self.new.is_open ≡ is_ok result }
        ensures picked { self.new.names.picked ≡ Some (string_bytes name) }
        ensures blamed { Blames result self.new.names.picked self.old.names.blamed self.new.names.blamed }
        ensures cause { HasCause self.old.calls.faults self.new.calls.faults result }
        ensures calls { self.new.calls ≡ after_call self.old.calls (is_err result) }
    {
        let listed = self.calls.next_fails();
        self.reading = open_file(&self.files, name.as_bytes(), listed);
        self.names.pick(name);
        if self.reading.is_some() {
            return Ok(());
        }
        self.names.blame();
        Err(self.calls.fault())
    }

    fn read(&mut self, room: &mut [u8]) -> Result<usize, Failed>
        requires open { IsTrue self.old.is_open }
        requires room { 0 < length room.old }
        ensures files { self.new.files ≡ self.old.files }
        ensures exact { is_err result ≡ fails_next self.old.calls }
        ensures count { IfOk result (λ count. count ≡ min (length room.old) (length self.old.left)) }

        // Behind the bytes that were read, the room stays as it was.
        ensures read { IfOk result (λ count. room.new ≡ take count self.old.left ++ drop count room.old) }
        ensures rest { IfOk result (λ count. self.new.left ≡ drop count self.old.left) }
        ensures room_unchanged { OnErr result (room.new ≡ room.old) }
        ensures left_unchanged { OnErr result (self.new.left ≡ self.old.left) }

        ensures is_open { self.new.is_open ≡ self.old.is_open }
        ensures picked { self.new.names.picked ≡ self.old.names.picked }
        ensures blamed { Blames result self.new.names.picked self.old.names.blamed self.new.names.blamed }
        ensures cause { HasCause self.old.calls.faults self.new.calls.faults result }
        ensures calls { self.new.calls ≡ after_call self.old.calls (is_err result) }
    {
        if self.calls.next_fails() {
            self.names.blame();
            return Err(self.calls.fault());
        }
        let Some(reading) = &mut self.reading else {
            unreachable!()
        };
        Ok(read_next(&self.files, reading, room))
    }
}
