// Real files, as the top call sees files.
ghost use Rattle.std.specs.Prelude.{◌≡◌, ◌≤◌, None, false, is_some};
ghost use Rattle.arena_mem.specs.Outside.{Rose};

use crate::again::{open_again, read_again};
use arena_mem::{Failed, FileNames, Files};

/// The files of the system by their paths. It tells no content, and counts its errors. A call that a signal interrupted
/// goes on.
#[derive(Drop)]
pub struct RealFiles<'a, R: std::rt::Files> {
    rt: &'a R,
    file: Option<R::File>,
    names: FileNames,
    faults: u64,
}

impl<'a, R: std::rt::Files> RealFiles<'a, R> {
    /// No file is picked.
    pub fn new(rt: &'a R) -> Self
        ensures no_faults { ⟦<RealFiles<'a, R> as Files>⟧.faults result ≡ 0 }
        ensures not_open { ⟦<RealFiles<'a, R> as Files>⟧.is_open result ≡ false }
        ensures picked { ⟦<RealFiles<'a, R> as Files>⟧.picked result ≡ None }
        ensures blamed { ⟦<RealFiles<'a, R> as Files>⟧.blamed result ≡ None }
    {
        RealFiles {
            rt,
            file: None,
            names: FileNames::new(),
            faults: 0,
        }
    }

    // Counts an error, and blames the picked name.
    fn fault(&mut self) -> Failed
        ensures never_falls { self.old.faults ≤ self.new.faults }
        ensures rose { Rose self.old.faults self.new.faults }
        ensures names { self.new.names ≡ record self.old.names { blamed = self.old.names.picked } }
        ensures file { is_some self.new.file ≡ is_some self.old.file }
    {
        self.names.blame();
        self.faults = self.faults.saturating_add(1);
        Failed
    }
}

impl<'a, R: std::rt::Files> Files for RealFiles<'a, R> {
    ghost contents = { λ s. None };

    ghost left = { λ s. None };

    ghost faults = { λ s. s.faults };

    ghost is_open = { λ s. is_some s.file };

    ghost picked = { λ s. s.names.picked };

    ghost blamed = { λ s. s.names.blamed };

    fn pick(&mut self, name: String) -> Result<(), Failed> {
        let opened = open_again(self.rt, name.as_str());
        self.names.pick(name);
        match opened {
            Ok(file) => {
                self.file = Some(file);
                Ok(())
            }
            Err(_) => {
                self.file = None;
                Err(self.fault())
            }
        }
    }

    fn read(&mut self, room: &mut [u8]) -> Result<usize, Failed> {
        let Some(file) = &mut self.file else {
            unreachable!();
        };
        match read_again(file, room) {
            Ok(count) => Ok(count),
            Err(_) => Err(self.fault()),
        }
    }
}
