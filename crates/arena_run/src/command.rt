// What the words of the command line ask for.

/// A command with all of its words.
#[derive(Clone, Copy, Debug, PartialEq, Eq)]
pub enum Command<'a> {
    /// Read frames of a type, and write each again.
    Cat {
        set: &'a str,
        type_name: &'a str,
        frames: &'a str,
        workers: u8,
    },
    /// Read frames of a type, and run a script over them.
    Run {
        set: &'a str,
        type_name: &'a str,
        frames: &'a str,
        script: &'a str,
        workers: u8,
    },
    /// Make so many frames from a seed.
    Gen {
        seed: u32,
        count: u16,
        workers: u8,
    },
}
