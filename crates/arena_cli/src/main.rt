//! The program: real files, standard output, standard error and two arenas, handed to the top call.
//!
//! It stands above all crates and below nothing. Its contract is that of the traits that its adapters implement:
//! they tell no content, and answer a fault only where their own count of errors rose. `main` prints nothing itself.
#![tactic(auto)]

ghost use Rattle.std.specs.Prelude.{IfSome};
ghost use Rattle.arena_run.specs.Registers.{CanRun};

mod again;
mod files;
#[cfg(test)]
mod lives;
#[cfg(test)]
mod node_rows;
#[cfg(test)]
mod rows;
#[cfg(test)]
mod runs;
#[cfg(test)]
mod set_rows;
mod sink;
#[cfg(test)]
mod tests;
#[cfg(test)]
mod told;

use arena_block::Policy;
use arena_run::{Fault, OpenGate, Pair, run};
use cleanup_list::SilentWatch;
use files::RealFiles;
use life_ids::IdSource;
use sink::WriterSink;
use std::alloc::Global;
use std::process::ExitCode;
use std::{env, io};
use ts_arena::Arena;

/// How many batches of ids a run has: enough for the lives of both arenas and for a new one in each line of a script.
const ID_BATCHES: u64 = 300;

fn main(rt: HostRuntime) -> ExitCode {
    let alloc = rt.alloc();
    let Some(words) = words_of(&rt) else {
        return ExitCode::from(Fault::NoMemory.status());
    };
    let Some((mut ids, pair)) = two_arenas(alloc) else {
        return ExitCode::from(Fault::NoMemory.status());
    };
    let mut files = RealFiles::new(&rt);
    let mut out = WriterSink::new(io::writer(&rt));
    let stderr = rt.stderr();
    let mut err = WriterSink::new(io::writer(&stderr));
    let mut watch = SilentWatch;
    let outcome = run(
        &rt, alloc, &words, &mut files, &mut out, &mut err, &OpenGate, &mut ids, pair, &mut watch,
    );
    let lives = outcome.end(&mut watch);
    ExitCode::from(lives.status)
}

// A source of ids, and two arenas with its first two; none where there is no memory for them.
fn two_arenas(alloc: Global) -> Option<(IdSource, Pair)>
    ensures { IfSome result (λ r. CanRun r.0 r.1.a r.1.b) }
{
    let Ok(mut ids) = IdSource::new(alloc, ID_BATCHES) else {
        return None;
    };
    let Ok(first) = ids.draw() else {
        return None;
    };
    let Ok(second) = ids.draw() else {
        return None;
    };
    let a = Arena::new(alloc, Policy::profile(), first);
    let b = Arena::new(alloc, Policy::profile(), second);
    Some((ids, Pair { a, b }))
}

// The program's arguments without its own name; none where there is no memory for them. Words that aren't text have none
// of the forms, and no words stand for them.
fn words_of(rt: &HostRuntime) -> Option<Vec<String>> {
    match env::args(rt) {
        Ok(args) => args.skip(1).collect(rt.alloc()).ok(),
        Err(error) => match error.kind() {
            io::ErrorKind::OutOfMemory => None,
            _ => Some(Vec::new(rt.alloc())),
        },
    }
}
