// The words of the command line.
ghost use Rattle.std.specs.Prelude.{◌≡◌, ◌+◌, ◌^◌, ◌<◌, ◌≤◌, true, false, Some, length, map, codes, IfOk, IfErr, IfSome, IfNone, MatchOption};
ghost use Rattle.std.specs.String.{string_bytes};
ghost use Rattle.arena_run.specs.Ends.{IsLimited, IsOfWords};
ghost use Rattle.arena_run.specs.Causes.{EndsByWords};
ghost use Rattle.arena_run.specs.Words.{number_in, Spells, IsNumber, HasNoForm, IsReadFrom, IsCat, AsksFor};

use crate::command::Command;
use crate::fault::Fault;

/// The greatest number of workers, which has two digits.
const MOST_WORKERS: u64 = 64;

/// The greatest seed, which has ten digits.
const MOST_SEED: u64 = 4294967295;

/// The greatest count of frames that are made, which has five digits.
const MOST_COUNT: u64 = 65535;

/// The words of the command that is built: the set, the name of a type, that of a frames file, and how many workers there
/// are to be.
#[derive(Clone, Copy, Debug, PartialEq, Eq)]
pub struct CatWords<'a> {
    pub set: &'a str,
    pub type_name: &'a str,
    pub frames: &'a str,
    pub workers: u8,
}

/// The set, the type, the frames file and the number of workers, where the words are those of the command that is built.
pub fn cat_words(words: &[String]) -> Result<CatWords<'_>, Fault>
    ensures built { IfOk result (λ found. IsCat (map string_bytes words.now) found.set.now found.type_name.now found.frames.now) }
    ensures workers { IfOk result (λ found. AsksFor (map string_bytes words.now) found.workers) }
    ensures by_words { IfErr result (λ fault. EndsByWords (map string_bytes words.now) (Some fault)) }
    ensures kind { IfErr result (λ fault. IsOfWords (Some fault)) }
    ensures limits { IfErr result IsLimited }
{
    let Some(command) = command_of(words) else {
        return Err(Fault::Usage);
    };
    match command {
        Command::Cat {
            set,
            type_name,
            frames,
            workers,
        } => Ok(CatWords {
            set,
            type_name,
            frames,
            workers,
        }),
        Command::Run { .. } => Err(Fault::NotBuilt),
        Command::Gen { .. } => Err(Fault::NotBuilt),
    }
}

/// What the words ask for; none where they have none of the three forms.
pub fn command_of(words: &[String]) -> Option<Command<'_>>
    ensures read { IfSome result (IsReadFrom (map string_bytes words.now)) }
    ensures no_form { IfNone result (HasNoForm (map string_bytes words.now)) }
{
    match words {
        [command, set, type_name, frames, workers] if command.as_str() == "cat" => {
            let workers = workers_in(workers)?;
            Some(Command::Cat {
                set: set.as_str(),
                type_name: type_name.as_str(),
                frames: frames.as_str(),
                workers,
            })
        }
        [command, set, type_name, frames, script, workers] if command.as_str() == "run" => {
            let workers = workers_in(workers)?;
            Some(Command::Run {
                set: set.as_str(),
                type_name: type_name.as_str(),
                frames: frames.as_str(),
                script: script.as_str(),
                workers,
            })
        }
        [command, seed, count, workers] if command.as_str() == "gen" => {
            let seed = number_in_word(seed, 10, 0, MOST_SEED)? as u32;
            let count = number_in_word(count, 5, 1, MOST_COUNT)? as u16;
            let workers = workers_in(workers)?;
            Some(Command::Gen {
                seed,
                count,
                workers,
            })
        }
        _ => None,
    }
}

// How many workers there are to be.
fn workers_in(word: &String) -> Option<u8>
    ensures { MatchOption result (IsNumber 2 1 64 (string_bytes word.now) → ⊥) (Spells 2 1 64 (string_bytes word.now)) }
{
    number_in_word(word, 2, 1, MOST_WORKERS).map(|number| number as u8)
}

// The number that one to so many digits spell, where it is from least to most.
fn number_in_word(word: &String, digits: usize, least: u64, most: u64) -> Option<u64>
    requires { digits ≤ 10 }
    ensures { MatchOption result (IsNumber digits least most (string_bytes word.now) → ⊥) (Spells digits least most (string_bytes word.now)) }
{
    let spelled = word.as_bytes();
    if spelled.is_empty() || spelled.len() > digits {
        return None;
    }
    let number = number_of(spelled)?;
    if number < least || most < number {
        return None;
    }
    Some(number)
}

// The number that some digits spell; none where one of them is no digit.
fn number_of(spelled: &[u8]) -> Option<u64>
    requires { length spelled.now ≤ 10 }
    ensures { result ≡ number_in spelled.now }
{
    let mut number = 0u64;
    for &digit in spelled {
        if digit < b'0' || digit > b'9' {
            return None;
        }
        number = number * 10 + u64::from(digit - b'0');
    }
    Some(number)
}
