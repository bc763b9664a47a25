ghost use Rattle.std.specs.Prelude.{◌≡◌, ◌≢◌, ◌<◌, ◌≤◌, ◌↔◌, IsSome, IfSome, map, string_bytes, slice_index_or, drop, []};
ghost use Rattle.std.specs.Str.Parse.{digits_value};
ghost use Rattle.std.specs.IoError.{error_kind};
ghost use Rattle.exec_io.specs.Words.{IsNumber, AreSettings};

use std::alloc::Global;
use std::env;
use std::env::Env;
use std::io::{Error, ErrorKind};

/// Why the program's words aren't there.
#[derive(Clone, Copy, Debug, PartialEq, Eq)]
pub enum WordsFault {
    /// A growth was refused.
    Memory,
    /// A word isn't text.
    NotText,
}

/// What the program's words say.
#[derive(Clone, Copy, Debug, PartialEq, Eq)]
pub struct Settings {
    /// How many workers run callbacks, 1 to 64.
    pub workers: u16,
    /// How many callbacks a worker claims at a time at most, 1 to 1,024.
    pub quantum: u16,
}

impl Settings {
    /// The most workers.
    pub const MOST_WORKERS: u16 = 64;

    /// The greatest quantum.
    pub const MOST_QUANTUM: u16 = 1024;

    /// Reads two words, the workers and the quantum, each of one to four decimal digits.
    pub fn from_words(words: &[String]) -> Option<Settings>
        ensures lawful { IsSome result ↔ AreSettings (map string_bytes words.now) }
        ensures workers { IfSome result (λ settings. settings.workers
            ≡ digits_value 10 (slice_index_or (map string_bytes words.now) 0 [])) }
        ensures quantum { IfSome result (λ settings. settings.quantum
            ≡ digits_value 10 (slice_index_or (map string_bytes words.now) 1 [])) }
        ensures in_range { IfSome result (λ settings. (0 < settings.workers) × (settings.workers ≤ 64) × (0 < settings.quantum) × (settings.quantum ≤ 1024)) }
    {
        let [workers, quantum] = words else {
            return None;
        };
        Some(Settings {
            workers: number_to(Self::MOST_WORKERS, workers)?,
            quantum: number_to(Self::MOST_QUANTUM, quantum)?,
        })
    }
}

// The number from 1 to `most` that a word of one to four decimal digits writes.
fn number_to(most: u16, word: &str) -> Option<u16>
    ensures lawful { IsSome result ↔ IsNumber most word.now }
    ensures value { IfSome result (λ number. number ≡ digits_value 10 word.now) }
    ensures in_range { IfSome result (λ number. (0 < number) × (number ≤ most)) }
{
    if word.len() > 4 || word.as_bytes().first() == Some(&b'+') {
        return None;
    }
    let number = word.parse::<u16>().ok()?;
    if number >= 1 && number <= most {
        Some(number)
    } else {
        None
    }
}

/// The words that the program was started with, without its own name. No clause can say what these are. The contract of
/// [`words_behind_the_name`] says what is made of the arguments.
///
/// # Errors
/// [`WordsFault::Memory`] if a growth was refused, and [`WordsFault::NotText`] if a word isn't text.
pub fn read_words<R: Env + AllocGlobal>(rt: &R) -> Result<Vec<String>, WordsFault> {
    let arguments = env::args(rt).map_err(|fault| words_fault(&fault))?;
    let arguments = arguments
        .collect(rt.alloc())
        .map_err(|_| WordsFault::Memory)?;
    Ok(words_behind_the_name(arguments))
}

/// The words after the first argument, which is the program's own name.
pub fn words_behind_the_name(mut arguments: Vec<String>) -> Vec<String>
    ensures { result.items ≡ drop 1 arguments.items }
{
    if !arguments.is_empty() {
        let _name = arguments.remove(0);
    }
    arguments
}

fn words_fault(fault: &Error) -> WordsFault
    ensures memory { error_kind fault.now ≡ ErrorKind.OutOfMemory → result ≡ WordsFault.Memory }
    ensures not_text { error_kind fault.now ≢ ErrorKind.OutOfMemory → result ≡ WordsFault.NotText }
{
    match fault.kind() {
        ErrorKind::OutOfMemory => WordsFault::Memory,
        _ => WordsFault::NotText,
    }
}
