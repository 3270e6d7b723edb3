//! The words of the command line.

ghost use Rattle.std.specs.Prelude.{◌≡◌, ◌≤◌, IfSome, map, string_bytes};
ghost use Rattle.command_line.specs.Words.{HasWorkers, MayWork, mode_of, run_of, live_of, check_of, load_of, drawn_of, no_options, options_from, with_smooth, with_number, number_in, word_number};

use apsp_model::{LEAST_SLOTS, MOST_READERS, MOST_SLOTS, MOST_WORKERS};
use numerals::number_of;

/// The workers of a mode whose words do not say how many.
pub const WORKERS: u32 = 4;

/// The readers of a block where the words do not say how many.
pub const READERS: u32 = 2;

/// The slots where the words do not say how many.
pub const SLOTS: u32 = 4;

/// The least vertices of generated input.
pub const LEAST_DRAWN: u32 = 2;

/// The most vertices of generated input.
pub const MOST_DRAWN: u32 = 128;

/// The most digits of a number of the command line.
const MOST_DIGITS: usize = 10;

/// What the program is to do.
#[derive(Clone, Copy, Debug, PartialEq, Eq)]
pub enum Mode {
    /// Runs a script, with 1 to `MOST_WORKERS` workers and with or without smoothing.
    Run {
        workers: u32,
        smooth: bool,
    },
    /// The same with blocks, whose questions so many readers answer from so many slots.
    Live {
        workers: u32,
        readers: u32,
        slots: u32,
        smooth: bool,
    },
    /// Reads a certificate, and says what holds of it.
    Check,
    /// Runs the input that a seed draws on `LEAST_DRAWN` to `MOST_DRAWN` vertices.
    Load {
        n: u32,
        seed: u64,
        workers: u32,
    },
}

/// What the options say. A number is none where its option is not given.
#[derive(Clone, Copy, Debug)]
pub struct Options {
    pub workers: Option<u32>,
    pub readers: Option<u32>,
    pub slots: Option<u32>,
    pub smooth: bool,
}

/// The mode that the words of the command line give, and none where they are not in the grammar:
/// no words, or the word `run`, with the options `--workers W` and `--smooth`, or the word `live`,
/// with these and `--readers R` and `--slots K`, or the word `check` alone, or the word `load`, the
/// numbers N and SEED, and the option `--workers W`. Options stand in any order, each at most once.
/// Takes no memory.
pub fn read_words(words: &[String]) -> Option<Mode>
    ensures mode { result ≡ mode_of (map string_bytes words.now) }
    ensures workers { IfSome result HasWorkers }
{
    match words {
        [] => run_mode(words),
        [mode, rest @ ..] if mode.as_str() == "run" => run_mode(rest),
        [mode, rest @ ..] if mode.as_str() == "live" => live_mode(rest),
        [mode, rest @ ..] if mode.as_str() == "check" => check_mode(rest),
        [mode, rest @ ..] if mode.as_str() == "load" => load_mode(rest),
        _ => None,
    }
}

/// The mode `run` with its options.
fn run_mode(words: &[String]) -> Option<Mode>
    ensures mode { result ≡ run_of (map string_bytes words.now) }
    ensures workers { IfSome result HasWorkers }
{
    let options = read_options(Options::new(), words)?;
    if options.readers.is_some() || options.slots.is_some() {
        return None;
    }
    Some(Mode::Run {
        workers: options.workers.unwrap_or(WORKERS),
        smooth: options.smooth,
    })
}

/// The mode `live` with its options.
fn live_mode(words: &[String]) -> Option<Mode>
    ensures mode { result ≡ live_of (map string_bytes words.now) }
    ensures workers { IfSome result HasWorkers }
{
    let options = read_options(Options::new(), words)?;
    Some(Mode::Live {
        workers: options.workers.unwrap_or(WORKERS),
        readers: options.readers.unwrap_or(READERS),
        slots: options.slots.unwrap_or(SLOTS),
        smooth: options.smooth,
    })
}

/// The mode `check`, which has no options.
fn check_mode(words: &[String]) -> Option<Mode>
    ensures { result ≡ check_of (map string_bytes words.now) }
{
    if words.is_empty() {
        Some(Mode::Check)
    } else {
        None
    }
}

/// The mode `load` with its numbers and its options.
fn load_mode(words: &[String]) -> Option<Mode>
    ensures mode { result ≡ load_of (map string_bytes words.now) }
    ensures workers { IfSome result HasWorkers }
{
    match words {
        [n, seed, rest @ ..] => drawn_mode(n.as_str(), seed.as_str(), rest),
        _ => None,
    }
}

/// The mode `load` with the words of its numbers, and those of its options.
fn drawn_mode(n: &str, seed: &str, words: &[String]) -> Option<Mode>
    ensures mode { result ≡ drawn_of n.now seed.now (map string_bytes words.now) }
    ensures workers { IfSome result HasWorkers }
{
    let n = number_in(LEAST_DRAWN, MOST_DRAWN, n)?;
    let seed = word_number(seed)?;
    let options = read_options(Options::new(), words)?;
    if options.smooth || options.readers.is_some() || options.slots.is_some() {
        return None;
    }
    Some(Mode::Load {
        n,
        seed,
        workers: options.workers.unwrap_or(WORKERS),
    })
}

/// What the words say behind what was given before them.
fn read_options(given: Options, words: &[String]) -> Option<Options>
    ensures given { result ≡ options_from given (map string_bytes words.now) }
    ensures workers { MayWork given → IfSome result MayWork }
{
    match words {
        [] => Some(given),
        [option, rest @ ..] if option.as_str() == "--smooth" => {
            read_options(given.with_smooth()?, rest)
        }
        [option, number, rest @ ..] => {
            read_options(given.with_number(option.as_str(), number.as_str())?, rest)
        }
        _ => None,
    }
}

impl Options {
    /// Nothing is given.
    fn new() -> Options
        ensures { result ≡ no_options }
    {
        Options {
            workers: None,
            readers: None,
            slots: None,
            smooth: false,
        }
    }

    /// With smoothing, unless that is given already.
    fn with_smooth(self) -> Option<Options>
        ensures given { result ≡ with_smooth self }
        ensures workers { MayWork self → IfSome result MayWork }
    {
        if self.smooth {
            return None;
        }
        Some(Options {
            smooth: true,
            ..self
        })
    }

    /// With the number of an option, unless that is given already.
    fn with_number(self, option: &str, number: &str) -> Option<Options>
        ensures given { result ≡ with_number self option.now number.now }
        ensures workers { MayWork self → IfSome result MayWork }
    {
        if option == "--workers" && self.workers.is_none() {
            let workers = number_in(1, MOST_WORKERS, number)?;
            return Some(Options {
                workers: Some(workers),
                ..self
            });
        }
        if option == "--readers" && self.readers.is_none() {
            let readers = number_in(1, MOST_READERS, number)?;
            return Some(Options {
                readers: Some(readers),
                ..self
            });
        }
        if option == "--slots" && self.slots.is_none() {
            let slots = number_in(LEAST_SLOTS, MOST_SLOTS, number)?;
            return Some(Options {
                slots: Some(slots),
                ..self
            });
        }
        None
    }
}

/// The number that a word is, from least to most.
fn number_in(least: u32, most: u32, word: &str) -> Option<u32>
    ensures number { result ≡ number_in least most word.now }
    ensures range { IfSome result (λ k. (least ≤ k) × (k ≤ most)) }
{
    let number = word_number(word)?;
    if number < u64::from(least) || u64::from(most) < number {
        return None;
    }
    Some(number as u32)
}

/// The number that a word is, of few digits.
fn word_number(word: &str) -> Option<u64>
    ensures { result ≡ word_number word.now }
{
    number_of(word.as_bytes(), MOST_DIGITS)
}
