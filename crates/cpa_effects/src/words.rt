//! The words of a call: a system file, the tasks of a chain, and when their jobs read.

ghost use Rattle.std.specs.Prelude.{◌≡◌, ◌<◌, ◌∷◌, length, map, option_map, bytes_eq, string_bytes};
ghost use Rattle.std.specs.List.{list_any};
ghost use Rattle.cpa_effects.specs.Calls.{accepted, asked, call, call_by_last, call_of, flag, is_chain, is_count, is_no_word};

use crate::steps::Reading;
use cpa_units::limits::MAX_CHAIN;

/// When jobs read, and the words beside that.
#[derive(Clone, Copy)]
pub(crate) struct Request<'a> {
    pub(crate) reading: Reading,
    pub(crate) words: &'a [String],
}

/// Whether a word says that jobs read only while they run.
fn is_flag(word: &str) -> bool
    ensures { result ≡ bytes_eq word.now flag }
{
    word == "--while-running"
}

/// What words ask for that have the flag last, or nowhere.
fn request_by_last<'a>(words: &'a [String]) -> Request<'a>
    requires { 0 < length words.now }
    ensures { call result ≡ call_by_last (map string_bytes words.now) }
{
    let last = words.len() - 1;
    if is_flag(words[last].as_str()) {
        Request {
            reading: Reading::WhileRunning,
            words: &words[..last],
        }
    } else {
        Request {
            reading: Reading::Anywhere,
            words,
        }
    }
}

/// What words ask for.
pub(crate) fn read_request<'a>(words: &'a [String]) -> Request<'a>
    ensures { call result ≡ call_of (map string_bytes words.now) }
{
    match words {
        [] => Request {
            reading: Reading::Anywhere,
            words,
        },
        [first, rest @ ..] => {
            if is_flag(first.as_str()) {
                Request {
                    reading: Reading::WhileRunning,
                    words: rest,
                }
            } else {
                request_by_last(words)
            }
        }
    }
}

/// The file and the tasks that accepted words name.
#[derive(Clone, Copy)]
pub(crate) struct Named<'a> {
    pub(crate) file: &'a str,
    pub(crate) tasks: &'a [String],
}

/// Whether a word is empty or begins with a hyphen.
fn is_no_word(word: &str) -> bool
    ensures { result ≡ is_no_word word.now }
{
    match word.as_bytes() {
        [] => true,
        [first, ..] => *first == b'-',
    }
}

/// Whether one of some words is empty or begins with a hyphen.
fn has_no_word(words: &[String]) -> bool
    ensures { result ≡ list_any (λ word. is_no_word (string_bytes word)) words.now }
{
    words.iter().any(|word| is_no_word(word.as_str()))
}

/// Whether a chain may have so many tasks.
fn is_count(count: usize) -> bool
    ensures { result ≡ is_count count }
{
    0 < count && count as u64 <= MAX_CHAIN
}

/// Whether there are so many words, and none is empty or begins with a hyphen.
fn is_chain(tasks: &[String]) -> bool
    ensures { result ≡ is_chain (map string_bytes tasks.now) }
{
    is_count(tasks.len()) && !has_no_word(tasks)
}

/// The file and the tasks of such words.
fn name_all<'a>(file: &'a str, tasks: &'a [String]) -> Option<Named<'a>>
    ensures { option_map asked result ≡ accepted (file.now ∷ map string_bytes tasks.now) }
{
    if !is_no_word(file) && is_chain(tasks) {
        Some(Named { file, tasks })
    } else {
        None
    }
}

/// The file and the tasks that the words name; None exactly where they aren't accepted.
pub(crate) fn accept<'a>(words: &'a [String]) -> Option<Named<'a>>
    ensures { option_map asked result ≡ accepted (map string_bytes words.now) }
{
    match words {
        [] => None,
        [file, tasks @ ..] => name_all(file.as_str(), tasks),
    }
}
