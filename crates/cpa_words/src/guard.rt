//! Words that leave nothing to refuse but what they say.

ghost use Rattle.std.specs.Prelude.{◌≡◌, ◌&&◌, ◌==◌, length, map, option_map, string_bytes};
ghost use Rattle.std.specs.List.{list_all};
ghost use Rattle.cpa_words.specs.Words.{is_operand, is_regular, joined_value, operands_of, sorted, words_of};

use crate::verb::Verb;

/// Whether a word isn't empty and doesn't begin with a dash.
fn is_operand(word: &str) -> bool
    ensures { result ≡ is_operand word.now }
{
    match word.as_bytes() {
        [] => false,
        [first, ..] => *first != b'-',
    }
}

/// Whether the words are so many operands.
fn are_operands(words: &[String], count: usize) -> bool
    ensures { result ≡ (length words.now == count && list_all is_operand (map string_bytes words.now)) }
{
    match words {
        [] => count == 0,
        [word, rest @ ..] => {
            0 < count && is_operand(word.as_str()) && are_operands(rest, count - 1)
        }
    }
}

/// The value of the option where it is written as one word.
fn joined_value(word: &str) -> Option<&str>
    ensures { option_map (λ s. s.now) result ≡ joined_value word.now }
{
    word.strip_prefix("--workers=")
}

/// Whether the words are so many operands, and the option among them, where it is there, has a value.
fn are_sorted(words: &[String], count: usize) -> bool
    ensures { result ≡ is_regular count (sorted (map string_bytes words.now)) }
{
    match words {
        [] => count == 0,
        [word, rest @ ..] => {
            if word.as_str() == "--workers" {
                match rest {
                    [] => false,
                    [value, others @ ..] => is_operand(value.as_str())
                        && are_operands(others, count),
                }
            } else if let Some(value) = joined_value(word.as_str()) {
                is_operand(value) && are_operands(rest, count)
            } else {
                0 < count && is_operand(word.as_str()) && are_sorted(rest, count - 1)
            }
        }
    }
}

/// Whether words are as a command wants them: as many operands, and a value of the option, if it takes one.
pub fn is_regular(verb: Verb, words: &[String]) -> bool
    ensures { result ≡ is_regular (operands_of verb) (words_of verb (map string_bytes words.now)) }
{
    if verb.takes_workers() {
        are_sorted(words, verb.operands())
    } else {
        are_operands(words, verb.operands())
    }
}
