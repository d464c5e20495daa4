//! The words of a call that are two files: a system file, and another that is read after it.

ghost use Rattle.std.specs.Prelude.{◌≡◌, ◌∷◌, [], map, option_map, string_bytes};
ghost use Rattle.cpa_call.specs.TwoFiles.{accepted, asked, is_file};

/// The two files that accepted words name.
#[derive(Clone, Copy)]
pub struct TwoFiles<'a> {
    pub file: &'a str,
    pub second: &'a str,
}

/// Whether a word isn't empty and doesn't begin with a hyphen.
fn is_file(word: &str) -> bool
    ensures { result ≡ is_file word.now }
{
    match word.as_bytes() {
        [] => false,
        [first, ..] => *first != b'-',
    }
}

/// The two files of such words.
fn name_two<'a>(file: &'a str, second: &'a str) -> Option<TwoFiles<'a>>
    ensures { option_map asked result ≡ accepted (file.now ∷ second.now ∷ []) }
{
    if is_file(file) && is_file(second) {
        Some(TwoFiles { file, second })
    } else {
        None
    }
}

/// The files that the words name; None exactly where they aren't accepted.
pub fn accept_two<'a>(words: &'a [String]) -> Option<TwoFiles<'a>>
    ensures { option_map asked result ≡ accepted (map string_bytes words.now) }
{
    match words {
        [] => None,
        [_] => None,
        [file, second] => name_two(file.as_str(), second.as_str()),
        [_, _, _, ..] => None,
    }
}
