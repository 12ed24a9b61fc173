ghost use Rattle.std.specs.Prelude.{◌≡◌};
ghost use Rattle.std.specs.List.{list_all};
ghost use Rattle.cube_words.specs.Inside.Command.{are_spelled, goes_on, is_spelled};
ghost use Rattle.cube_words.specs.Words.{names_a_file, texts_of};

/// Whether a word may name a file.
fn names_a_file(word: &str) -> bool
    ensures { result ≡ names_a_file word.now }
{
    match word.as_bytes() {
        [] => false,
        [first, ..] => *first != b'-',
    }
}

/// Whether a word begins with `--` and goes on.
fn goes_on(word: &str) -> bool
    ensures { result ≡ goes_on word.now }
{
    match word.as_bytes() {
        [first, second, _, ..] => *first == b'-' && *second == b'-',
        _ => false,
    }
}

fn is_spelled(word: &str) -> bool
    ensures { result ≡ is_spelled word.now }
{
    names_a_file(word) || goes_on(word)
}

fn name_files(words: &[String]) -> bool
    ensures { result ≡ list_all names_a_file (texts_of words.now) }
{
    for word in words {
        if !names_a_file(word.as_str()) {
            return false;
        }
    }
    true
}

/// Whether each word names a file, or is a long flag that stands first or among at most two words.
///
/// `clap` alone takes an empty word and `-` for a file, and `--` for the end of the flags.
pub(crate) fn are_spelled(words: &[String]) -> bool
    ensures { result ≡ are_spelled (texts_of words.now) }
{
    match words {
        [] => true,
        [word] => is_spelled(word.as_str()),
        [first, second] => is_spelled(first.as_str()) && is_spelled(second.as_str()),
        [first, files @ ..] => is_spelled(first.as_str()) && name_files(files),
    }
}
