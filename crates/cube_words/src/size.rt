ghost use Rattle.std.specs.Prelude.{◌≡◌, ℕ, MatchOption};
ghost use Rattle.std.specs.Char.{is_ascii_digit};
ghost use Rattle.std.specs.List.{list_all};
ghost use Rattle.cube_words.specs.Words.{IsSize};

/// The most records of a sample.
pub const MAX_RECORDS: u32 = 100_000;

/// The most digits of a sample's size.
const MAX_DIGITS: usize = 6;

fn are_digits(bytes: &[u8]) -> bool
    ensures { result ≡ list_all is_ascii_digit bytes.now }
{
    bytes.iter().all(|byte| byte.is_ascii_digit())
}

/// The size of a sample, where the text is one: leading zeros may stand there.
pub(crate) fn size_of(text: &str) -> Option<u32>
    ensures { MatchOption result ((size : ℕ) → ¬ IsSize text.now size) (λ size. IsSize text.now size) }
{
    if text.len() > MAX_DIGITS || !are_digits(text.as_bytes()) {
        return None;
    }
    let Ok(size) = text.parse::<u32>() else {
        return None;
    };
    if 1 <= size && size <= MAX_RECORDS {
        Some(size)
    } else {
        None
    }
}
