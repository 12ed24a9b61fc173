ghost use Rattle.std.specs.Prelude.{◌≡◌, ◌<◌, [], ◌∷◌, length, MatchOption};
ghost use Rattle.dim_name.specs.Name.{is_same_name, key_of};

/// The first byte that isn't a space, lowered, and what stands behind it.
fn next_letter(text: &[u8]) -> Option<(u8, &[u8])>
    ensures { MatchOption result (key_of text.now ≡ [])
        (λ found. (key_of text.now ≡ found.0 ∷ key_of found.1.now) × (length found.1.now < length text.now)) }
{
    let mut rest = text;
    'byte: while let [byte, behind @ ..] = rest {
        if *byte != b' ' {
            return Some((byte.to_ascii_lowercase(), behind));
        }
        rest = behind;
    }
    None
}

/// Whether two texts are the same as names are: without spaces, and with `A` to `Z` lowered.
pub fn is_same_name(one: &[u8], other: &[u8]) -> bool
    ensures { result ≡ is_same_name one.now other.now }
{
    let mut left = one;
    let mut right = other;
    'letter: while let Some((letter, behind)) = next_letter(left) {
        let Some((other, behind_other)) = next_letter(right) else {
            return false;
        };
        if letter != other {
            return false;
        }
        left = behind;
        right = behind_other;
    }
    next_letter(right).is_none()
}
