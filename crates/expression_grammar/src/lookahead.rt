ghost use Rattle.std.specs.Prelude.{◌≡◌};
ghost use Rattle.grammar.specs.Tokens.{is_sign, is_word};
ghost use Rattle.expression_grammar.specs.Readers.Lookahead.{starts_pair};

use grammar::{Cursor, Unwatched, sign_comes, word_comes};

/// Whether this word comes next, and this sign behind it.
#[tactic(auto, using(crate::proofs::Pairs::pair_is))]
pub fn pair_comes<S>(cursor: &Cursor<'_, S>, word: &[u8], sign: &[u8]) -> bool
    ensures { result ≡ starts_pair (is_word word.now) (is_sign sign.now) cursor.now.tokens }
{
    if !word_comes(cursor, word) {
        return false;
    }
    let mut behind = cursor.tokens.again();
    behind.advance();
    sign_comes(&Cursor::new(behind, Unwatched), sign)
}
