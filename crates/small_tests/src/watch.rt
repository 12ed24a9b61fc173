use cube_lex::{Position, Token, text_tokens};
use grammar::{Cursor, Scan, Stop, end, position_left, sign, sign_comes, word, word_comes};

const BLOCK: &[u8] = b"Dim ;\nn";

#[derive(Debug, Drop, PartialEq)]
enum Cause {
    TooMany,
}

/// Lets so many tokens through.
#[derive(Drop)]
struct AtMost {
    tokens: u8,
}

impl Scan<Cause> for AtMost {
    ghost use Rattle.std.specs.Prelude.{nat_lt, ◌-◌, if◌then◌else◌, Ok, Err};
    ghost use Rattle.small_tests.specs.declared.watch.Cause.TheVariants.{TooMany};

    ghost scanned = { λ s _. if nat_lt 0 s.tokens then Ok (record { tokens = s.tokens - 1 }) else Err TooMany };

    fn scan(&mut self, _: &Token<'_>) -> Result<(), Cause> {
        if 0 < self.tokens {
            self.tokens -= 1;
            Ok(())
        } else {
            Err(Cause::TooMany)
        }
    }
}

// `DIM ; N`, with the place of the N.
fn block(cursor: &mut Cursor<'_, AtMost>) -> Result<Position, Stop<Cause>> {
    word(cursor, b"DIM")?;
    sign(cursor, b";")?;
    let line = word(cursor, b"N")?;
    end(cursor)?;
    Ok(line)
}

#[test]
fn a_reader_takes_a_block_or_stops(rt: HostRuntime) {
    let mut cursor = Cursor::new(text_tokens(BLOCK).left, AtMost { tokens: 3 });
    assert!(rt; word_comes(&cursor, b"DIM") && !sign_comes(&cursor, b";"));
    assert!(rt; matches!(block(&mut cursor), Ok(Position { line: 2, .. })));
    let mut cursor = Cursor::new(text_tokens(b";\nn").left, AtMost { tokens: 3 });
    assert!(rt; matches!(block(&mut cursor), Err(Stop::Unexpected(2))));
    let mut cursor = Cursor::new(text_tokens(BLOCK).left, AtMost { tokens: 2 });
    assert!(rt; matches!(block(&mut cursor), Err(Stop::Refused(Cause::TooMany))));
    let end = text_tokens(BLOCK).end;
    let behind_word = position_left(text_tokens(BLOCK).left, end, 2);
    let at_end = position_left(text_tokens(BLOCK).left, end, 0);
    assert_eq!(rt; [behind_word.offset, at_end.offset], [4, BLOCK.len()]);
}
