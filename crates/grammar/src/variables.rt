ghost use Rattle.std.specs.Prelude.{◌≡◌};
ghost use Rattle.std.specs.Str.{bytes_eq};
ghost use Rattle.std.specs.Char.{is_ascii_digit};
ghost use Rattle.std.specs.List.{list_all, list_any};
ghost use Rattle.grammar.specs.Variables as variables;

fn is_among(words: &[&[u8]], word: &[u8]) -> bool
    ensures { result ≡ list_any (λ other. bytes_eq word.now other.now) words.now }
{
    words.iter().any(|other| word == *other)
}

/// Whether a word in capitals begins a statement of a load script, or a part of one.
pub fn is_statement_word(word: &[u8]) -> bool
    ensures { result ≡ variables.is_among variables.statement_words word.now }
{
    is_among(
        &[
            b"IF",
            b"ELSEIF",
            b"ELSE",
            b"ENDIF",
            b"WHILE",
            b"END",
            b"CELLPUTN",
            b"CELLINCREMENTN",
            b"ITEMSKIP",
            b"PROCESSBREAK",
            b"PROCESSERROR",
        ],
        word,
    )
}

/// Whether a word in capitals is a function of load scripts.
pub fn is_function_word(word: &[u8]) -> bool
    ensures { result ≡ variables.is_among variables.function_words word.now }
{
    is_among(
        &[
            b"CELLGETN",
            b"ABS",
            b"SIGN",
            b"INT",
            b"ROUND",
            b"STRINGTONUMBER",
            b"NUMBERTOSTRING",
            b"MAX",
            b"MIN",
        ],
        word,
    )
}

fn all_digits(bytes: &[u8]) -> bool
    ensures { result ≡ list_all is_ascii_digit bytes.now }
{
    bytes.iter().all(|byte| byte.is_ascii_digit())
}

fn is_column_number(digits: &[u8]) -> bool
    ensures { result ≡ variables.is_column_number digits.now }
{
    match digits {
        [] => false,
        [first, rest @ ..] => *first != b'0' && all_digits(digits) && rest.len() <= 3,
    }
}

/// Whether a word in capitals is a column of the record that is loaded, from `V1` to `V9999`. `V0`, `V01` and `V10000`
/// are none.
pub fn is_column(word: &[u8]) -> bool
    ensures { result ≡ variables.is_column word.now }
{
    match word {
        [] => false,
        [first, digits @ ..] => *first == b'V' && is_column_number(digits),
    }
}

/// Whether a word in capitals may name a variable of a load script: it is no column, no statement word and no function.
pub fn is_variable(word: &[u8]) -> bool
    ensures { result ≡ variables.is_variable word.now }
{
    !(is_column(word) || is_statement_word(word) || is_function_word(word))
}
