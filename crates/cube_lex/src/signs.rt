ghost use Rattle.std.specs.Prelude.{◌≡◌, nat_eq, map, find};
ghost use Rattle.std.specs.List.{starts_with};
ghost use Rattle.cube_lex.specs.Inside.Front.{IsSignLen};
ghost use Rattle.cube_lex.specs.Parts.{signs};

/// The signs, longer ones first.
const SIGNS: [&[u8]; 28] = [
    b"@<>", b"=>", b"<>", b"<=", b">=", b"@=", b"[", b"]", b"{", b"}", b"(", b")", b",", b";",
    b":", b"=", b"<", b">", b"+", b"-", b"*", b"/", b"\\", b"&", b"%", b"~", b"!", b"|",
];

/// Whether the bytes begin with a sign. Most signs differ from them in the first byte, which takes no call to find out.
fn begins_with(bytes: &[u8], sign: &[u8]) -> bool
    ensures { result ≡ starts_with nat_eq bytes.now sign.now }
{
    if !bytes.is_empty() && !sign.is_empty() && bytes[0] != sign[0] {
        return false;
    }
    bytes.starts_with(sign)
}

/// The first of the table with which the bytes begin.
fn first_front<'a>(table: &[&'a [u8]], bytes: &[u8]) -> Option<&'a [u8]>
    ensures { result ≡ find (λ sign. starts_with nat_eq bytes.now sign.now) table.now }
{
    table.iter().copied().find(|sign| begins_with(bytes, sign))
}

/// The same for the table of the signs: since longer ones come first, no longer one fits.
fn longest_front(table: &[&[u8]], bytes: &[u8]) -> Option<usize>
    requires { map (λ sign. sign.now) table.now ≡ signs }
    ensures { IsSignLen bytes.now result }
{
    match first_front(table, bytes) {
        Some(sign) => Some(sign.len()),
        None => None,
    }
}

/// The number of bytes of the longest sign with which the bytes begin.
pub fn sign_len(bytes: &[u8]) -> Option<usize>
    ensures { IsSignLen bytes.now result }
{
    longest_front(&SIGNS, bytes)
}
