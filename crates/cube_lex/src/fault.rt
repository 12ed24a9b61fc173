ghost use Rattle.std.specs.Prelude.{◌≡◌};
ghost use Rattle.cube_lex.specs.declared.fault.LexFault.TheVariants.{Memory};

use std::alloc::{AllocError, AllocFailed};

/// Why a text can't be read on. Offsets are those of bytes in the text, from 0; a byte order mark counts.
#[derive(Clone, Copy, Debug, PartialEq, Eq)]
pub enum LexFault {
    /// This byte begins no token, or it may not stand in the quoted text that it is in.
    BadByte(usize),
    /// The quoted text that begins here is still open at the text's end.
    OpenQuote(usize),
    /// The token that begins here has more than 1,024 bytes, or the text has more than 2^30 bytes and this is offset
    /// 2^30.
    TooLong(usize),
    Memory,
}

impl LexFault {
    ghost use Rattle.std.specs.Prelude.{ℕ, List, Some};
    ghost use Rattle.cube_lex.specs.Fault.{place_of};

    /// The offset of the byte at which the text can't be read on.
    pub(crate) fn offset(&self) -> usize
        ensures { (text : List ℕ) → result ≡ place_of text (Some self.now) }
    {
        match self {
            LexFault::BadByte(offset) => *offset,
            LexFault::OpenQuote(offset) => *offset,
            LexFault::TooLong(offset) => *offset,
            LexFault::Memory => 0,
        }
    }
}

impl From<AllocError> for LexFault {
    ghost from_gives = { λ _ e. e ≡ Memory };

    fn from(_error: AllocError) -> LexFault {
        LexFault::Memory
    }
}

impl<T: Drop> From<AllocFailed<T>> for LexFault {
    ghost from_gives = { λ _ e. e ≡ Memory };

    fn from(_error: AllocFailed<T>) -> LexFault {
        LexFault::Memory
    }
}
