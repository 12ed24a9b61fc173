use std::hash::{BuildHasher, DefaultHasher, Hasher};

/// What a table hashes its keys by. Its answers don't depend on it, but its speed does: who knows it can pick keys that
/// collide, and each look-up is then a walk over them all.
#[derive(Clone, Copy)]
pub struct TableKeys {
    // The hasher as it starts for each key.
    start: DefaultHasher,
}

impl TableKeys {
    /// The same in every run, for keys that nobody picks to make a table slow.
    pub fn fixed() -> TableKeys {
        TableKeys {
            start: DefaultHasher::new(),
        }
    }

    /// By a seed that who picks the keys can't choose: random bytes, or a cryptographic digest of a text that has all
    /// the keys.
    pub fn seeded(seed: &[u8]) -> TableKeys {
        let mut start = DefaultHasher::new();
        start.write(seed);
        TableKeys { start }
    }
}

impl BuildHasher for TableKeys {
    type Hasher = DefaultHasher;

    ghost build_hasher = { λ keys. keys.start };

    fn build_hasher(&self) -> DefaultHasher {
        self.start
    }
}
