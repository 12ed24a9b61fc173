ghost use Rattle.std.specs.Prelude.{◌≡◌, ◌==◌, ◌&&◌};
ghost use Rattle.std.specs.List.{list_any};

/// A cell whose value on a version is kept. The value itself is determined by the two.
#[derive(Clone, Copy)]
pub struct Known {
    pub version: u64,
    pub cell: u64,
}

/// Whether the cell's value on this version is kept.
pub fn is_known(memo: &[Known], version: u64, cell: u64) -> bool
    ensures { result ≡ list_any (λ known. (known.version == version) && (known.cell == cell)) memo.now }
{
    memo.iter()
        .any(|known| known.version == version && known.cell == cell)
}
