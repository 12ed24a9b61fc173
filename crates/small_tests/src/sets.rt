use cell_store::{CellSet, PageSet};
use std::alloc::{AllocError, Global};
use std::test::Fail;

// A set has the cells that were added, each once; the set that it was made from stays as it was.
fn sets_have_their_cells(alloc: Global) -> Result<bool, AllocError> {
    let first = PageSet::new(alloc).with(alloc, &[7, 2, 7])?;
    let second = first.with(alloc, &[u64::MAX, 5, 2])?;
    let nexts = [
        first.next_from(0),
        first.next_from(3),
        first.next_from(8),
        second.next_from(3),
        second.next_from(8),
    ];
    let expected = [Some(2), Some(7), None, Some(5), Some(u64::MAX)];
    let has = [
        first.has(5),
        second.has(5),
        second.has(u64::MAX),
        second.has(6),
    ];
    Ok(
        (first.len(), second.len()) == (2, 4)
            && nexts == expected
            && has == [false, true, true, false],
    )
}

#[test]
fn sets_of_cells(rt: HostRuntime) -> Result<(), Fail> {
    assert!(rt; sets_have_their_cells(rt.alloc())?);
    Ok(())
}
