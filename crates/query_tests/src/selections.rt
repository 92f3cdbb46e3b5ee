//! Selections over references.
ghost use Rattle.std.specs.Prelude.{◌≡◌, length};

use crate::assertions::assert_same;
use crate::samples::empty;
use mm_select::{Access, select};
use mm_store::Store;
use mm_templist::Descriptor;
use std::alloc::{AllocError, Global};
use std::test::Fail;

/// Returns the numbers of rows that a scan of the first table finds and reads. Tries again once if an allocation fails.
fn scan(alloc: Global, store: &Store) -> Result<(usize, u64), AllocError>
    requires { length store.now.tables ≡ 2 }
{
    let mut view = store.view();
    let descriptor = Descriptor {
        tables: &[0],
        fields: &[],
    };
    let list = match select(alloc, &mut view, descriptor, &[], Access::Scan) {
        Ok(list) => list,
        Err(_) => select(alloc, &mut view, descriptor, &[], Access::Scan)?,
    };
    Ok((list.len(), view.reads()))
}

#[test]
fn scans_a_table_of_no_rows(rt: HostRuntime) -> Result<(), Fail> {
    let alloc = rt.alloc();
    let store = empty(alloc)?;
    let (found, reads) = scan(alloc, &store)?;
    assert_same(&rt, found, 0);
    assert_same(&rt, reads, 0);
    Ok(())
}
