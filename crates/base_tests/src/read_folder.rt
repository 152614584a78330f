//! A test of a failing read of the operating system.
use det_io::{DirShelf, Shelf, ShelfFailed, Slots};
use std::io::ErrorKind;
use std::test::Fail;

/// Opening a folder succeeds, and each read of it fails.
#[test]
fn a_read_of_a_folder_fails(rt: HostRuntime) -> Result<(), Fail> {
    let mut buf = [0; 2];
    let mut shelf = DirShelf::new(&rt, rt.alloc());
    let slot = shelf.open_input(".")?;
    assert!(rt; shelf.failed().is_none());
    assert_eq!(rt; shelf.read(slot, &mut buf), Err(ShelfFailed));
    assert_eq!(rt;
        shelf.failed().map(|(slot, error)| (slot, error.kind())),
        Some((0, ErrorKind::IsADirectory))
    );
    Ok(())
}
