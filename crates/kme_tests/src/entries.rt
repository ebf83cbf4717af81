use ordered_set::Entries;
use std::test::Fail;

// Three entries of two groups.
#[test]
fn entries_stand_by_group_and_place(rt: HostRuntime) -> Result<(), Fail> {
    let mut entries = Entries::new(rt.alloc());
    entries.insert([1, 0, 0, 0, 5])?;
    entries.insert([1, 0, 0, 0, 2])?;
    entries.insert([1, 0, 0, 1, 3])?;
    assert_eq!(rt; entries.next([1, 0, 0, 0, 0]), Some(2));
    assert_eq!(rt; entries.next([1, 0, 0, 0, 3]), Some(5));
    assert_eq!(rt; entries.next([1, 0, 0, 0, 6]), None);
    assert_eq!(rt; entries.next([1, 0, 0, 1, 0]), Some(3));
    entries.remove([1, 0, 0, 0, 5]);
    assert_eq!(rt; entries.next([1, 0, 0, 0, 3]), None);
    Ok(())
}
