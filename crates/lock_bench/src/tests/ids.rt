//! A set against worked examples.
use id_set::IdSet;
use std::test::Fail;

#[test]
fn ids_ascend_whatever_the_order_in_which_they_came(rt: HostRuntime) -> Result<(), Fail> {
    let mut ids = IdSet::new(rt.alloc());
    for id in [9, 2, 18446744073709551615, 5, 2] {
        ids.insert(id)?;
    }
    assert_eq!(rt; ids.as_slice(), [2, 5, 9, 18446744073709551615].as_slice());
    ids.remove(5);
    ids.remove(6);
    assert_eq!(rt; ids.as_slice(), [2, 9, 18446744073709551615].as_slice());
    Ok(())
}
