//! A list of numbers that are put in and taken out by place.
use balanced_list::{FrontedList, Item};
use std::test::Fail;

#[test]
fn numbers_stand_where_they_were_put(rt: HostRuntime) -> Result<(), Fail> {
    let alloc = rt.alloc();
    let mut list = FrontedList::new();
    // A number is put in at its place; where it is 0, the one that stands there is taken out.
    for (place, number) in [
        (0usize, 5u8),
        (0, 3),
        (2, 9),
        (1, 4),
        (3, 0),
        (0, 0),
        (1, 7),
    ] {
        if number > 0 && place <= list.len() && list.len() < 100 {
            list.insert(place, Item::new(alloc, number)?);
        } else if place < list.len() {
            let _taken = list.remove(place);
        }
    }
    assert!(rt; list.len() == 3);
    assert!(rt; list.get(0) == Some(&4) && list.get(1) == Some(&7) && list.get(2) == Some(&5));
    Ok(())
}
