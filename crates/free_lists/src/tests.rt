use crate::Lists;
use std::test::Fail;

fn crosses_threads<T: Send + Sync>(value: T) -> T {
    value
}

#[test]
fn places_stand_in_lists_by_class(rt: HostRuntime) -> Result<(), Fail> {
    let mut lists = Lists::new(rt.alloc())?;
    lists.extend(rt.alloc(), 4)?;
    lists.append(0, 3);
    lists.append(1, 3);
    lists.append(2, 300);
    lists.append(3, 256);
    assert_eq!(rt;
        (lists.tail(3), lists.before(1), lists.before(0)),
        (Some(1), Some(0), None)
    );
    assert_eq!(rt; (lists.tail(256), lists.before(3)), (Some(3), Some(2)));
    lists.remove(1);
    assert_eq!(rt; (lists.tail(3), lists.tail(4)), (Some(0), None));
    crosses_threads(lists);
    Ok(())
}
