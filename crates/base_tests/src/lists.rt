use hdr_core::List;

#[test]
fn takes_off_what_was_pushed_last(rt: HostRuntime) {
    let mut list = List::of(Vec::new(rt.alloc()));
    assert!(rt; list.is_empty());
    for item in [1u8, 2] {
        list.push(item).expect(&rt, "memory");
    }
    assert!(rt; list.len() == 2);
    assert!(rt; list.pop() == Some(2));
    assert!(rt; list.items() == [1].as_slice());
    assert!(rt; list.pop() == Some(1));
    assert!(rt; list.pop() == None);
}
