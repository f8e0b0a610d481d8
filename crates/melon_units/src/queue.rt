use melon_queue::{Left, Queue, QueueFault};
use melon_raw::Id;
use std::test::Fail;

fn name(rt: &HostRuntime, text: &str) -> Result<Id, Fail> {
    Ok(Id::read(rt.alloc(), text)?)
}

#[test]
fn a_nested_writer_leaves_twice(rt: HostRuntime) -> Result<(), Fail> {
    let mut queue = Queue::new(rt.alloc());
    assert!(rt; queue.holder().is_none());
    assert_eq!(rt; queue.enter(rt.alloc(), name(&rt, "w1")?)?, 0);
    assert_eq!(rt; queue.enter(rt.alloc(), name(&rt, "w2")?)?, 1);
    let (first, second) = (name(&rt, "w1")?, name(&rt, "w2")?);
    assert_eq!(rt; queue.nest(rt.alloc(), &first)?, 2);
    match queue.nest(rt.alloc(), &second) {
        Err(QueueFault::NotHolder { holder: Some(id) }) => assert_eq!(rt; id.as_str(), "w1"),
        _ => assert!(rt; false),
    }
    assert_eq!(rt; queue.leave(&second), Left::NotHolder);
    assert_eq!(rt; queue.leave(&first), Left::Depth(1));
    assert_eq!(rt; queue.leave(&first), Left::Next);
    assert_eq!(rt; queue.holder().map_or("", |id| id.as_str()), "w2");
    assert_eq!(rt; queue.leave(&second), Left::Free);
    assert!(rt; queue.holder().is_none());
    Ok(())
}

#[test]
fn sixty_four_names_are_the_most(rt: HostRuntime) -> Result<(), Fail> {
    let mut queue = Queue::new(rt.alloc());
    for i in 0..64usize {
        let text = format!(in rt.alloc(); "w{i}")?;
        let writer = name(&rt, text.as_str())?;
        assert_eq!(rt; queue.enter(rt.alloc(), writer)?, i);
    }
    match queue.enter(rt.alloc(), name(&rt, "w64")?) {
        Err(QueueFault::Full { count }) => assert_eq!(rt; count, 64),
        _ => assert!(rt; false),
    }
    match queue.enter(rt.alloc(), name(&rt, "w7")?) {
        Err(QueueFault::Queued) => (),
        _ => assert!(rt; false),
    }
    let first = name(&rt, "w0")?;
    for depth in 2..=64usize {
        assert_eq!(rt; queue.nest(rt.alloc(), &first)?, depth);
    }
    match queue.nest(rt.alloc(), &first) {
        Err(QueueFault::Full { count }) => assert_eq!(rt; count, 64),
        _ => assert!(rt; false),
    }
    Ok(())
}
