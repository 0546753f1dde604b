//! Actors come, wait and leave.

use dri_kernel::Queue;

#[test]
fn first_come_first_served(rt: HostRuntime) {
    let mut queue = Queue::new();
    assert!(rt; queue.is_empty());
    assert_eq!(rt; queue.front(), None);
    for actor in [32, 0, 7] {
        assert!(rt; !queue.contains(actor));
        queue.join(actor);
    }
    assert_eq!(rt; queue.front(), Some(32));
    queue.remove(0);
    queue.remove(1);
    assert_eq!(rt; (queue.contains(0), queue.contains(7)), (false, true));
    queue.remove(32);
    assert_eq!(rt; queue.front(), Some(7));
    queue.remove(7);
    assert!(rt; queue.is_empty());
}
