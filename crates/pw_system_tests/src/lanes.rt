//! A lane between a primary and its backup.

use pw_link::lane;
use std::test::Fail;

#[test]
fn lane_gives_receipts_message(rt: HostRuntime) -> Result<(), Fail> {
    let (mut primary, mut backup) = lane::<u32>(rt.alloc())?;
    let first = primary.send(&rt, 7);
    assert_eq!(rt; backup.take(&rt, first), 7);
    let second = primary.send(&rt, 8);
    let third = primary.send(&rt, 9);
    assert_eq!(rt; backup.take(&rt, second), 8);
    let fourth = primary.send(&rt, 10);
    assert_eq!(rt; backup.take(&rt, third), 9);
    assert_eq!(rt; backup.take(&rt, fourth), 10);
    Ok(())
}
