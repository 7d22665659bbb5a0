// What is held on examples: each call on memory that is there.
use crate::Held;
use std::test::Fail;

#[test]
fn up_to_three(rt: HostRuntime) -> Result<(), Fail> {
    let mut held: Held<u8, 3> = Held::new(rt.alloc())?;
    held.refill(&[3, 5]);
    held.push(8);
    assert_eq!(rt; held.as_slice(), [3, 5, 8].as_slice());
    assert_eq!(rt; held.pop(), Some(8));
    assert_eq!(rt; held.len(), 2);
    held.refill_from(1..4);
    assert_eq!(rt; held.as_slice(), [1, 2, 3].as_slice());
    held.clear();
    assert_eq!(rt; held.pop(), None);
    Ok(())
}
