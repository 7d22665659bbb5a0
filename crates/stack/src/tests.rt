// What a stack does on examples, and what its lender has afterwards.
ghost use Rattle.std.specs.Prelude.{◌≡◌, ◌<◌, length, Ok, slice_set};

use crate::{Blank, Stack, StackFault, Trial, Word};
use std::test::Fail;

// What is pushed is what is popped, and the lender then has one blank more.
fn once<E: Blank + Copy>(slots: &mut [E], x: E) -> Result<E, StackFault>
    requires { 0 < length slots.old }
    ensures answer { result ≡ Ok x }
    ensures after { slots.new ≡ slice_set slots.old 0 E.nothing }
{
    let mut stack = Stack::new(slots);
    stack.push(x)?;
    stack.pop()
}

#[test]
fn lines(rt: HostRuntime) -> Result<(), Fail> {
    let mut slots = [7u8, 7];
    let mut stack = Stack::new(&mut slots);
    stack.push(3)?;
    stack.push(5)?;
    assert!(rt; matches!(stack.push(8), Err(fault) if fault.number() == 41));
    assert_eq!(rt; stack.len(), 2);
    assert_eq!(rt; stack.pop()?, 5);
    assert_eq!(rt; stack.pop()?, 3);
    assert!(rt; matches!(stack.pop(), Err(fault) if fault.number() == 42));
    assert_eq!(rt; slots, [255, 255]);
    Ok(())
}

#[test]
fn trials(rt: HostRuntime) -> Result<(), Fail> {
    let nearer = Trial {
        i: 3,
        j: 1,
        word: Some(Word::Nearer),
    };
    let mut slots = [nearer];
    assert_eq!(rt; once(&mut slots, nearer)?, nearer);
    assert_eq!(rt; slots[0], Trial::default());
    Ok(())
}
