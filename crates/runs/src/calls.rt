// The calls of a list, one after the other.
ghost use Rattle.std.specs.Prelude.{◌≡◌, ◌+◌, ◌≤◌, length, OnOk};
ghost use Rattle.runs.specs.Runs.{request, Answered, RanMore};

use crate::model::{Answer, Call, Told};
use crate::plans::settle_within;
use axis::Axis;
use sheet::Sheet;
use std::alloc::{AllocError, Global};

// One call; only the answer of a settle needs memory.
// Kept side by side: a struct of an allocator and a lent sheet would be made for each call and taken apart in it.
fn give<T: Axis, P: Axis>(
    heap: Global,
    sheet: &mut Sheet<T, P>,
    call: &Call,
) -> Result<Answer, AllocError>
    ensures { Answered sheet.old (request call.now) result sheet.new }
{
    let answer = match call {
        Call::Load {
            span,
            platform,
            stays,
        } => sheet.load(*span, *platform, stays).map(|()| Told::Done),
        Call::Bind { letter, bound } => sheet.bind(*letter, *bound).map(|()| Told::Done),
        Call::Rule { i, j, word } => sheet.rule(*i, *j, *word).map(|()| Told::Done),
        Call::Withdraw => sheet.withdraw().map(|()| Told::Done),
        Call::Ask { letter, p, q } => sheet.ask(*letter, *p, *q).map(Told::Difference),
        Call::Settle { places, trials } => settle_within(heap, sheet, *places, *trials)?,
    };
    Ok(answer)
}

// Gives the calls to the sheet in their order, and puts the answers behind those that are given. Where memory runs out, what was answered
// is true, and the calls after it were not made.
pub fn run<T: Axis, P: Axis>(
    heap: Global,
    sheet: &mut Sheet<T, P>,
    calls: &[Call],
    given: &mut Vec<Answer>,
) -> Result<(), AllocError>
    ensures run { RanMore sheet.old calls.now given.old.items given.new.items sheet.new }
    ensures count { length given.new.items ≤ length given.old.items + length calls.now }
    ensures all { OnOk result (length given.new.items ≡ length given.old.items + length calls.now) }
{
    given.reserve(calls.len())?;
    for call in calls {
        let answer = give(heap, sheet, call)?;
        given.push_reserved(answer);
    }
    Ok(())
}
