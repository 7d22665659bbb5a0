// The descent: a word for one pair after the other, going down and backing up.
ghost use Rattle.trials.specs.Boards.{Open, Ready, RefutedAt};
ghost use Rattle.packing.specs.Descent.{Explored, Unarranged};

use axis::Axis;
use stack::Word;
use trials::{Board, words};

// A place for every box and a word for every pair that has none yet, or nothing.
// Kept as a premise of each call: on the way up from a plan the bounds go while the words stay, so it is no invariant of a board.
#[cycle(attempt_descend_try_words)]
pub(crate) fn descend<T: Axis, P: Axis>(board: &mut Board<'_, '_, T, P>) -> bool
    requires ready { Ready T.Axis.MOST P.Axis.MOST board.old }
    ensures { Explored (Unarranged board.old) board.old board.new result }
{
    let Some(k) = board.pick() else {
        board.place_all();
        return true;
    };
    match board.implied(k) {
        Some(word) => attempt(board, k, word),
        None => try_words(board, k),
    }
}

// The four words for trial k, one after the other.
#[cycle(attempt_descend_try_words)]
fn try_words<T: Axis, P: Axis>(board: &mut Board<'_, '_, T, P>, k: usize) -> bool
    requires ready { Ready T.Axis.MOST P.Axis.MOST board.old }
    requires open { Open board.old k }
    ensures { Explored (Unarranged board.old) board.old board.new result }
{
    for word in words() {
        if attempt(board, k, word) {
            return true;
        }
    }
    false
}

// One word for trial k, and what is below it.
#[cycle(attempt_descend_try_words)]
fn attempt<T: Axis, P: Axis>(board: &mut Board<'_, '_, T, P>, k: usize, word: Word) -> bool
    requires ready { Ready T.Axis.MOST P.Axis.MOST board.old }
    requires open { Open board.old k }
    ensures { Explored (RefutedAt board.old k word) board.old board.new result }
{
    if !board.enter(k, word) {
        return false;
    }
    if descend(board) {
        let _ = board.back_up();
        return true;
    }
    board.reopen(k);
    let _ = board.back_up();
    false
}
