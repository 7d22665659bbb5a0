// The list of trials: every pair of boxes, in order.
ghost use Rattle.std.specs.Prelude.{◌≡◌, ◌+◌, ◌-◌, ◌≤◌, map, length, replicate};
ghost use Rattle.boxes.specs.Order.{pairs, pairs_from, row as row_of, trial_order, untried, no_trial};

use stack::Trial;

// The most boxes that are placed together, and how many pairs they make.
pub const MOST_BOXES: usize = 12;

pub const MOST_PAIRS: usize = MOST_BOXES * (MOST_BOXES - 1) / 2;

// How many pairs n boxes make.
// Kept as a premise here and below: a type for a number up to twelve would be made at each call and opened in it, and none hands it on.
pub fn pair_count(n: u8) -> usize
    requires { n ≤ 12 }
    ensures pairs { result ≡ pairs n }
    ensures few { result ≤ MOST_PAIRS }
{
    let boxes = usize::from(n);
    boxes * boxes.saturating_sub(1) / 2
}

// Writes the pairs of n boxes, each without a word.
pub fn lay_out(n: u8, trials: &mut [Trial])
    requires few { n ≤ 12 }
    requires room { length trials.old ≡ pairs n }
    ensures { trials.new ≡ map untried (trial_order n) }
{
    lay_rows(1, n, trials);
}

// Writes the pairs of box i with the boxes after it, and then those of the boxes after it.
// Kept a recursion, as the order is defined: a loop would have to keep how much of the buffer is left, which the parts tell by themselves.
fn lay_rows(i: u8, n: u8, trials: &mut [Trial])
    requires few { n ≤ 12 }
    requires room { length trials.old ≡ length (pairs_from i (n - i)) }
    ensures { trials.new ≡ map untried (pairs_from i (n - i)) }
{
    if i >= n {
        return;
    }
    let (row, later) = trials.split_at_mut(usize::from(n - i));
    lay_row(i, row);
    lay_rows(i + 1, n, later);
}

// Writes the pairs of box i with the boxes after it.
fn lay_row(i: u8, row: &mut [Trial])
    requires few { i + length row.old ≤ 12 }
    ensures { row.new ≡ map untried (row_of i (length row.old)) }
{
    for (k, trial) in row.iter_mut().enumerate() {
        let j = i + 1 + k as u8;
        *trial = Trial { i, j, word: None };
    }
}

// Every record blank.
pub fn clear(trials: &mut [Trial])
    ensures { trials.new ≡ replicate (length trials.old) no_trial }
{
    trials.fill(Trial::default());
}
