// What a plan is, by the definitions.
use crate::buffers::{PLACES, TRIALS};
use crate::lines::{LINES, Lines, Values, at, set};
use crate::plain::Plain;
use crate::solver::Task;
use boxes::{Direction, Place};
use stack::{Trial, Word};

// Windows, platform and entries are kept, no two stays overlap, each pair has a word that holds, and the places are the least under the words.
pub fn is_plan(plain: &Plain, places: &[Place; PLACES], trials: &[Trial; TRIALS]) -> bool {
    let count = plain.stays.len();
    let steps = values_of(count, places, Direction::Time);
    let metres = values_of(count, places, Direction::Platform);
    let mut task = Task::of(plain);
    task.time.hold(&steps)
        && task.platform.hold(&metres)
        && (1..LINES).all(|stay| task.is_free(&steps, &metres, stay))
        && add_words(&mut task, count, &trials[..], &steps, &metres)
        && is_least(&task.time, &steps)
        && is_least(&task.platform, &metres)
}

// The value of each stay's line, from the places.
fn values_of(count: usize, places: &[Place; PLACES], direction: Direction) -> Values {
    let mut values = [0; LINES];
    for (line, place) in (1..LINES).zip(places.iter().take(count)) {
        let value = match direction {
            Direction::Time => place.step,
            Direction::Platform => place.metre,
        };
        set(&mut values, line, i32::from(value));
    }
    values
}

// Is there a word for each pair in its order, and does it hold? Its bound is then added.
fn add_words(
    task: &mut Task,
    count: usize,
    trials: &[Trial],
    steps: &Values,
    metres: &Values,
) -> bool {
    let mut pair = (1, 2);
    for trial in trials.iter() {
        if pair.0 >= count {
            return true;
        }
        if (usize::from(trial.i), usize::from(trial.j)) != pair
            || !add_word(task, *trial, steps, metres)
        {
            return false;
        }
        pair = next_pair(pair, count);
    }
    pair.0 >= count
}

fn next_pair(pair: (usize, usize), count: usize) -> (usize, usize) {
    let (i, j) = pair;
    if j < count {
        (i, j.saturating_add(1))
    } else {
        (i.saturating_add(1), i.saturating_add(2))
    }
}

fn add_word(task: &mut Task, trial: Trial, steps: &Values, metres: &Values) -> bool {
    let i = usize::from(trial.i);
    let j = usize::from(trial.j);
    match trial.word {
        Some(Word::Before) => add_order(&mut task.time, i, j, steps),
        Some(Word::After) => add_order(&mut task.time, j, i, steps),
        Some(Word::Nearer) => add_order(&mut task.platform, i, j, metres),
        Some(Word::Farther) => add_order(&mut task.platform, j, i, metres),
        None => false,
    }
}

// Line i ends where line j begins or before.
fn add_order(lines: &mut Lines, i: usize, j: usize, values: &Values) -> bool {
    let holds = !lines.begins_in(values, j, i);
    lines.limit(i, j, lines.extent(i).saturating_neg());
    holds
}

// The least value of a line is as far below line 0 as line 0 may lie beyond it.
fn is_least(lines: &Lines, values: &Values) -> bool {
    values.iter().enumerate().all(|(line, value)| at(&lines.largest_from(line), 0).saturating_neg()
        == *value)
}
