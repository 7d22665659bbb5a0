// A second solver: each stay in turn at every step and metre that it may have, until all have a place.
use crate::lines::{LINES, Lines, Values, set};
use crate::plain::Plain;
use boxes::Direction;

#[derive(Drop)]
pub struct Task {
    pub time: Lines,
    pub platform: Lines,
}

impl Task {
    pub fn of(plain: &Plain) -> Task {
        Task {
            time: Lines::of(plain, Direction::Time),
            platform: Lines::of(plain, Direction::Platform),
        }
    }

    // Do the stays i and j hold a common step and a common metre?
    pub fn overlap(&self, steps: &Values, metres: &Values, i: usize, j: usize) -> bool {
        self.time.meet(steps, i, j) && self.platform.meet(metres, i, j)
    }

    // Does the stay keep its bounds, and free of the stays before it?
    fn fits(&self, steps: &Values, metres: &Values, stay: usize) -> bool {
        self.time.fits(steps, stay)
            && self.platform.fits(metres, stay)
            && self.is_free(steps, metres, stay)
    }

    // Is the stay free of those before it?
    pub fn is_free(&self, steps: &Values, metres: &Values, stay: usize) -> bool {
        (1..stay).all(|other| !self.overlap(steps, metres, stay, other))
    }
}

pub fn has_plan(plain: &Plain) -> bool {
    seek(&Task::of(plain), &mut [0; LINES], &mut [0; LINES], 13)
}

// A place for each of the last lines, so many as are left, beside the places of those before.
fn seek(task: &Task, steps: &mut Values, metres: &mut Values, left: u8) -> bool {
    if left == 0 {
        return true;
    }
    let line = LINES.saturating_sub(usize::from(left));
    let across = task.time.room(line);
    let along = task.platform.room(line);
    let wide = along.values.max(1);
    for cell in 0..across.values.saturating_mul(wide) {
        set(
            steps,
            line,
            i32::from(across.low.saturating_add(cell / wide)),
        );
        set(
            metres,
            line,
            i32::from(along.low.saturating_add(cell % wide)),
        );
        if task.fits(steps, metres, line) && seek(task, steps, metres, left - 1) {
            return true;
        }
    }
    false
}
