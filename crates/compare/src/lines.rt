// One axis of the plain model: where each line may lie, and how far one may lie beyond another.
use crate::plain::Plain;
use axis::Bound;
use boxes::Direction;
use journal::Stay;
use std::array;

// The lines that an axis has at most, with line 0.
pub const LINES: usize = 13;

// A value for each line; a line that is not there has 0.
pub type Values = [i32; LINES];

// More than any difference.
const FREE: i32 = 1_000_000;

pub fn at(values: &Values, line: usize) -> i32 {
    values.get(line).copied().unwrap_or(0)
}

pub fn set(values: &mut Values, line: usize, value: i32) {
    if let Some(held) = values.get_mut(line) {
        *held = value;
    }
}

// Where a line may lie: at the low or at one of the values after it, so many in all.
#[derive(Clone, Copy)]
pub struct Room {
    pub low: u16,
    pub values: u16,
    pub extent: u16,
}

impl Room {
    // Of a line that is not there, and of line 0.
    const POINT: Room = Room {
        low: 0,
        values: 1,
        extent: 0,
    };

    fn of(plain: &Plain, direction: Direction, stay: Stay) -> Room {
        let (from, until, extent) = match (direction, stay.window) {
            (Direction::Time, Some(window)) => (window.from, window.until, lasts(stay)),
            (Direction::Time, None) => (0, plain.span, lasts(stay)),
            (Direction::Platform, _) => (0, plain.platform, stay.metres),
        };
        Room {
            low: from,
            values: until
                .saturating_sub(extent)
                .saturating_sub(from)
                .saturating_add(1),
            extent,
        }
    }
}

// A begun half minute counts whole.
pub fn lasts(stay: Stay) -> u16 {
    stay.circuit / 30 + u16::from(stay.circuit % 30 > 0)
}

// The most that line p lies beyond line q stands in row p at place q.
#[derive(Clone, Copy)]
pub struct Lines {
    rooms: [Room; LINES],
    most: [Values; LINES],
}

impl Lines {
    // All lines at 0.
    fn none() -> Lines {
        let row = |p| array::from_fn(|q| if (p == 0) != (q == 0) { 0 } else { FREE });
        Lines {
            rooms: [Room::POINT; LINES],
            most: array::from_fn(row),
        }
    }

    pub fn of(plain: &Plain, direction: Direction) -> Lines {
        let mut lines = Lines::none();
        for (line, stay) in (1..LINES).zip(plain.stays.iter()) {
            lines.add_stay(line, Room::of(plain, direction, *stay));
        }
        lines.add_entries(plain, direction);
        lines
    }

    fn add_stay(&mut self, line: usize, room: Room) {
        let low = i32::from(room.low);
        if let Some(held) = self.rooms.get_mut(line) {
            *held = room;
        }
        self.free(line);
        self.limit(0, line, -low);
        self.limit(
            line,
            0,
            low.saturating_add(i32::from(room.values)).saturating_sub(1),
        );
    }

    fn add_entries(&mut self, plain: &Plain, direction: Direction) {
        for entry in plain.entries.iter() {
            if entry.direction == direction {
                self.add_bound(entry.bound);
            }
        }
    }

    pub fn add_bound(&mut self, bound: Bound) {
        self.limit(
            usize::from(bound.p),
            usize::from(bound.q),
            i32::from(bound.d),
        );
    }

    // The line is held at 0 no more.
    fn free(&mut self, line: usize) {
        self.write(0, line, FREE);
        self.write(line, 0, FREE);
    }

    pub fn limit(&mut self, p: usize, q: usize, most: i32) {
        let least = self.most(p, q).min(most);
        self.write(p, q, least);
    }

    fn write(&mut self, p: usize, q: usize, most: i32) {
        if let Some(row) = self.most.get_mut(p) {
            set(row, q, most);
        }
    }

    fn most(&self, p: usize, q: usize) -> i32 {
        let most = self.most.get(p).and_then(|row| row.get(q));
        most.copied().unwrap_or(FREE)
    }

    pub fn room(&self, line: usize) -> Room {
        self.rooms.get(line).copied().unwrap_or(Room::POINT)
    }

    pub fn extent(&self, line: usize) -> i32 {
        i32::from(self.room(line).extent)
    }

    // Does the line keep its bounds with itself and those before it?
    pub fn fits(&self, values: &Values, line: usize) -> bool {
        let value = at(values, line);
        values.iter().enumerate().take(line.saturating_add(1)).all(|(other, held)| {
            value.saturating_sub(*held) <= self.most(line, other)
                && held.saturating_sub(value) <= self.most(other, line)
        })
    }

    // Do all lines keep their rooms and bounds?
    pub fn hold(&self, values: &Values) -> bool {
        values
            .iter()
            .zip(self.most.iter())
            .all(|(value, row)| keeps(*value, row, values))
    }

    // Do the lines i and j hold a common step, or a common metre?
    pub fn meet(&self, values: &Values, i: usize, j: usize) -> bool {
        self.begins_in(values, i, j) && self.begins_in(values, j, i)
    }

    // Does line i begin before line j ends?
    pub fn begins_in(&self, values: &Values, i: usize, j: usize) -> bool {
        at(values, i) < at(values, j).saturating_add(self.extent(j))
    }

    // The largest difference of each line less line q, by relaxing all bounds as often as there are lines.
    pub fn largest_from(&self, q: usize) -> Values {
        let mut largest = [FREE; LINES];
        set(&mut largest, q, 0);
        for _ in 0..LINES {
            self.relax(&mut largest);
        }
        largest
    }

    fn relax(&self, largest: &mut Values) {
        let before = *largest;
        for (held, row) in largest.iter_mut().zip(self.most.iter()) {
            *held = over(row, &before).min(*held);
        }
    }

    // Lines as far from line 0 as they may be keep all bounds, unless none can.
    pub fn has_placement(&self) -> bool {
        self.hold(&self.largest_from(0))
    }
}

fn keeps(value: i32, row: &Values, values: &Values) -> bool {
    row.iter()
        .zip(values.iter())
        .all(|(most, other)| value.saturating_sub(*other) <= *most)
}

fn over(row: &Values, before: &Values) -> i32 {
    row.iter()
        .zip(before.iter())
        .map(|(most, way)| way.saturating_add(*most))
        .min()
        .unwrap_or(FREE)
}
