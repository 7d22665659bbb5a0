// What the calls of a round are like.
ghost use Rattle.std.specs.Prelude.{◌≤◌};

use random::Random;

#[derive(Clone, Copy)]
pub struct Manner {
    pub lines: u8,
    // how far a range reaches from the hidden placement at most
    pub reach: u16,
    // how much longer than the hidden placement needs it a bound may be
    pub slack: u16,
    // of a hundred changes so many take a bound back
    pub backs: u16,
    // of a hundred bounds so many break the hidden placement
    pub daring: u16,
    ghost few: { lines ≤ 12 },
    ghost far: { reach ≤ 2880 },
    ghost loose: { slack ≤ 1000 },
}

impl Manner {
    // A new axis has no lines.
    pub fn first() -> Manner {
        Manner {
            lines: 0,
            reach: 0,
            slack: 100,
            backs: 30,
            daring: 30,
        }
    }

    // Rounds with few backs and little daring fill the axis, and the others come to rings and to no bound at all.
    pub fn draw(random: &mut Random) -> Manner {
        let lines = random.below(13) as u8;
        let reach = random.below(2881);
        let widest = random.below(1000) + 1;
        let slack = random.below(widest);
        let backs = random.below(60);
        let daring = random.below(60);
        Manner {
            lines,
            reach,
            slack,
            backs,
            daring,
        }
    }
}
