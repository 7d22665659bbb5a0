// What the sheets and the calls of a round are like.
use random::Random;

#[derive(Clone, Copy)]
pub struct Manner {
    // the most of a sheet and of each of its stays
    pub span: u16,
    pub platform: u16,
    pub stays: u16,
    pub steps: u16,
    pub metres: u16,
    // how far a bound is from 0 at most, above and below
    pub slack: u16,
    pub tight: u16,
    // of a hundred changes so many take an entry back
    pub withdraws: u16,
}

impl Manner {
    // So small that a plan can be sought at every step and metre.
    pub fn small(random: &mut Random) -> Manner {
        let stays = random.up_to(2).saturating_add(3);
        let steps = random.up_to(3).saturating_add(1);
        let metres = random.up_to(4).saturating_add(2);
        let slack = random.up_to(6).saturating_add(1);
        let tight = random.up_to(6);
        let withdraws = random.up_to(45);
        Manner {
            span: 5,
            platform: 7,
            stays,
            steps,
            metres,
            slack,
            tight,
            withdraws,
        }
    }

    // As large as a sheet may be.
    pub fn wide(random: &mut Random) -> Manner {
        let slack = random.up_to(3000).saturating_add(1);
        let tight = random.up_to(1500);
        let withdraws = random.up_to(45);
        Manner {
            span: 2879,
            platform: 999,
            stays: 12,
            steps: 1440,
            metres: 500,
            slack,
            tight,
            withdraws,
        }
    }
}
