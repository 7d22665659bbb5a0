// Two days of twelve trains on a platform of 200 metres, in a span of 240 steps.
use crate::bench::Bench;
use crate::packings::Stay;
use boxes::Size;

// So many steps and metres, the first step, and the step by which the train is gone.
fn train(steps: u16, metres: u16, first: u16, gone: u16) -> Stay {
    Stay {
        size: Size { steps, metres },
        first,
        gone,
    }
}

// Five in the morning, seven in the evening.
fn day() -> [Stay; 12] {
    [
        train(12, 115, 13, 45),
        train(10, 75, 16, 39),
        train(9, 55, 17, 49),
        train(4, 55, 22, 50),
        train(10, 115, 30, 62),
        train(10, 70, 140, 169),
        train(6, 95, 141, 154),
        train(3, 130, 141, 157),
        train(7, 85, 144, 163),
        train(4, 75, 148, 161),
        train(9, 95, 149, 161),
        train(6, 80, 153, 163),
    ]
}

// The day, and the same where the sixth train has to be gone two steps earlier.
pub fn platform_days(bench: &mut Bench<'_>) -> anyhow::Result<()> {
    let mut stays = day();
    bench.decide("platform day", &stays, 200)?;
    stays[5].gone = 167;
    bench.decide("narrower platform day", &stays, 200)
}
