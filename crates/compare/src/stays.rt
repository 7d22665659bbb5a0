// The stays of a load: good ones, and spoiled ones.
use crate::manner::Manner;
use journal::{Stay, Window};
use random::Random;

// From 1 to the most, which counts as 1 where it is 0.
fn one_to(random: &mut Random, most: u16) -> u16 {
    random.up_to(most.saturating_sub(1)).saturating_add(1)
}

// A stay that fits a sheet of this span and platform.
pub fn fitting(random: &mut Random, manner: &Manner, span: u16, platform: u16) -> Stay {
    let steps = one_to(random, manner.steps.min(span));
    let circuit = steps.saturating_mul(30).saturating_sub(random.up_to(29));
    let lead = random.up_to(circuit);
    Stay {
        circuit,
        lead,
        dwell: random.up_to(circuit.saturating_sub(lead)),
        metres: one_to(random, manner.metres.min(platform)),
        window: window_around(random, steps, span),
    }
}

fn window_around(random: &mut Random, steps: u16, span: u16) -> Option<Window> {
    let spare = span.saturating_sub(steps);
    let from = random.up_to(spare);
    let until = span.saturating_sub(random.up_to(spare.saturating_sub(from)));
    random.chance(50).then(|| Window { from, until })
}

// The stay with one of its numbers past what it may be.
pub fn spoiled(random: &mut Random, stay: Stay, span: u16, platform: u16) -> Stay {
    let mut bad = stay;
    match random.up_to(7) {
        0 => bad.circuit = 0,
        1 => bad.circuit = 43_201,
        2 => bad.dwell = stay.circuit.saturating_sub(stay.lead).saturating_add(1),
        3 => bad.lead = u16::MAX,
        4 => bad.metres = 0,
        5 => bad.metres = platform.saturating_add(1),
        6 => {
            bad.window = Some(Window {
                from: span,
                until: span,
            });
        },
        _ => {
            bad.window = Some(Window {
                from: 0,
                until: span.saturating_add(1),
            });
        },
    }
    bad
}
