// How far a sheet reaches.
ghost use Rattle.std.specs.Prelude.{◌≡◌, ◌≤◌, IfOk};
ghost use Rattle.journal.specs.Asks.{Answered, GoodExtents, extents_asks};

use faults::SheetFault;

// The steps of the span, and the metres of the platform.
#[derive(Clone, Copy)]
pub struct Extents {
    pub span: u16,
    pub platform: u16,
    ghost good: { GoodExtents span platform },
}

impl Extents {
    // A new sheet's.
    pub(crate) const LEAST: Extents = Extents {
        span: 1,
        platform: 1,
    };

    pub(crate) fn of(span: u16, platform: u16) -> Result<Extents, SheetFault>
        ensures asked { Answered (extents_asks span platform) result }
        ensures given { IfOk result (λ e. (e.span ≡ span) × (e.platform ≡ platform)) }
    {
        if !(1..=2880).contains(&span) || !(1..=1000).contains(&platform) {
            return Err(SheetFault::Extents);
        }
        Ok(Extents { span, platform })
    }
}
