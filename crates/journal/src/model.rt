// A stay, as the sheet is given it.
ghost use Rattle.std.specs.Prelude.{◌≡◌};
ghost use Rattle.journal.specs.Stays.{lasts, opens, closes, size_of};

use boxes::Size;

// The stay begins at step `from` or later, and is gone when step `until` begins.
#[derive(Clone, Copy, PartialEq, Eq, Debug)]
pub struct Window {
    pub from: u16,
    pub until: u16,
}

// Seconds from the occupation of the track circuit to its clearing, to the opening of the doors, and from that to their shutting.
#[derive(Clone, Copy, PartialEq, Eq, Debug)]
pub struct Stay {
    pub circuit: u16,
    pub lead: u16,
    pub dwell: u16,
    pub metres: u16,
    pub window: Option<Window>,
}

impl Stay {
    // A step is thirty seconds, and a begun step counts whole.
    pub fn steps(self) -> u16
        ensures { result ≡ lasts self }
    {
        self.circuit.div_ceil(30)
    }

    // The first step at which it may begin.
    pub fn opening(self) -> u16
        ensures { result ≡ opens self.window }
    {
        self.window.map_or(0, |window| window.from)
    }

    // The step by which it is gone.
    pub fn closing(self, span: u16) -> u16
        ensures { result ≡ closes span self.window }
    {
        self.window.map_or(span, |window| window.until)
    }

    // What it takes up on the sheet.
    pub fn size(self) -> Size
        ensures { result ≡ size_of self }
    {
        Size {
            steps: self.steps(),
            metres: self.metres,
        }
    }
}
