// What a part of an image tells.
ghost use Rattle.std.specs.Prelude.{◌≡◌, ◌+◌, ◌≤◌, ◌⊎◌, length};
ghost use Rattle.walk.specs.Fields.{number_at};
ghost use Rattle.walk.specs.Stays.{stay_in, window_in};

use journal::{Stay, Window};

// The number in two bytes, the high one first.
pub(crate) fn number_of(part: &[u8], at: usize) -> u16
    requires { at + 2 ≤ length part.now }
    ensures { result ≡ number_at part.now at }
{
    u16::from_be_bytes([part[at], part[at + 1]])
}

// The stay of these bytes, the last four of which are a window where there are twelve.
pub fn stay_of(part: &[u8]) -> Stay
    requires { (length part.now ≡ 8) ⊎ (length part.now ≡ 12) }
    ensures { result ≡ stay_in part.now }
{
    Stay {
        circuit: number_of(part, 0),
        lead: number_of(part, 2),
        dwell: number_of(part, 4),
        metres: number_of(part, 6),
        window: window_of(part),
    }
}

fn window_of(part: &[u8]) -> Option<Window>
    ensures { result ≡ window_in part.now }
{
    if part.len() != 12 {
        return None;
    }
    Some(Window {
        from: number_of(part, 8),
        until: number_of(part, 10),
    })
}
