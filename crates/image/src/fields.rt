// What has a fixed place in an image, as bytes: a number, a window, a stay, an entry, and lists of them.
ghost use Rattle.std.specs.Prelude.{◌≡◌, ℕ, ◌<◌, List, ◌∷◌, length, flat_map};
ghost use Rattle.image.specs.Bytes.{entry_bytes, stay_bytes, stay_fields, two, window_bytes};
ghost use Rattle.page.specs.Pages.{put};

use boxes::Entry;
use journal::{Stay, Window};
use page::Page;

pub trait Field {
    ghost bytes: { Self → List ℕ };

    fn put_on(&self, page: &mut Page<'_>)
        ensures { page.new ≡ put page.old (bytes self.now) };
}

// The high byte comes first.
impl Field for u16 {
    ghost bytes = { two };

    fn put_on(&self, page: &mut Page<'_>) {
        page.bytes(&self.to_be_bytes());
    }
}

impl Field for Option<Window> {
    ghost bytes = { window_bytes };

    fn put_on(&self, page: &mut Page<'_>) {
        if let Some(window) = self {
            window.from.put_on(page);
            window.until.put_on(page);
        }
    }
}

impl Field for Stay {
    ghost bytes = { stay_bytes };

    fn put_on(&self, page: &mut Page<'_>) {
        page.byte(count_of(*self));
        self.circuit.put_on(page);
        self.lead.put_on(page);
        self.dwell.put_on(page);
        self.metres.put_on(page);
        self.window.put_on(page);
    }
}

// How many bytes of a stay follow the one that counts them.
fn count_of(stay: Stay) -> u8
    ensures { result ≡ length (stay_fields stay) }
{
    stay.window.map_or(8, |_| 12)
}

impl Field for Entry {
    ghost bytes = { entry_bytes };

    // The number of the bound is written in two's complement.
    fn put_on(&self, page: &mut Page<'_>) {
        page.byte(char::from(self.direction) as u8);
        page.byte(self.bound.p);
        page.byte(self.bound.q);
        self.bound.d.cast_unsigned().put_on(page);
    }
}

// Their number in one byte, and each of them, one after the other.
pub fn put_list<T: Field>(page: &mut Page<'_>, items: &[T])
    requires { length items.now < 256 }
    ensures { page.new ≡ put page.old (length items.now ∷ flat_map T.bytes items.now) }
{
    page.byte(items.len() as u8);
    for item in items {
        item.put_on(page);
    }
}
