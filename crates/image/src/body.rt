// What an image tells of a sheet.
ghost use Rattle.std.specs.Prelude.{◌≡◌, ◌≤◌, length};
ghost use Rattle.journal.specs.Made.{Made};
ghost use Rattle.page.specs.Pages.{put};

use crate::fields::{Field, put_list};
use axis::Axis;
use boxes::Entry;
use journal::{Extents, Stay};
use page::Page;
use sheet::Sheet;

// All that the length of an image counts.
#[derive(Clone, Copy)]
pub struct Body<'a> {
    extents: Extents,
    stays: &'a [Stay],
    entries: &'a [Entry],
    ghost few_stays: { length stays.now ≤ 12 },
    ghost few_entries: { length entries.now ≤ 48 },
}

impl<'a> Body<'a> {
    ghost use Rattle.image.specs.Bytes.{body_bytes};
    ghost use Rattle.image.specs.Bodies.{told};

    pub fn of<T: Axis, P: Axis>(sheet: &'a Sheet<T, P>) -> Body<'a>
        ensures told { told result ≡ sheet.now }
        ensures made { Made sheet.now }
    {
        Body {
            extents: sheet.extents(),
            stays: sheet.stays(),
            entries: sheet.entries(),
        }
    }

    // 403 where the sheet is full.
    pub fn len(&self) -> u16
        ensures { result ≡ length (body_bytes (told self.now)) }
    {
        page::count(&|page| self.put_on(page)) as u16
    }
}

impl Field for Body<'_> {
    ghost use Rattle.image.specs.Bytes.{body_bytes};
    ghost use Rattle.image.specs.Bodies.{told};

    ghost bytes = { λ body. body_bytes (told body) };

    // The version comes first.
    fn put_on(&self, page: &mut Page<'_>) {
        page.byte(1);
        self.extents.span.put_on(page);
        self.extents.platform.put_on(page);
        put_list(page, self.stays);
        put_list(page, self.entries);
    }
}
