// What the fields of an image tell.
ghost use Rattle.std.specs.Prelude.{◌≡◌, length};

use journal::Stay;

// The entries are from the offset on to the end of the image, five bytes each.
// Kept as slots and their count: there is one for as many stays as a byte can count, so that reading needs no memory.
#[derive(Drop)]
pub struct Fields {
    pub span: u16,
    pub platform: u16,
    pub(crate) slots: [Stay; 255],
    pub(crate) count: u8,
    pub entries: u8,
    pub offset: usize,
    ghost full: { length slots ≡ 255 },
}
