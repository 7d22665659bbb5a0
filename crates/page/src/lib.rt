// A page on lent bytes, filled from the front.
#![tactic(auto, unfolding(crate::specs::Pages::put))]

ghost use Rattle.std.specs.Prelude.{◌≡◌, ℕ, min, List, length};
ghost use Rattle.page.specs.Fills.{FillsOr, Puts};
ghost use Rattle.page.specs.Pages.{most, put, put_one};

// What finds no place on the page is counted all the same, so a page on no bytes tells how many there would be.
// Kept as a slice and a count: the bytes are lent, and the count goes past their end.
#[derive(Drop)]
pub struct Page<'a> {
    bytes: &'a mut [u8],
    len: usize,
}

impl<'a> Page<'a> {
    pub fn new(bytes: &'a mut [u8]) -> Page<'a>
        ensures bytes { result.bytes.now ≡ bytes.old }
        ensures len { result.len ≡ 0 }
        ensures same { result.bytes.ghost_name ≡ bytes.entry.ghost_name }
    {
        Page { bytes, len: 0 }
    }

    // How many bytes were put, those past the end too.
    pub fn len(&self) -> usize
        ensures { result ≡ self.now.len }
    {
        self.len
    }

    // A count past the largest usize stays there: no buffer is that long.
    #[tactic(auto, unfolding(crate::specs::Pages::put_one))]
    pub fn byte(&mut self, b: u8)
        ensures { self.new ≡ put_one self.old b }
    {
        if self.len < self.bytes.len() {
            self.bytes[self.len] = b;
        }
        self.len = self.len.saturating_add(1);
    }

    pub fn bytes(&mut self, bytes: &[u8])
        ensures { self.new ≡ put self.old bytes.now }
    {
        for b in bytes {
            self.byte(*b);
        }
    }
}

// How many bytes the call puts on a page.
pub fn count<F: Fn(&mut Page<'_>)>(write: &F) -> usize
    requires { F.IsAlwaysCallable write.now }
    ensures { (told : List ℕ) → Puts F.Fn write.now told → result ≡ min (length told) most }
{
    let mut page = Page::new(&mut []);
    write(&mut page);
    page.len()
}

// What the call puts on a page fills the front of the buffer, and the answer is its length; a buffer too short is left as it was, and the answer is why.
pub fn fill<E: Copy, F: Fn(&mut Page<'_>)>(buffer: &mut [u8], why: E, write: F) -> Result<usize, E>
    requires { F.IsAlwaysCallable write }
    ensures { (told : List ℕ) → Puts F.Fn write told → FillsOr why told buffer.old buffer.new result }
{
    let needed = count(&write);
    fill_counted(buffer, needed, why, write)
}

// The same of a call whose bytes are counted already.
pub fn fill_counted<E: Copy, F: Fn(&mut Page<'_>)>(
    buffer: &mut [u8],
    needed: usize,
    why: E,
    write: F,
) -> Result<usize, E>
    requires { F.IsAlwaysCallable write }
    ensures { (told : List ℕ) → Puts F.Fn write told → needed ≡ min (length told) most → FillsOr why told buffer.old buffer.new result }
{
    if needed > buffer.len() {
        return Err(why);
    }
    let mut page = Page::new(buffer);
    write(&mut page);
    Ok(needed)
}
