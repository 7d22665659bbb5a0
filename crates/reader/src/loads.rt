// The load of an image.
ghost use Rattle.std.specs.Prelude.{◌≡◌, ◌+◌, ◌*◌, ◌<◌, ◌≤◌, length};
ghost use Rattle.walk.specs.Fields.{byte_at};
ghost use Rattle.reader.specs.Located.{stay_offset, load_offset};

use faults::SheetFault;

fn byte_of(image: &[u8], at: usize) -> u8
    ensures { result ≡ byte_at image.now at }
{
    image.get(at).copied().unwrap_or(0)
}

// Where the stay of this number begins; the numbers are from 1.
fn stay_offset(image: &[u8], number: u8) -> usize
    ensures { result ≡ stay_offset image.now number }
{
    let mut at = 8;
    for _ in 1..number {
        at += 1 + usize::from(byte_of(image, at));
    }
    at
}

// At which byte a load is refused.
pub fn load_offset(image: &[u8], fault: SheetFault) -> usize
    ensures { result ≡ load_offset image.now fault }
{
    match fault {
        SheetFault::Extents => 3,
        SheetFault::Stays => 7,
        SheetFault::Circuit(n)
        | SheetFault::Doors(n)
        | SheetFault::Length(n)
        | SheetFault::Window(n) => stay_offset(image, n),
        _ => 0,
    }
}
