// The lines of each kind of report.
ghost use Rattle.std.specs.Prelude.{◌≡◌, ◌+◌, ◌^◌, ◌<◌, [], ◌∷◌, ◌++◌};
ghost use Rattle.page.specs.Pages.{put};
ghost use Rattle.text.specs.Texts.{fault_text, layer_word, plan_head, plan_text, stay_line, stay_lines};

use boxes::Place;
use faults::{ImageFault, Layer};
use itoa::{Buffer, Integer};
use page::Page;

pub fn put_plan(page: &mut Page<'_>, places: &[Place])
    ensures { page.new ≡ put page.old (plan_text places.now) }
{
    put_plan_head(page, places.len());
    put_stays(page, places);
}

fn put_plan_head(page: &mut Page<'_>, stays: usize)
    ensures { page.new ≡ put page.old (plan_head stays) }
{
    page.bytes(b"plan ");
    put_number(page, stays, b'\n');
}

// Kept a loop here: an image's fields are put by one too, but a line has its number, and one function for both would be no shorter.
fn put_stays(page: &mut Page<'_>, places: &[Place])
    ensures { page.new ≡ put page.old (stay_lines 1 places.now) }
{
    for (i, place) in places.iter().enumerate() {
        put_stay(page, i, *place);
    }
}

// Stays are numbered from 1.
fn put_stay(page: &mut Page<'_>, index: usize, place: Place)
    requires { index + 1 < 2 ^ 64 }
    ensures { page.new ≡ put page.old (stay_line (index + 1) place) }
{
    put_number(page, index + 1, b' ');
    put_number(page, place.step, b' ');
    put_number(page, place.metre, b'\n');
}

pub fn put_fault(page: &mut Page<'_>, fault: ImageFault)
    ensures { page.new ≡ put page.old (fault_text fault) }
{
    page.bytes(b"fault ");
    put_number(page, fault.cause.number(), b' ');
    put_layer(page, fault.cause.layer());
    page.byte(b' ');
    put_number(page, fault.offset, b'\n');
}

// Kept a match: what is displayed is promised only where a write succeeds, and these words are put always.
fn put_layer(page: &mut Page<'_>, layer: Layer)
    ensures { page.new ≡ put page.old (layer_word layer) }
{
    match layer {
        Layer::Axis => page.bytes(b"axis"),
        Layer::Sheet => page.bytes(b"sheet"),
        Layer::Image => page.bytes(b"image"),
    }
}

// The number in decimal, and the byte that ends it.
fn put_number<N: Integer>(page: &mut Page<'_>, n: N, mark: u8)
    ensures { page.new ≡ put page.old (N.text n ++ mark ∷ []) }
{
    let mut digits = Buffer::new();
    page.bytes(digits.format(n).as_bytes());
    page.byte(mark);
}
