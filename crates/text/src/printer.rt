// A report printed into a buffer that is long enough, or refused before a byte is written.
ghost use Rattle.text.specs.Prints.{Printed};
ghost use Rattle.text.specs.Texts.{fault_text, no_plan_text, plan_text};

use crate::fault::TextFault;
use crate::lines::{put_fault, put_plan};
use boxes::Place;
use faults::ImageFault;

// The text fills the front of the buffer, and the answer is its length. The stays are numbered in the order of their places.
pub fn print_plan(places: &[Place], buffer: &mut [u8]) -> Result<usize, TextFault>
    ensures { Printed (plan_text places.now) buffer.old buffer.new result }
{
    page::fill(buffer, TextFault::Buffer, |page| put_plan(page, places))
}

pub fn print_no_plan(buffer: &mut [u8]) -> Result<usize, TextFault>
    ensures { Printed no_plan_text buffer.old buffer.new result }
{
    page::fill(buffer, TextFault::Buffer, |page| page.bytes(b"no plan\n"))
}

pub fn print_fault(fault: ImageFault, buffer: &mut [u8]) -> Result<usize, TextFault>
    ensures { Printed (fault_text fault) buffer.old buffer.new result }
{
    page::fill(buffer, TextFault::Buffer, |page| put_fault(page, fault))
}
