// How far an image was walked.
ghost use Rattle.std.specs.Prelude.{◌≡◌, ◌+◌, ◌*◌, ◌/◌, ◌≤◌, ◌⊎◌, [], ◌∷◌, length, take, drop, OnOk, IfOk};
ghost use Rattle.walk.specs.Fields.{byte_at, number_at, field, numbers_ask, stay_asks, after_stay, stays_ask, row_end, entry_asks, after_entry, entries_ask, last_asks, rest_asks, parts_ask, head_asks};
ghost use Rattle.walk.specs.Stays.{part_at, stays_at, EndsAfter};
ghost use Rattle.walk.specs.Walked.{Answered};

use crate::parts::{number_of, stay_of};
use faults::{Cause, ImageFault};
use journal::Stay;

#[derive(Drop)]
pub struct Walk<'a> {
    image: &'a [u8],
    at: usize,
    ghost within: { at ≤ length image.now },
}

impl<'a> Walk<'a> {
    // The next bytes, which are one field.
    fn part(&mut self, width: usize) -> Result<&'a [u8], ImageFault>
        ensures answer { Answered (field self.old.image.now width self.old.at ∷ []) result }
        ensures part { IfOk result (λ p. p.now ≡ take width (drop self.old.at self.old.image.now)) }
        ensures at { OnOk result (self.new.at ≡ self.old.at + width) }
        ensures same { self.new.image.now ≡ self.old.image.now }
    {
        let rest = &self.image[self.at..];
        if rest.len() < width {
            return Err(ImageFault {
                offset: self.at,
                cause: Cause::Fields,
            });
        }
        self.at += width;
        Ok(&rest[0..width])
    }

    pub fn byte(&mut self) -> Result<u8, ImageFault>
        ensures answer { Answered (field self.old.image.now 1 self.old.at ∷ []) result }
        ensures value { IfOk result (λ b. b ≡ byte_at self.old.image.now self.old.at) }
        ensures at { OnOk result (self.new.at ≡ self.old.at + 1) }
        ensures same { self.new.image.now ≡ self.old.image.now }
    {
        let part = self.part(1)?;
        Ok(part[0])
    }

    pub fn number(&mut self) -> Result<u16, ImageFault>
        ensures answer { Answered (field self.old.image.now 2 self.old.at ∷ []) result }
        ensures value { IfOk result (λ n. n ≡ number_at self.old.image.now self.old.at) }
        ensures at { OnOk result (self.new.at ≡ self.old.at + 2) }
        ensures same { self.new.image.now ≡ self.old.image.now }
    {
        let part = self.part(2)?;
        Ok(number_of(part, 0))
    }

    fn numbers(&mut self, count: u8) -> Result<(), ImageFault>
        ensures answer { Answered (numbers_ask self.old.image.now count self.old.at) result }
        ensures at { OnOk result (self.new.at ≡ self.old.at + 2 * count) }
        ensures same { self.new.image.now ≡ self.old.image.now }
    {
        for _ in 0..count {
            self.number()?;
        }
        Ok(())
    }

    // The bytes of a stay, behind the one that counts them.
    pub fn stay(&mut self) -> Result<&'a [u8], ImageFault>
        ensures answer { Answered (stay_asks self.old.image.now self.old.at) result }
        ensures part { IfOk result (λ p. p.now ≡ part_at self.old.image.now self.old.at) }
        ensures length { IfOk result (λ p. (length p.now ≡ 8) ⊎ (length p.now ≡ 12)) }
        ensures at { OnOk result (self.new.at ≡ after_stay self.old.image.now self.old.at) }
        ensures same { self.new.image.now ≡ self.old.image.now }
    {
        let from = self.at;
        let count = self.byte()?;
        if count != 8 && count != 12 {
            return Err(ImageFault {
                offset: from,
                cause: Cause::StayLength,
            });
        }
        self.numbers(count / 2)?;
        Ok(&self.image[from + 1..self.at])
    }

    // A stay for each of these places.
    pub fn stays(&mut self, slots: &mut [Stay]) -> Result<(), ImageFault>
        ensures answer { Answered (stays_ask self.old.image.now (length slots.old) self.old.at) result }
        ensures stays { OnOk result (slots.new ≡ stays_at self.old.image.now (length slots.old) self.old.at) }
        ensures at { OnOk result (self.new.at ≡ row_end (after_stay self.old.image.now) (length slots.old) self.old.at) }
        ensures same { self.new.image.now ≡ self.old.image.now }
    {
        for slot in slots {
            *slot = stay_of(self.stay()?);
        }
        Ok(())
    }

    fn entry(&mut self) -> Result<(), ImageFault>
        ensures answer { Answered (entry_asks self.old.image.now self.old.at) result }
        ensures at { OnOk result (self.new.at ≡ after_entry self.old.at) }
        ensures same { self.new.image.now ≡ self.old.image.now }
    {
        self.byte()?;
        self.byte()?;
        self.byte()?;
        self.number()?;
        Ok(())
    }

    fn entries(&mut self, count: u8) -> Result<(), ImageFault>
        ensures answer { Answered (entries_ask self.old.image.now count self.old.at) result }
        ensures at { OnOk result (self.new.at ≡ row_end after_entry count self.old.at) }
        ensures same { self.new.image.now ≡ self.old.image.now }
    {
        for _ in 0..count {
            self.entry()?;
        }
        Ok(())
    }

    // So many entries, and nothing after them.
    fn last_entries(&mut self, count: u8) -> Result<(), ImageFault>
        ensures answer { Answered (last_asks self.old.image.now count self.old.at) result }
        ensures at { OnOk result (length self.old.image.now ≡ self.old.at + 5 * count) }
        ensures same { self.new.image.now ≡ self.old.image.now }
    {
        self.entries(count)?;
        if self.at != self.image.len() {
            return Err(ImageFault {
                offset: self.at,
                cause: Cause::Fields,
            });
        }
        Ok(())
    }

    // How many entries there are, which end the image.
    pub fn rest(&mut self) -> Result<u8, ImageFault>
        ensures answer { Answered (rest_asks self.old.image.now self.old.at) result }
        ensures count { IfOk result (λ n. EndsAfter self.old.image.now self.old.at n) }
    {
        let count = self.byte()?;
        self.last_entries(count)?;
        Ok(count)
    }

    // A stay for each of these places, and how many entries follow.
    pub fn parts(&mut self, slots: &mut [Stay]) -> Result<u8, ImageFault>
        ensures answer { Answered (parts_ask self.old.image.now (length slots.old) self.old.at) result }
        ensures stays { OnOk result (slots.new ≡ stays_at self.old.image.now (length slots.old) self.old.at) }
        ensures count { IfOk result (λ n. EndsAfter self.old.image.now (row_end (after_stay self.old.image.now) (length slots.old) self.old.at) n) }
    {
        self.stays(slots)?;
        self.rest()
    }

    // Behind the version.
    pub fn begun(image: &'a [u8]) -> Result<Walk<'a>, ImageFault>
        ensures answer { Answered (head_asks image.now) result }
        ensures begun { IfOk result (λ w. (w.image.now ≡ image.now) × (w.at ≡ 3)) }
    {
        if image.len() < 2 || usize::from(number_of(image, 0)) + 2 != image.len() {
            return Err(ImageFault {
                offset: 0,
                cause: Cause::Length,
            });
        }
        if image.len() < 3 || image[2] != 1 {
            return Err(ImageFault {
                offset: 2,
                cause: Cause::Version,
            });
        }
        Ok(Walk { image, at: 3 })
    }
}
