// A reader: bytes that some book writes.
ghost use Rattle.std.specs.Prelude.{◌≡◌};
ghost use Rattle.catalogue.specs.Sound.{Kept};
ghost use Rattle.image.specs.Encoding.{encode};
ghost use Rattle.image.specs.Reading.{lists_in};

use crate::contents::Contents;

pub mod answers;
pub mod reader;

// Its bytes are the image of lists that a book may hold.
#[derive(Clone, Copy)]
pub struct Image<'a> {
    bytes: &'a [u8],
    ghost kept: { ∥ Kept (lists_in bytes.now) ∥₁ },
    ghost written: { encode (lists_in bytes.now) ≡ bytes.now },
}

impl<'a> Image<'a> {
    fn contents(&self) -> Contents<'a>
        ensures { result.bytes.now ≡ self.now.bytes.now }
    {
        Contents { bytes: self.bytes }
    }
}
