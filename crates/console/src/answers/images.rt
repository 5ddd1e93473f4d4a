// What is written as an image, and read from one.
ghost use Rattle.std.specs.Prelude.{◌≡◌};

use crate::answers::{Console, put_listing};
use crate::failures::Failure;
use crate::hex::{Hex, bytes_of};
use catalogue::ListName;
use image::{read, write};

// The longest image has as many bytes.
const IMAGE: usize = 3604;

impl Console {
    pub(super) fn write(&mut self, answer: &mut String) -> Result<(), Failure>
        ensures { self.new.layer ≡ self.old.layer }
    {
        let mut room = [0; IMAGE];
        let length = write(self.layer.below(), &mut room)?;
        writeln!(answer, "image {}", Hex(&room[..length]))?;
        Ok(())
    }

    pub(super) fn image(&mut self, digits: &str, answer: &mut String) -> Result<(), Failure>
        ensures { self.new.layer ≡ self.old.layer }
    {
        let bytes = bytes_of(self.heap, digits)?;
        let image = read(&mut self.scratch, &bytes)?;
        put_listing(&mut self.workspace, &image, answer)
    }

    pub(super) fn body(
        &mut self,
        list: ListName,
        digits: &str,
        answer: &mut String,
    ) -> Result<(), Failure>
        ensures { self.new.layer ≡ self.old.layer }
    {
        let bytes = bytes_of(self.heap, digits)?;
        let image = read(&mut self.scratch, &bytes)?;
        writeln!(answer, "body {}", Hex(image.body(list)))?;
        Ok(())
    }
}
