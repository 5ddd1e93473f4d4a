// Reads an image, and hands out its bodies.
ghost use Rattle.std.specs.Prelude.{◌≡◌};
ghost use Rattle.access.specs.Codes.{coded};
ghost use Rattle.access.specs.Lists.{new_lists};
ghost use Rattle.book.specs.Meaning.{lists_of};
ghost use Rattle.image.specs.Encoding.{encode, write_answer, write_room};
ghost use Rattle.image.specs.Readers.{image_lists, ReadAs, BodyAt};

use crate::bodies::rebuild;
use crate::images::Image;
use access::Refusal;
use book::Book;
use catalogue::ListName;

// Reads bytes as an image: each record goes through its building call in a book that is lent for it, and is new afterwards.
pub fn read<'a>(scratch: &mut Book, bytes: &'a [u8]) -> Result<Image<'a>, Refusal>
    ensures image { ReadAs result bytes.now }
    ensures scratch { lists_of scratch.new ≡ new_lists }
{
    let built = rebuild(scratch, bytes);
    scratch.clear();
    built?;
    Ok(Image { bytes })
}

impl<'a> Image<'a> {
    // The body of a list, as a part of the bytes that were read.
    pub fn body(&self, list: ListName) -> &'a [u8]
        ensures { BodyAt list self.now.bytes.now (image_lists self.now) result.now }
    {
        self.contents().body(list)
    }

    // Writes the bytes that were read to the front of a room: they are the image of the reader's lists.
    pub fn write(&self, room: &mut [u8]) -> Result<usize, Refusal>
        ensures answer { coded result ≡ write_answer (encode (image_lists self.now)) room.old }
        ensures room { room.new ≡ write_room (encode (image_lists self.now)) room.old }
        ensures same { encode (image_lists self.now) ≡ self.now.bytes.now }
    {
        let n = self.bytes.len();
        if room.len() < n {
            return Err(Refusal::NoRoom);
        }
        room[0..n].copy_from_slice(self.bytes);
        Ok(n)
    }
}
