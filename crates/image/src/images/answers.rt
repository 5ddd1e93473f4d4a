// What a reader answers as a catalogue: each record is read where it stands.
ghost use Rattle.std.specs.Prelude.{◌≡◌, ◌<◌};
ghost use Rattle.std.specs.List.{slice_get};
ghost use Rattle.catalogue.specs.Counts.{count_of};
ghost use Rattle.image.specs.Bytes.{record_at};
ghost use Rattle.image.specs.Readers.{image_lists};

use crate::images::Image;
use crate::records::Coded;
use crate::tables::width_of;
use access::{Entity, Line, Link, Member, RightRecord};
use catalogue::{Catalogue, ListName};

impl<'a> Image<'a> {
    // The bytes of record n of a list.
    fn record_at(&self, list: ListName, n: usize) -> &'a [u8]
        requires { n < count_of (image_lists self.now) list }
        ensures { result.now ≡ record_at (image_lists self.now) list n }
    {
        let width = width_of(list);
        let start = n * width;
        &self.body(list)[start..start + width]
    }

    // Record n of the list that such records stand in, or none past its end.
    fn found<T: Coded>(&self, n: usize) -> Option<T>
        ensures { result ≡ slice_get (T.listed (image_lists self.now)) n }
    {
        if n >= self.count(T::list()) {
            return None;
        }
        Some(T::from_bytes(self.record_at(T::list(), n)))
    }
}

impl Catalogue for Image<'_> {
    ghost meaning = { image_lists };

    fn count(&self, list: ListName) -> usize
        ensures { result ≡ count_of (image_lists self.now) list }
    {
        self.contents().count(list)
    }

    fn entity_at(&self, n: usize) -> Option<Entity>
        ensures { result ≡ slice_get (image_lists self.now).entities n }
    {
        self.found(n)
    }

    fn link_at(&self, n: usize) -> Option<Link>
        ensures { result ≡ slice_get (image_lists self.now).links n }
    {
        self.found(n)
    }

    fn right_at(&self, n: usize) -> Option<RightRecord>
        ensures { result ≡ slice_get (image_lists self.now).rights n }
    {
        self.found(n)
    }

    fn member_at(&self, n: usize) -> Option<Member>
        ensures { result ≡ slice_get (image_lists self.now).members n }
    {
        self.found(n)
    }

    fn line_at(&self, n: usize) -> Option<Line>
        ensures { result ≡ slice_get (image_lists self.now).lines n }
    {
        self.found(n)
    }
}
