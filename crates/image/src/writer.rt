// Writes the image of a book.
ghost use Rattle.std.specs.Prelude.{◌≡◌, ◌+◌, ◌*◌, ◌<◌, ◌≤◌, length, Ok, sum_by};
ghost use Rattle.access.specs.Codes.{coded};
ghost use Rattle.catalogue.specs.Counts.{count_of};
ghost use Rattle.book.specs.Meaning.{lists_of};
ghost use Rattle.image.specs.Layout.{in_order, width_of};
ghost use Rattle.image.specs.Bytes.{record_at};
ghost use Rattle.image.specs.Encoding.{entry_bytes, body_of, contents, bodies, encode, write_answer, write_room};
ghost use Rattle.image.specs.Reading.{read_lists};

use crate::records::Coded;
use crate::tables::{IN_ORDER, width_of};
use access::{Entity, Line, Link, Member, Refusal, RightRecord};
use book::Book;
use catalogue::{Catalogue, ListName};

// How many bytes the body of a list has.
fn body_len(book: &Book, list: ListName) -> usize
    ensures value { result ≡ count_of (lists_of book.now) list * width_of list }
    ensures bound { result ≤ 1792 }
{
    book.count(list) * width_of(list)
}

// How many bytes the bodies of a book's image have.
fn bodies_len(book: &Book) -> usize
    ensures { result ≡ sum_by (λ p. count_of (lists_of book.now) p * width_of p) in_order }
{
    IN_ORDER.iter().map(|list| body_len(book, *list)).sum()
}

// How many bytes the image of a book has.
fn image_len(book: &Book) -> usize
    ensures { result ≡ length (encode (lists_of book.now)) }
{
    20 + bodies_len(book)
}

// Fills the room of an entry of the contents.
fn put_entry(start: usize, count: usize, room: &mut [u8])
    requires small { (start < 65536) × (count < 65536) }
    requires room { length room.old ≡ 4 }
    ensures { room.new ≡ entry_bytes start count }
{
    room[0..2].copy_from_slice(&(start as u16).to_be_bytes());
    room[2..4].copy_from_slice(&(count as u16).to_be_bytes());
}

// Fills the room of the contents.
fn put_contents(book: &Book, room: &mut [u8])
    requires { length room.old ≡ 20 }
    ensures { room.new ≡ contents (lists_of book.now) }
{
    let mut start = 20;
    // Kept: parts by their places; of parts from `chunks_exact_mut` a proof knows only the length, and `split_at_mut` in each turn
    // was tried and did not close.
    for (i, list) in IN_ORDER.iter().enumerate() {
        put_entry(start, book.count(*list), &mut room[i * 4..i * 4 + 4]);
        start += body_len(book, *list);
    }
}

// Fills the room of record n of a list.
fn put_record<T: Coded>(book: &Book, n: usize, room: &mut [u8])
    requires stands { n < count_of (lists_of book.now) T.named }
    requires room { length room.old ≡ width_of T.named }
    ensures { room.new ≡ record_at (lists_of book.now) T.named n }
{
    book.sound();
    if let Some(x) = T::at(book, n) {
        x.put(room);
    }
}

// Fills the room of a body with the records of its list.
fn put_records<T: Coded>(book: &Book, room: &mut [u8])
    requires { length room.old ≡ length (body_of (lists_of book.now) T.named) }
    ensures { room.new ≡ body_of (lists_of book.now) T.named }
{
    let (count, width) = (book.count(T::list()), width_of(T::list()));
    // Kept: parts by their places, for the same reason as in the contents.
    for n in 0..count {
        let start = n * width;
        put_record::<T>(book, n, &mut room[start..start + width]);
    }
}

// Fills the room of the body of a list.
// Kept: an arm for each list, since it picks the type of the records.
fn put_body(book: &Book, list: ListName, room: &mut [u8])
    requires { length room.old ≡ length (body_of (lists_of book.now) list) }
    ensures { room.new ≡ body_of (lists_of book.now) list }
{
    match list {
        ListName::Entities => put_records::<Entity>(book, room),
        ListName::Links => put_records::<Link>(book, room),
        ListName::Rights => put_records::<RightRecord>(book, room),
        ListName::Members => put_records::<Member>(book, room),
        ListName::Lines => put_records::<Line>(book, room),
    }
}

// Fills the room of the bodies, one after another.
fn put_bodies(book: &Book, room: &mut [u8])
    requires { length room.old ≡ length (bodies (lists_of book.now)) }
    ensures { room.new ≡ bodies (lists_of book.now) }
{
    let mut start = 0;
    // Kept: a place that runs, since `split_at_mut` in each turn was tried and did not close.
    for list in IN_ORDER {
        let end = start + body_len(book, list);
        put_body(book, list, &mut room[start..end]);
        start = end;
    }
}

// Fills the room of an image.
fn put_image(book: &Book, room: &mut [u8])
    requires { length room.old ≡ length (encode (lists_of book.now)) }
    ensures { room.new ≡ encode (lists_of book.now) }
{
    let (head, rest) = room.split_at_mut(20);
    put_contents(book, head);
    put_bodies(book, rest);
}

// Writes the image of a book to the front of a room, and returns its length; what a book writes reads as the book's lists.
pub fn write(book: &Book, room: &mut [u8]) -> Result<usize, Refusal>
    ensures answer { coded result ≡ write_answer (encode (lists_of book.now)) room.old }
    ensures room { room.new ≡ write_room (encode (lists_of book.now)) room.old }
    ensures reads { read_lists (encode (lists_of book.now)) ≡ Ok (lists_of book.now) }
{
    let n = image_len(book);
    if room.len() < n {
        return Err(Refusal::NoRoom);
    }
    put_image(book, &mut room[0..n]);
    Ok(n)
}
