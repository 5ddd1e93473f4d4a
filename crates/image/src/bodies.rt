// Reads the bodies of an image: every record goes through the building call that it is.
ghost use Rattle.std.specs.Prelude.{◌≡◌, ◌<◌, ◌≤◌, length};
ghost use Rattle.access.specs.Codes.{coded};
ghost use Rattle.access.specs.Lists.{first_entity};
ghost use Rattle.book.specs.Meaning.{lists_of};
ghost use Rattle.image.specs.Layout.{in_order, width_of};
ghost use Rattle.image.specs.Reading.{call_of, new_or, built_part, built_parts, first_at, firsts, read_lists, leaves};

use crate::contents::Contents;
use crate::records::{Coded, numbers_at};
use crate::tables::{IN_ORDER, least_of, part_of, width_of};
use access::{Entity, EntityNumbers, Kind, LineNumbers, Link, Member, Refusal, RightNumbers};
use book::{Book, Call, apply};
use catalogue::ListName;

// The building call that the bytes of a record are.
fn call_of(list: ListName, bytes: &[u8]) -> Call
    requires { length bytes.now ≡ width_of list }
    ensures { result ≡ call_of list bytes.now }
{
    match list {
        ListName::Entities => Call::Declare(EntityNumbers {
            kind: bytes[0],
            parent: bytes[1],
            owner: bytes[2],
            mode: bytes[3],
        }),
        ListName::Links => Call::Link(Link::from_bytes(bytes)),
        ListName::Rights => Call::Grant(RightNumbers {
            principal: bytes[0],
            entity: bytes[1],
            right: bytes[2],
            option: bytes[3],
        }),
        ListName::Members => Call::Join(Member::from_bytes(bytes)),
        ListName::Lines => Call::Line(LineNumbers {
            object: numbers_at(bytes, 0),
            runner: bytes[3],
            called: numbers_at(bytes, 4),
        }),
    }
}

// A record's call must have returned the next number: a record that is refused or stands already is a fault.
fn check_new(answer: Result<usize, Refusal>, list: ListName, next: usize) -> Result<(), Refusal>
    requires { next < 65536 }
    ensures { coded result ≡ new_or (coded answer) list next }
{
    match answer {
        Ok(n) if n == next => Ok(()),
        _ => Err(Refusal::Unreadable {
            part: part_of(list),
            record: next as u16,
        }),
    }
}

// Reads the body of a list, after the records that a new book has.
fn read_body(book: &mut Book, contents: &Contents, list: ListName) -> Result<(), Refusal>
    ensures { leaves (coded result) (lists_of book.new) ≡ built_part contents.now.bytes.now list (lists_of book.old) }
{
    let (least, width) = (least_of(list), width_of(list));
    let (_, rest) = contents.body(list).split_at(least * width);
    for (k, entry) in (least..contents.count(list)).zip(rest.chunks_exact(width)) {
        check_new(apply(book, call_of(list, entry)), list, k)?;
    }
    Ok(())
}

// Reads the bodies in their order.
fn read_bodies(book: &mut Book, contents: &Contents) -> Result<(), Refusal>
    ensures { leaves (coded result) (lists_of book.new) ≡ built_parts contents.now.bytes.now in_order (lists_of book.old) }
{
    for list in IN_ORDER {
        read_body(book, contents, list)?;
    }
    Ok(())
}

// An entity that a new book has must stand as record k.
fn check_first(bytes: &[u8], k: usize, kind: Kind) -> Result<(), Refusal>
    requires { (k < 3) × (32 ≤ length bytes.now) }
    ensures { coded result ≡ first_at bytes.now k (first_entity kind) }
{
    let mut first = [0; 4];
    Entity::first(kind).put(&mut first);
    let start = 20 + k * 4;
    if bytes[start..start + 4] == first[..] {
        Ok(())
    } else {
        Err(Refusal::Unreadable {
            part: 1,
            record: k as u16,
        })
    }
}

// Kept: three calls, since a loop over three kinds is no plainer.
fn check_firsts(bytes: &[u8]) -> Result<(), Refusal>
    requires { 32 ≤ length bytes.now }
    ensures { coded result ≡ firsts bytes.now }
{
    check_first(bytes, 0, Kind::Container)?;
    check_first(bytes, 1, Kind::Role)?;
    check_first(bytes, 2, Kind::Role)
}

// Builds all that an image holds, in a book that is made new again.
pub(crate) fn rebuild(book: &mut Book, bytes: &[u8]) -> Result<(), Refusal>
    ensures { leaves (coded result) (lists_of book.new) ≡ read_lists bytes.now }
{
    let contents = Contents::read(bytes)?;
    check_firsts(bytes)?;
    book.clear();
    read_bodies(book, &contents)
}
