// What books write reads again, and each damage is found where it is first.
use crate::samples::{DAMAGES, MIXED, PAIRS};
use access::{Member, Refusal};
use book::Book;
use catalogue::{Catalogue, ListName};
use examples::{build, declare, grant, join, line, link, pair_calls, procedure, triggers};
use image::{read, write};
use std::process::Abort;
use std::test::Fail;

fn mixed(rt: &impl AllocGlobal) -> Result<Book, Fail> {
    let calls = [
        declare(3, 0, 3, 0),
        declare(4, 0, 3, 0),
        declare(0, 0, 3, 1),
        declare(1, 5, 3, 0),
        declare(2, 5, 3, 0),
        link(1, 4),
        link(4, 2),
        grant(4, 6, 1, 1),
        grant(3, 7, 5, 0),
        join(3, 4),
        join(3, 1),
        line(procedure(7), 255, triggers(6, 1)),
        line(triggers(6, 3), 3, procedure(7)),
    ];
    Ok(build(rt.alloc(), &calls)??)
}

// A book writes these bytes and no others, and leaves a room that is too small as it is.
fn writes(rt: &impl Abort, book: &Book, bytes: &[u8]) {
    let n = bytes.len();
    assert!(rt; 0 < n && n < 100);
    let mut room = [7u8; 100];
    assert!(rt; write(book, &mut room[..n - 1]).is_err());
    assert!(rt; room == [7u8; 100]);
    assert_eq!(rt; write(book, &mut room), Ok(n));
    assert!(rt; room.starts_with(bytes));
    assert!(rt; room[n] == 7);
}

#[test]
fn the_two_accounts_are_written(rt: HostRuntime) -> Result<(), Fail> {
    writes(&rt, &build(rt.alloc(), &pair_calls())??, &PAIRS);
    Ok(())
}

#[test]
fn each_kind_of_record_is_written(rt: HostRuntime) -> Result<(), Fail> {
    writes(&rt, &mixed(&rt)?, &MIXED);
    Ok(())
}

#[test]
fn a_reader_answers_and_writes_its_bytes(rt: HostRuntime) -> Result<(), Fail> {
    let mut scratch = Book::new(rt.alloc())?;
    let image = read(&mut scratch, &MIXED)?;
    assert!(rt; image.count(ListName::Entities) == 8);
    assert!(rt; image.body(ListName::Lines).len() == 14);
    assert!(rt;
        image.member_at(1)
            == Some(Member {
                account: 3,
                role: 1
            })
    );
    assert!(rt; image.link_at(2).is_none());
    let mut room = [0u8; 82];
    assert!(rt; image.write(&mut room).is_ok());
    assert!(rt; room == MIXED);
    assert!(rt; image.write(&mut [0u8; 81]).is_err());
    Ok(())
}

#[test]
fn a_scratch_book_may_hold_anything(rt: HostRuntime) -> Result<(), Fail> {
    let mut scratch = mixed(&rt)?;
    let image = read(&mut scratch, &PAIRS)?;
    assert!(rt; image.count(ListName::Rights) == 1);
    Ok(())
}

fn fault_is(scratch: &mut Book, bytes: &[u8], part: u8, record: u16) -> bool {
    read(scratch, bytes).err() == Some(Refusal::Unreadable { part, record })
}

#[test]
fn damages_are_faults(rt: HostRuntime) -> Result<(), Fail> {
    let mut scratch = Book::new(rt.alloc())?;
    for (place, byte, part, record) in DAMAGES {
        let mut bytes = MIXED;
        assert!(rt; place < 82);
        bytes[place] = byte;
        assert!(rt; fault_is(&mut scratch, &bytes, part, record));
    }
    Ok(())
}

#[test]
fn lengths_are_faults(rt: HostRuntime) -> Result<(), Fail> {
    let mut scratch = Book::new(rt.alloc())?;
    assert!(rt; fault_is(&mut scratch, &MIXED[0..0], 0, 5));
    assert!(rt; fault_is(&mut scratch, &MIXED[0..19], 0, 5));
    assert!(rt; fault_is(&mut scratch, &MIXED[0..81], 0, 5));
    Ok(())
}

// The second link is the first again, and then the second right is the first with another option.
#[test]
fn what_stands_already_is_a_fault(rt: HostRuntime) -> Result<(), Fail> {
    let mut scratch = Book::new(rt.alloc())?;
    let mut bytes = MIXED;
    bytes[54..56].copy_from_slice(&[1, 4]);
    assert!(rt; fault_is(&mut scratch, &bytes, 2, 1));
    let mut bytes = MIXED;
    bytes[60..63].copy_from_slice(&[4, 6, 1]);
    assert!(rt; fault_is(&mut scratch, &bytes, 3, 1));
    Ok(())
}
