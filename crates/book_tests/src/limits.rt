// A list takes records until it is full, and then only finds those that stand.
use book::{Book, Call, apply};
use catalogue::{Catalogue, ListName};
use examples::{declare, grant, join, line, link, procedure};
use std::process::Abort;
use std::test::Fail;

// A call that is taken.
fn take(rt: &impl Abort, book: &mut Book, call: Call) {
    assert!(rt; apply(book, call).is_ok());
}

// A call for a new record, taken where its list has fewer than `limit`.
fn take_within(rt: &impl Abort, book: &mut Book, call: Call, list: ListName, limit: usize) {
    let stood = book.count(list);
    assert!(rt; apply(book, call).is_ok() == (stood < limit));
}

// Accounts 3 to 18.
fn declare_accounts(rt: &impl Abort, book: &mut Book) {
    for account in 3..19 {
        take(rt, book, declare(3, 0, account, 0));
    }
}

// That many roles of role 2.
fn declare_roles(rt: &impl Abort, book: &mut Book, count: u8) {
    for _ in 0..count {
        take(rt, book, declare(4, 0, 2, 0));
    }
}

#[test]
fn the_right_after_256_is_declined(rt: HostRuntime) -> Result<(), Fail> {
    let mut book = Book::new(rt.alloc())?;
    declare_accounts(&rt, &mut book);
    for entity in 0..19u8 {
        for right in 0..14u8 {
            let call = grant(1 + right % 2, entity, right / 2, 0);
            take_within(&rt, &mut book, call, ListName::Rights, 256);
        }
    }
    take(&rt, &mut book, grant(1, 0, 0, 1));
    assert!(rt; book.count(ListName::Rights) == 256);
    Ok(())
}

#[test]
fn the_member_after_128_is_declined(rt: HostRuntime) -> Result<(), Fail> {
    let mut book = Book::new(rt.alloc())?;
    declare_accounts(&rt, &mut book);
    declare_roles(&rt, &mut book, 14);
    for account in 3..19u8 {
        for role in 19..33u8 {
            take_within(&rt, &mut book, join(account, role), ListName::Members, 128);
        }
    }
    take(&rt, &mut book, join(3, 19));
    assert!(rt; book.count(ListName::Members) == 128);
    Ok(())
}

#[test]
fn the_link_after_64_is_declined(rt: HostRuntime) -> Result<(), Fail> {
    let mut book = Book::new(rt.alloc())?;
    declare_roles(&rt, &mut book, 14);
    for upper in 4..17u8 {
        for lower in 3..upper {
            take_within(&rt, &mut book, link(lower, upper), ListName::Links, 64);
        }
    }
    take(&rt, &mut book, link(3, 4));
    assert!(rt; book.count(ListName::Links) == 64);
    Ok(())
}

#[test]
fn the_line_after_256_is_declined(rt: HostRuntime) -> Result<(), Fail> {
    let mut book = Book::new(rt.alloc())?;
    take(&rt, &mut book, declare(0, 0, 2, 1));
    for _ in 4..36 {
        take(&rt, &mut book, declare(2, 3, 2, 0));
    }
    for from in 4..36u8 {
        for to in 4..14u8 {
            let call = line(procedure(from), 255, procedure(to));
            take_within(&rt, &mut book, call, ListName::Lines, 256);
        }
    }
    assert!(rt; book.count(ListName::Lines) == 256);
    Ok(())
}
