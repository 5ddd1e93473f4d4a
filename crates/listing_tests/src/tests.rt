// The exposures and the listing of two accounts, of which the first may impersonate the second, and what is refused.
use access::Refusal;
use book::Book;
use examples::{build, pair_calls};
use listing::{exposure, listing};
use session::Workspace;
use std::test::Fail;

// Accounts 3 and 4, of which the first may impersonate the second.
fn pair(rt: &impl AllocGlobal) -> Result<Book, Fail> {
    Ok(build(rt.alloc(), &pair_calls())??)
}

#[test]
fn the_listing_has_a_line_for_each_account(rt: HostRuntime) -> Result<(), Fail> {
    let book = pair(&rt)?;
    let mut workspace = Workspace::new(rt.alloc())?;
    let mut room = [200; 24];
    book.sound();
    assert_eq!(rt; listing(&mut workspace, &book, &mut room), Ok(22));
    assert!(rt; room.starts_with(b"03 11 0400\n04 01 0200\n"));
    assert!(rt; room.ends_with(&[200, 200]));
    Ok(())
}

#[test]
fn a_catalogue_without_accounts_has_an_empty_listing(rt: HostRuntime) -> Result<(), Fail> {
    let book = Book::new(rt.alloc())?;
    let mut workspace = Workspace::new(rt.alloc())?;
    book.sound();
    assert_eq!(rt; listing(&mut workspace, &book, &mut []), Ok(0));
    Ok(())
}

#[test]
fn a_room_too_small_for_the_listing_stays(rt: HostRuntime) -> Result<(), Fail> {
    let book = pair(&rt)?;
    let mut workspace = Workspace::new(rt.alloc())?;
    let mut room = [200; 21];
    book.sound();
    assert_eq!(rt;
        listing(&mut workspace, &book, &mut room),
        Err(Refusal::NoRoom)
    );
    assert_eq!(rt; room, [200; 21]);
    Ok(())
}

#[test]
fn exposures_are_of_accounts(rt: HostRuntime) -> Result<(), Fail> {
    let book = pair(&rt)?;
    let mut workspace = Workspace::new(rt.alloc())?;
    book.sound();
    assert_eq!(rt; exposure(&mut workspace, &book, 3), Ok(400));
    assert_eq!(rt; exposure(&mut workspace, &book, 4), Ok(200));
    assert_eq!(rt; exposure(&mut workspace, &book, 2), Err(Refusal::WrongKind));
    assert_eq!(rt; exposure(&mut workspace, &book, 5), Err(Refusal::NotListed));
    Ok(())
}
