// What is refused, by the first row of the refusals that applies, and that nothing changes then.
use crate::books::pair;
use crate::questions::{MARK, full};
use access::{QuestionNumbers, Refusal};
use examples::{IMPERSONATE, USE, question};
use session::Workspace;
use std::process::Abort;
use std::test::Fail;
use survey::{compare, reach};
use witness::witness;

// The row of an account of the pair is refused, and every byte of the room stays.
fn no_row(
    rt: &(impl Abort + AllocGlobal),
    account: u8,
    width: usize,
    refusal: Refusal,
) -> Result<(), Fail> {
    let book = pair(rt)?;
    let mut workspace = Workspace::new(rt.alloc())?;
    let mut room = vec![in rt.alloc(); 200; width]?;
    book.sound();
    let answer = reach(&mut workspace, &book, account, &mut room);
    assert_eq!(rt; answer, Err(refusal));
    assert!(rt; room.iter().all(|byte| *byte == 200));
    Ok(())
}

// The steps of a question about the pair are refused, and every place of the room stays.
fn no_steps(
    rt: &(impl Abort + AllocGlobal),
    asked: QuestionNumbers,
    places: usize,
    refusal: Refusal,
) -> Result<(), Fail> {
    let book = pair(rt)?;
    let mut workspace = Workspace::new(rt.alloc())?;
    let mut room = vec![in rt.alloc(); MARK; places]?;
    book.sound();
    let answer = witness(&mut workspace, &book, asked, &mut room);
    assert_eq!(rt; answer, Err(refusal));
    assert!(rt; room.iter().all(|step| *step == MARK));
    Ok(())
}

// Two accounts of the pair are not compared.
fn no_comparison(
    rt: &(impl Abort + AllocGlobal),
    first: u8,
    second: u8,
    refusal: Refusal,
) -> Result<(), Fail> {
    let book = pair(rt)?;
    let mut workspace = Workspace::new(rt.alloc())?;
    book.sound();
    let answer = compare(&mut workspace, &book, first, second).err();
    assert_eq!(rt; answer, Some(refusal));
    Ok(())
}

#[test]
fn a_row_wants_an_account_and_then_96_bytes(rt: HostRuntime) -> Result<(), Fail> {
    let rooms = [
        (5, 96, Refusal::NotListed),
        (5, 95, Refusal::NotListed),
        (255, 0, Refusal::NotListed),
        (2, 96, Refusal::WrongKind),
        (0, 95, Refusal::WrongKind),
        (3, 95, Refusal::NoRoom),
        (4, 0, Refusal::NoRoom),
    ];
    for (account, width, refusal) in rooms {
        no_row(&rt, account, width, refusal)?;
    }
    Ok(())
}

#[test]
fn the_bytes_past_a_row_stay(rt: HostRuntime) -> Result<(), Fail> {
    let book = pair(&rt)?;
    let mut workspace = Workspace::new(rt.alloc())?;
    let mut room = [200; 99];
    book.sound();
    reach(&mut workspace, &book, 3, &mut room)?;
    assert!(rt; room.starts_with(&full(3, 4)));
    assert!(rt; room.ends_with(&[200, 200, 200]));
    Ok(())
}

#[test]
fn a_comparison_wants_two_accounts(rt: HostRuntime) -> Result<(), Fail> {
    let pairs = [
        (5, 3, Refusal::NotListed),
        (3, 5, Refusal::NotListed),
        (2, 5, Refusal::NotListed),
        (2, 3, Refusal::WrongKind),
        (3, 0, Refusal::WrongKind),
    ];
    for (first, second, refusal) in pairs {
        no_comparison(&rt, first, second, refusal)?;
    }
    Ok(())
}

#[test]
fn a_question_wants_what_is_listed_and_then_4096_places(rt: HostRuntime) -> Result<(), Fail> {
    let questions = [
        (question(3, USE, 4, 7), Refusal::NotListed),
        (question(3, 2, 4, IMPERSONATE), Refusal::NotListed),
        (question(5, USE, 4, IMPERSONATE), Refusal::NotListed),
        (question(3, USE, 5, IMPERSONATE), Refusal::NotListed),
        (question(2, USE, 4, 7), Refusal::NotListed),
        (question(2, USE, 4, IMPERSONATE), Refusal::WrongKind),
    ];
    for (asked, refusal) in questions {
        no_steps(&rt, asked, 4096, refusal)?;
        no_steps(&rt, asked, 4095, refusal)?;
    }
    Ok(())
}

#[test]
fn too_little_room_is_declined_for_a_yes_and_for_a_no(rt: HostRuntime) -> Result<(), Fail> {
    for account in [3, 4] {
        for entity in [3, 4] {
            let asked = question(account, USE, entity, IMPERSONATE);
            no_steps(&rt, asked, 4095, Refusal::NoRoom)?;
            no_steps(&rt, asked, 0, Refusal::NoRoom)?;
        }
    }
    Ok(())
}
