// Each table of cases runs on a book that is made new again.
use crate::cases::{Case, declarations, lines, links, members, rights};
use access::{Member, Refusal, RightNumbers};
use book::{Book, Call, apply, fill};
use catalogue::{Catalogue, ListName};
use examples::{declare, join};
use std::process::Abort;
use std::test::Fail;

fn run(rt: &(impl Abort + AllocGlobal), cases: &[Case]) -> Result<(), Fail> {
    let calls: Vec<Call> = cases.iter().map(|(call, _)| *call).collect(rt.alloc())?;
    let mut answers = vec![in rt.alloc(); Ok(0); cases.len()]?;
    let mut book = Book::new(rt.alloc())?;
    assert!(rt; fill(&mut book, &calls, &mut answers).is_ok());
    for (answer, (_, expected)) in answers.iter().zip(cases) {
        assert_eq!(rt; answer, expected);
    }
    Ok(())
}

#[test]
fn declarations_return_what_the_rules_give(rt: HostRuntime) -> Result<(), Fail> {
    run(&rt, &declarations())
}

#[test]
fn links_close_no_circle(rt: HostRuntime) -> Result<(), Fail> {
    run(&rt, &links())
}

#[test]
fn a_right_stands_whatever_its_option(rt: HostRuntime) -> Result<(), Fail> {
    run(&rt, &rights())
}

#[test]
fn members_are_accounts_in_roles(rt: HostRuntime) -> Result<(), Fail> {
    run(&rt, &members())
}

#[test]
fn lines_stand_in_procedures_and_triggers(rt: HostRuntime) -> Result<(), Fail> {
    run(&rt, &lines())
}

#[test]
fn the_option_is_raised_in_place(rt: HostRuntime) -> Result<(), Fail> {
    let mut book = Book::new(rt.alloc())?;
    for option in [0, 1, 0] {
        let numbers = RightNumbers {
            principal: 1,
            entity: 0,
            right: 0,
            option,
        };
        assert!(rt; book.grant(numbers).is_ok());
    }
    assert!(rt; book.count(ListName::Rights) == 1);
    assert!(rt; book.right_at(0).is_some_and(|r| r.option));
    Ok(())
}

#[test]
fn the_sixteenth_account_stands_and_the_next_does_not(rt: HostRuntime) -> Result<(), Fail> {
    let mut book = Book::new(rt.alloc())?;
    for account in 3..19 {
        assert_eq!(rt;
            apply(&mut book, declare(3, 0, account, 0)),
            Ok(account as usize)
        );
    }
    assert_eq!(rt; apply(&mut book, declare(3, 0, 19, 0)), Err(Refusal::Full));
    assert!(rt; book.count(ListName::Entities) == 19);
    Ok(())
}

#[test]
fn too_little_room_for_the_answers_changes_nothing(rt: HostRuntime) -> Result<(), Fail> {
    let mut book = Book::new(rt.alloc())?;
    assert!(rt;
        book.join(Member {
            account: 1,
            role: 1
        })
        .is_err()
    );
    assert!(rt; apply(&mut book, declare(4, 0, 2, 0)).is_ok());
    assert_eq!(rt;
        fill(&mut book, &[join(0, 0)], &mut []),
        Err(Refusal::NoRoom)
    );
    assert!(rt; book.count(ListName::Entities) == 4);
    book.clear();
    assert!(rt; book.count(ListName::Entities) == 3);
    Ok(())
}
