// Books in which one record more or less turns a yes into a no.
use crate::books::{changed, pair};
use crate::questions::comes;
use book::{Book, Call, apply};
use examples::{
    ALTER, EXECUTE, HOLD, IMPERSONATE, SELECT, USE, build, declare, grant, join, line, link,
    procedure, question,
};
use std::process::Abort;
use std::test::Fail;

// Whether a session of account 3 comes to impersonate account 4, and in how many steps.
fn takes_over(
    rt: &(impl Abort + AllocGlobal),
    book: &Book,
    expected: Option<usize>,
) -> Result<(), Fail> {
    comes(rt, book, question(3, USE, 4, IMPERSONATE), expected)
}

#[test]
fn a_switch_wants_impersonate(rt: HostRuntime) -> Result<(), Fail> {
    let book = pair(&rt)?;
    comes(&rt, &book, question(3, USE, 4, SELECT), Some(1))?;
    comes(&rt, &book, question(4, USE, 3, SELECT), None)
}

// Account 4 may select from all, with or without the option; 3 acts as 4.
fn granting(rt: &impl AllocGlobal, option: u8) -> Result<Book, Fail> {
    let mut book = pair(rt)?;
    apply(&mut book, grant(4, 0, SELECT, option))?;
    Ok(book)
}

#[test]
fn a_grant_wants_the_option_on_the_entity_itself(rt: HostRuntime) -> Result<(), Fail> {
    let book = granting(&rt, 1)?;
    comes(&rt, &book, question(3, HOLD, 0, SELECT), Some(2))?;
    comes(&rt, &book, question(3, HOLD, 1, SELECT), Some(2))?;
    comes(&rt, &granting(&rt, 0)?, question(3, HOLD, 0, SELECT), None)
}

// Role 4, which may select from all, below role 5; account 3 has a right on the upper.
fn roles(rt: &impl AllocGlobal, right: u8) -> Result<Book, Fail> {
    let calls = [
        declare(3, 0, 3, 0),
        declare(4, 0, 2, 0),
        declare(4, 0, 2, 0),
        link(4, 5),
        grant(4, 0, SELECT, 0),
        grant(3, 5, right, 0),
    ];
    Ok(build(rt.alloc(), &calls)??)
}

#[test]
fn a_join_wants_alter_on_the_role(rt: HostRuntime) -> Result<(), Fail> {
    let asked = question(3, HOLD, 0, SELECT);
    comes(&rt, &roles(&rt, ALTER)?, asked, Some(1))?;
    let mut book = roles(&rt, EXECUTE)?;
    comes(&rt, &book, asked, None)?;
    apply(&mut book, join(3, 5))?;
    comes(&rt, &book, asked, Some(0))
}

// Accounts 3, 4 and 5; procedure 7 of account 5, whose line calls procedure 9 of sysadmin as account 4.
fn two_owners() -> [Call; 11] {
    [
        declare(3, 0, 3, 0),
        declare(3, 0, 4, 0),
        declare(3, 0, 5, 0),
        declare(0, 0, 5, 1),
        declare(2, 6, 5, 0),
        declare(0, 0, 2, 1),
        declare(2, 8, 2, 0),
        line(procedure(7), 4, procedure(9)),
        grant(3, 7, EXECUTE, 0),
        grant(3, 9, ALTER, 0),
        grant(4, 9, EXECUTE, 0),
    ]
}

#[test]
fn a_call_wants_execute(rt: HostRuntime) -> Result<(), Fail> {
    let calls = two_owners();
    takes_over(&rt, &build(rt.alloc(), &calls)??, Some(4))?;
    let (old, new) = (grant(3, 7, EXECUTE, 0), grant(3, 7, SELECT, 0));
    takes_over(&rt, &changed(&rt, &calls, old, new)?, None)
}

#[test]
fn a_line_is_followed_under_its_runner(rt: HostRuntime) -> Result<(), Fail> {
    let calls = two_owners();
    let under_caller = line(procedure(7), 255, procedure(9));
    let under_fifth = line(procedure(7), 5, procedure(9));
    let old = line(procedure(7), 4, procedure(9));
    takes_over(&rt, &changed(&rt, &calls, old, under_caller)?, None)?;
    takes_over(&rt, &changed(&rt, &calls, old, under_fifth)?, None)
}

#[test]
fn a_line_between_owners_wants_a_right_of_its_runner(rt: HostRuntime) -> Result<(), Fail> {
    let calls = two_owners();
    let (old, new) = (grant(4, 9, EXECUTE, 0), grant(4, 9, SELECT, 0));
    takes_over(&rt, &changed(&rt, &calls, old, new)?, None)
}

// The same without the right of account 4, and procedure 9 is of this owner.
fn one_owner(owner: u8) -> [Call; 10] {
    [
        declare(3, 0, 3, 0),
        declare(3, 0, 4, 0),
        declare(3, 0, 5, 0),
        declare(0, 0, 5, 1),
        declare(2, 6, 5, 0),
        declare(0, 0, owner, 1),
        declare(2, 8, owner, 0),
        line(procedure(7), 4, procedure(9)),
        grant(3, 7, EXECUTE, 0),
        grant(3, 9, ALTER, 0),
    ]
}

#[test]
fn a_line_between_objects_of_one_owner_wants_none(rt: HostRuntime) -> Result<(), Fail> {
    takes_over(&rt, &build(rt.alloc(), &one_owner(5))??, Some(4))?;
    takes_over(&rt, &build(rt.alloc(), &one_owner(2))??, None)
}

// A procedure of sysadmin that calls itself as account 4; account 3 may call it and has one more right on it.
fn entered(rt: &impl AllocGlobal, right: u8) -> Result<Book, Fail> {
    let calls = [
        declare(3, 0, 3, 0),
        declare(3, 0, 4, 0),
        declare(0, 0, 2, 1),
        declare(2, 5, 2, 0),
        line(procedure(6), 4, procedure(6)),
        grant(3, 6, EXECUTE, 0),
        grant(3, 6, right, 0),
    ];
    Ok(build(rt.alloc(), &calls)??)
}

#[test]
fn who_alters_what_another_entered_takes_it_over(rt: HostRuntime) -> Result<(), Fail> {
    takes_over(&rt, &entered(&rt, ALTER)?, Some(4))?;
    takes_over(&rt, &entered(&rt, SELECT)?, None)
}

// Procedure 7 of account 5, which account 3 may call and alter; procedure 9 of this owner calls it as account 4, who may call it.
fn lending(rt: &impl AllocGlobal, owner: u8) -> Result<Book, Fail> {
    let calls = [
        declare(3, 0, 3, 0),
        declare(3, 0, 4, 0),
        declare(3, 0, 5, 0),
        declare(0, 0, 5, 1),
        declare(2, 6, 5, 0),
        declare(0, 0, owner, 1),
        declare(2, 8, owner, 0),
        line(procedure(9), 4, procedure(7)),
        grant(3, 7, EXECUTE, 0),
        grant(3, 7, ALTER, 0),
        grant(4, 7, EXECUTE, 0),
    ];
    Ok(build(rt.alloc(), &calls)??)
}

#[test]
fn who_alters_an_object_lends_itself_to_others_of_its_owner(rt: HostRuntime) -> Result<(), Fail> {
    takes_over(&rt, &lending(&rt, 5)?, Some(6))?;
    takes_over(&rt, &lending(&rt, 2)?, None)
}
