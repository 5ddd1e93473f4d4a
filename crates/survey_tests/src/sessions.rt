// What sessions in the laboratory come to, and what they no longer come to when one call is another.
use crate::books::{changed, laboratory, laboratory_without_alter, pair};
use crate::questions::comes;
use book::Book;
use examples::{
    EXECUTE, HOLD, IMPERSONATE, INSERT, USE, grant, laboratory_calls, line, procedure, question,
    triggers,
};
use std::test::Fail;

// The line of the laboratory runs under its caller.
fn under_caller(rt: &impl AllocGlobal) -> Result<Book, Fail> {
    let old = line(procedure(7), 3, triggers(6, 1));
    let new = line(procedure(7), 255, triggers(6, 1));
    changed(rt, &laboratory_calls(), old, new)
}

#[test]
fn four_steps_lead_4_to_impersonate_3(rt: HostRuntime) -> Result<(), Fail> {
    comes(
        &rt,
        &laboratory(&rt)?,
        question(4, USE, 3, IMPERSONATE),
        Some(4),
    )
}

#[test]
fn without_alter_on_the_table_4_cannot_impersonate_3(rt: HostRuntime) -> Result<(), Fail> {
    let book = laboratory_without_alter(&rt)?;
    comes(&rt, &book, question(4, USE, 3, IMPERSONATE), None)
}

#[test]
fn under_the_caller_4_cannot_impersonate_3(rt: HostRuntime) -> Result<(), Fail> {
    comes(
        &rt,
        &under_caller(&rt)?,
        question(4, USE, 3, IMPERSONATE),
        None,
    )
}

#[test]
fn an_ownership_chain_into_triggers_gives_no_insert(rt: HostRuntime) -> Result<(), Fail> {
    comes(&rt, &under_caller(&rt)?, question(4, USE, 6, INSERT), None)
}

#[test]
fn who_acts_as_another_uses_its_right_and_does_not_hold_it(rt: HostRuntime) -> Result<(), Fail> {
    let book = laboratory_without_alter(&rt)?;
    comes(&rt, &book, question(8, USE, 7, EXECUTE), Some(1))?;
    comes(&rt, &book, question(8, HOLD, 7, EXECUTE), None)
}

#[test]
fn with_the_option_it_grants_itself_the_right(rt: HostRuntime) -> Result<(), Fail> {
    let book = changed(
        &rt,
        &laboratory_calls(),
        grant(4, 7, EXECUTE, 0),
        grant(4, 7, EXECUTE, 1),
    )?;
    comes(&rt, &book, question(8, HOLD, 7, EXECUTE), Some(2))
}

#[test]
fn a_right_that_is_held_at_first_needs_no_step(rt: HostRuntime) -> Result<(), Fail> {
    let book = pair(&rt)?;
    for sense in [USE, HOLD] {
        comes(&rt, &book, question(4, sense, 4, IMPERSONATE), Some(0))?;
        comes(&rt, &book, question(4, sense, 3, IMPERSONATE), None)?;
    }
    Ok(())
}
