// Each test replays its lists on a book of its own.
ghost use Rattle.std.specs.Prelude.{◌<◌};

use crate::steps::{self, call, follow, plant, switch, trap};
use access::{Action, Event, Line, Object, QuestionNumbers, Refusal, Right, Runner};
use book::Book;
use examples::{
    ALTER, CALLED, EXECUTE, HOLD, IMPERSONATE, STEPS, TRIGGERS, USE, add_calls, build, declare,
    grant, join, laboratory_calls, link, question, without_alter,
};
use replay::replay;
use runs::Step;
use session::Workspace;
use std::process::Abort;
use std::test::Fail;

// The step of this number is not allowed, or all are and the right is missing after so many.
fn stopped(step: u16) -> Result<(), Refusal> {
    Err(Refusal::NotAllowed { step })
}

fn ends(
    rt: &(impl Abort + AllocGlobal),
    book: &Book,
    q: QuestionNumbers,
    steps: &[Step],
    expected: Result<(), Refusal>,
) -> Result<(), Fail> {
    let mut workspace = Workspace::new(rt.alloc())?;
    book.sound();
    let answer = replay(&mut workspace, book, q, steps);
    assert_eq!(rt; answer, expected);
    Ok(())
}

// Replays steps to impersonate on 3 in the whole laboratory.
fn in_laboratory(
    rt: &(impl Abort + AllocGlobal),
    steps: &[Step],
    expected: Result<(), Refusal>,
) -> Result<(), Fail> {
    let book = build(rt.alloc(), &laboratory_calls())??;
    ends(rt, &book, question(4, USE, 3, IMPERSONATE), steps, expected)
}

// The steps of the laboratory, with one in place of one of them.
fn damaged(at: usize, step: Step) -> [Step; 4]
    requires { at < 4 }
{
    let mut steps = STEPS;
    steps[at] = step;
    steps
}

#[test]
fn the_laboratory_opens(rt: HostRuntime) -> Result<(), Fail> {
    in_laboratory(&rt, &STEPS, Ok(()))?;
    in_laboratory(&rt, &damaged(0, call(4, Object::Procedure(6))), stopped(0))?;
    in_laboratory(&rt, &damaged(0, switch(4, 4)), stopped(1))
}

#[test]
fn a_follow_wants_an_entered_pair(rt: HostRuntime) -> Result<(), Fail> {
    in_laboratory(&rt, &damaged(1, follow(8, CALLED)), stopped(1))?;
    in_laboratory(&rt, &damaged(1, follow(255, CALLED)), stopped(1))?;
    let line = trap(Runner::Caller, 4, false);
    in_laboratory(&rt, &damaged(3, follow(4, line)), stopped(3))
}

#[test]
fn a_follow_wants_the_very_line(rt: HostRuntime) -> Result<(), Fail> {
    let others = [
        trap(Runner::Caller, 4, true),
        trap(Runner::Caller, 1, false),
        trap(Runner::Account(3), 4, false),
    ];
    for line in others {
        in_laboratory(&rt, &damaged(3, follow(3, line)), stopped(3))?;
    }
    Ok(())
}

#[test]
fn a_plant_names_what_stands_and_lends_whom_it_may(rt: HostRuntime) -> Result<(), Fail> {
    let plants = [
        (plant(4, trap(Runner::Account(3), 4, false)), 2),
        (plant(4, trap(Runner::Account(200), 4, false)), 2),
        (plant(4, trap(Runner::Caller, 7, false)), 2),
        (plant(4, trap(Runner::Caller, 255, false)), 2),
        (plant(8, trap(Runner::Caller, 4, false)), 2),
        (plant(4, trap(Runner::Account(4), 4, false)), 3),
    ];
    for (step, at) in plants {
        in_laboratory(&rt, &damaged(2, step), stopped(at))?;
    }
    Ok(())
}

#[test]
fn the_right_is_looked_for_at_the_end(rt: HostRuntime) -> Result<(), Fail> {
    let book = build(rt.alloc(), &without_alter())??;
    let entered = [call(4, Object::Procedure(7)), follow(4, CALLED)];
    ends(&rt, &book, question(4, USE, 6, 1), &entered, stopped(2))?;
    ends(&rt, &book, question(4, USE, 7, EXECUTE), &entered, Ok(()))?;
    ends(&rt, &book, question(4, HOLD, 4, IMPERSONATE), &[], Ok(()))?;
    ends(
        &rt,
        &book,
        question(4, HOLD, 3, IMPERSONATE),
        &[],
        stopped(0),
    )
}

#[test]
fn use_counts_every_account_acted_as_and_hold_the_opener(rt: HostRuntime) -> Result<(), Fail> {
    let book = build(rt.alloc(), &without_alter())??;
    let onward = [switch(8, 4), switch(4, 3)];
    let steps = &onward[..1];
    ends(&rt, &book, question(8, USE, 7, EXECUTE), steps, Ok(()))?;
    ends(&rt, &book, question(8, HOLD, 7, EXECUTE), steps, stopped(1))?;
    let back = [switch(4, 8)];
    ends(&rt, &book, question(4, USE, 7, EXECUTE), &back, stopped(0))?;
    ends(
        &rt,
        &book,
        question(8, USE, 7, EXECUTE),
        &onward,
        stopped(1),
    )
}

#[test]
fn an_option_on_a_container_is_none_on_what_it_contains(rt: HostRuntime) -> Result<(), Fail> {
    let mut book = build(rt.alloc(), &without_alter())??;
    add_calls(&mut book, &[grant(4, 5, ALTER, 1)])?;
    let asked = question(8, HOLD, 6, ALTER);
    let inside = [switch(8, 4), steps::grant(4, 8, 6, Right::Alter)];
    ends(&rt, &book, asked, &inside, stopped(1))?;
    let itself = [switch(8, 4), steps::grant(4, 8, 5, Right::Alter)];
    ends(&rt, &book, asked, &itself, Ok(()))
}

#[test]
fn an_owner_grants_what_its_containers_contain(rt: HostRuntime) -> Result<(), Fail> {
    let book = build(rt.alloc(), &without_alter())??;
    let grants = [
        (steps::grant(3, 8, 6, Right::Alter), Ok(())),
        (steps::grant(3, 8, 4, Right::Alter), stopped(0)),
        (steps::grant(3, 6, 6, Right::Alter), stopped(0)),
        (steps::grant(3, 8, 96, Right::Alter), stopped(0)),
    ];
    for (step, expected) in grants {
        ends(&rt, &book, question(3, HOLD, 6, ALTER), &[step], expected)?;
    }
    Ok(())
}

#[test]
fn one_owner_is_of_the_two_objects(rt: HostRuntime) -> Result<(), Fail> {
    let mut book = build(rt.alloc(), &without_alter())??;
    add_calls(&mut book, &[declare(0, 0, 8, 1), declare(2, 9, 8, 0)])?;
    let onward = Line {
        object: Object::Procedure(7),
        runner: Runner::Caller,
        action: Action::Call(Object::Procedure(10)),
    };
    let asked = question(3, USE, 7, ALTER);
    let steps = [
        call(3, Object::Procedure(7)),
        plant(3, onward),
        follow(3, onward),
    ];
    ends(&rt, &book, asked, &steps, stopped(2))?;
    add_calls(&mut book, &[grant(3, 10, EXECUTE, 0)])?;
    ends(&rt, &book, asked, &steps, Ok(()))
}

// Role 9 below role 10, both of account 4; the lower has alter on the table, the upper on the procedure.
fn two_roles(rt: &impl AllocGlobal) -> Result<Book, Fail> {
    let mut book = build(rt.alloc(), &without_alter())??;
    let calls = [
        declare(4, 0, 4, 0),
        declare(4, 0, 4, 0),
        link(9, 10),
        grant(9, 6, ALTER, 0),
        grant(10, 7, ALTER, 0),
    ];
    add_calls(&mut book, &calls)?;
    Ok(book)
}

#[test]
fn who_is_in_an_upper_role_is_in_the_lower(rt: HostRuntime) -> Result<(), Fail> {
    let book = two_roles(&rt)?;
    let table = question(8, HOLD, 6, ALTER);
    let procedure = question(8, HOLD, 7, ALTER);
    let upper = [switch(8, 4), steps::join(4, 8, 10)];
    ends(&rt, &book, table, &upper, Ok(()))?;
    ends(&rt, &book, procedure, &upper, Ok(()))?;
    let lower = [switch(8, 4), steps::join(4, 8, 9)];
    ends(&rt, &book, table, &lower, Ok(()))?;
    ends(&rt, &book, procedure, &lower, stopped(2))
}

#[test]
fn a_join_wants_alter_on_a_role_and_an_account(rt: HostRuntime) -> Result<(), Fail> {
    let book = two_roles(&rt)?;
    let joins = [
        (steps::join(4, 3, 9), Ok(())),
        (steps::join(4, 3, 1), stopped(0)),
        (steps::join(4, 9, 9), stopped(0)),
        (steps::join(4, 3, 4), stopped(0)),
        (steps::join(3, 3, 9), stopped(0)),
    ];
    for (step, expected) in joins {
        ends(
            &rt,
            &book,
            question(4, HOLD, 4, IMPERSONATE),
            &[step],
            expected,
        )?;
    }
    Ok(())
}

#[test]
fn what_is_created_stands_in_containers_of_mode_parent(rt: HostRuntime) -> Result<(), Fail> {
    let mut book = build(rt.alloc(), &without_alter())??;
    add_calls(&mut book, &[join(4, 2)])?;
    let asked = question(4, HOLD, 3, IMPERSONATE);
    let calls = [
        (call(4, Object::Created(5)), Ok(())),
        (call(4, Object::Created(0)), stopped(0)),
        (call(4, Object::Created(6)), stopped(0)),
        (call(4, Object::Created(255)), stopped(0)),
        (call(4, Object::Triggers(6, Event::Deleted)), Ok(())),
    ];
    for (step, expected) in calls {
        ends(&rt, &book, asked, &[step], expected)?;
    }
    let steps = [call(4, TRIGGERS), switch(4, 1)];
    ends(&rt, &book, asked, &steps, stopped(1))
}

#[test]
fn a_question_names_what_is_listed(rt: HostRuntime) -> Result<(), Fail> {
    let book = build(rt.alloc(), &without_alter())??;
    let questions = [
        (question(9, USE, 3, 0), Refusal::NotListed),
        (question(4, USE, 9, 0), Refusal::NotListed),
        (question(4, USE, 3, 7), Refusal::NotListed),
        (question(4, 2, 3, 0), Refusal::NotListed),
        (question(0, 2, 3, 0), Refusal::NotListed),
        (question(1, USE, 3, 0), Refusal::WrongKind),
    ];
    for (asked, refusal) in questions {
        ends(&rt, &book, asked, &[switch(4, 8)], Err(refusal))?;
    }
    Ok(())
}

#[test]
fn there_are_at_most_4096_steps(rt: HostRuntime) -> Result<(), Fail> {
    let book = build(rt.alloc(), &without_alter())??;
    let asked = question(8, USE, 7, EXECUTE);
    let steps = vec![in rt.alloc(); switch(8, 4); 4097]?;
    let most = &steps[..4096];
    ends(&rt, &book, asked, &steps, Err(Refusal::NoRoom))?;
    let of_a_role = question(1, USE, 7, EXECUTE);
    ends(&rt, &book, of_a_role, &steps, Err(Refusal::WrongKind))?;
    ends(&rt, &book, asked, most, Ok(()))?;
    let held = question(8, HOLD, 7, EXECUTE);
    ends(&rt, &book, held, most, stopped(4096))
}
