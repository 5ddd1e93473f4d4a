// The rows of the pair and of the laboratory.
use crate::books::{laboratory, pair};
use crate::questions::{full, row};
use book::{Book, apply};
use examples::join;
use session::Workspace;
use std::process::Abort;
use std::test::Fail;
use survey::{Comparison, compare, reach};

// Which of the rows of two accounts contains the other.
fn compares(
    rt: &(impl Abort + AllocGlobal),
    book: &Book,
    (first, second): (u8, u8),
    (first_contains, second_contains): (bool, bool),
) -> Result<(), Fail> {
    let mut workspace = Workspace::new(rt.alloc())?;
    book.sound();
    let found = compare(&mut workspace, book, first, second)?;
    assert_eq!(rt; found.first, row(rt, book, first)?);
    assert_eq!(rt; found.second, row(rt, book, second)?);
    let expected = Comparison {
        first_contains,
        second_contains,
    };
    assert_eq!(rt; found.comparison, expected);
    Ok(())
}

#[test]
fn who_may_impersonate_has_the_rights_of_both(rt: HostRuntime) -> Result<(), Fail> {
    let book = pair(&rt)?;
    let of_first = row(&rt, &book, 3)?;
    assert_eq!(rt; of_first, full(3, 4));
    let ones: [u32; 96] = of_first.map(|byte| byte.count_ones());
    assert_eq!(rt; ones.iter().fold(0, |sum: u32, n| sum.wrapping_add(*n)), 14);
    assert_eq!(rt; row(&rt, &book, 4)?, full(4, 4));
    Ok(())
}

#[test]
fn the_row_of_who_may_impersonate_contains_the_other(rt: HostRuntime) -> Result<(), Fail> {
    let book = pair(&rt)?;
    compares(&rt, &book, (3, 4), (true, false))?;
    compares(&rt, &book, (4, 3), (false, true))?;
    compares(&rt, &book, (4, 4), (true, true))
}

#[test]
fn in_the_laboratory_the_row_of_8_contains_that_of_4(rt: HostRuntime) -> Result<(), Fail> {
    let book = laboratory(&rt)?;
    assert_eq!(rt; row(&rt, &book, 4)?, full(3, 7));
    assert_eq!(rt; row(&rt, &book, 8)?, full(3, 8));
    compares(&rt, &book, (8, 4), (true, false))
}

#[test]
fn a_member_of_sysadmin_has_every_right_on_every_entity(rt: HostRuntime) -> Result<(), Fail> {
    let mut book = laboratory(&rt)?;
    apply(&mut book, join(4, 2))?;
    assert_eq!(rt; row(&rt, &book, 4)?, full(0, 8));
    Ok(())
}

#[test]
fn what_a_question_leaves_in_a_workspace_counts_for_no_other(rt: HostRuntime) -> Result<(), Fail> {
    let (larger, smaller) = (laboratory(&rt)?, pair(&rt)?);
    let mut workspace = Workspace::new(rt.alloc())?;
    let mut room = [0; 96];
    larger.sound();
    reach(&mut workspace, &larger, 8, &mut room)?;
    smaller.sound();
    reach(&mut workspace, &smaller, 4, &mut room)?;
    assert_eq!(rt; room, full(4, 4));
    Ok(())
}
