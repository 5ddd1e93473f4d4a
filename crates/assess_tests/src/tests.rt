// Each test assesses accounts on a layer of its own.
use crate::samples::{
    ALTER, FIRST_CONTAINS, NONE_CONTAINS, assess_new, laboratory, without_alter_then,
};
use access::Refusal;
use assess::assess;
use book::Book;
use catalogue::{Catalogue, ListName};
use layer::{Change, Layer, Response};
use session::Workspace;
use std::test::Fail;

const UNWRITTEN: Response = Response::Withdrawn(true);

#[test]
fn account_4_comes_to_act_as_3(rt: HostRuntime) -> Result<(), Fail> {
    let changes = laboratory();
    let found = assess_new(rt.alloc(), &changes, 4, 3)??;
    assert_eq!(rt; found.through_layer.comparison, FIRST_CONTAINS);
    assert_eq!(rt; found.through_book.comparison, FIRST_CONTAINS);
    Ok(())
}

#[test]
fn the_row_of_8_contains_that_of_4(rt: HostRuntime) -> Result<(), Fail> {
    let changes = laboratory();
    let found = assess_new(rt.alloc(), &changes, 8, 4)??;
    let pair = found.through_book;
    assert_eq!(rt; pair.comparison, FIRST_CONTAINS);
    assert_ne!(rt; pair.first, pair.second);
    assert!(rt;
        pair.first
            .iter()
            .zip(&pair.second)
            .all(|(x, y)| x | y == *x)
    );
    Ok(())
}

#[test]
fn without_the_right_none_acts_as_the_other(rt: HostRuntime) -> Result<(), Fail> {
    let changes = without_alter_then(rt.alloc(), &[])?;
    assert_eq!(rt; changes.len(), 9);
    let found = assess_new(rt.alloc(), &changes, 4, 3)??;
    assert_eq!(rt; found.through_layer.comparison, NONE_CONTAINS);
    assert_eq!(rt; found.through_book.comparison, NONE_CONTAINS);
    Ok(())
}

#[test]
fn a_proposed_right_counts_through_the_layer_alone(rt: HostRuntime) -> Result<(), Fail> {
    let proposed = [Change::ProposeRight(ALTER)];
    let mut changes = without_alter_then(rt.alloc(), &proposed)?;
    let found = assess_new(rt.alloc(), &changes, 4, 3)??;
    assert_eq!(rt; found.through_layer.comparison, FIRST_CONTAINS);
    assert_eq!(rt; found.through_book.comparison, NONE_CONTAINS);
    changes.push(Change::Withdraw)?;
    let found = assess_new(rt.alloc(), &changes, 4, 3)??;
    assert_eq!(rt; found.through_layer.comparison, NONE_CONTAINS);
    Ok(())
}

#[test]
fn too_little_room_leaves_the_layer(rt: HostRuntime) -> Result<(), Fail> {
    let mut workspace = Workspace::new(rt.alloc())?;
    let mut layer = Layer::new(rt.alloc(), Book::new(rt.alloc())?)?;
    let changes = without_alter_then(rt.alloc(), &[Change::ProposeRight(ALTER)])?;
    let mut responses = [UNWRITTEN; 10];
    let first = assess(&mut workspace, &mut layer, &changes, &mut responses, 4, 3);
    assert!(rt; first.is_ok());
    let mut short = [UNWRITTEN; 9];
    let second = assess(
        &mut workspace,
        &mut layer,
        &laboratory(),
        &mut short,
        200,
        3,
    );
    assert_eq!(rt; second, Err(Refusal::NoRoom));
    assert!(rt; short == [UNWRITTEN; 9]);
    assert_eq!(rt; layer.below().count(ListName::Rights), 2);
    assert!(rt; layer.withdraw());
    Ok(())
}

#[test]
fn the_changes_are_made_though_an_account_is_declined(rt: HostRuntime) -> Result<(), Fail> {
    let mut workspace = Workspace::new(rt.alloc())?;
    let mut layer = Layer::new(rt.alloc(), Book::new(rt.alloc())?)?;
    let changes = laboratory();
    let mut responses = [UNWRITTEN; 11];
    let found = assess(&mut workspace, &mut layer, &changes, &mut responses, 4, 9);
    assert_eq!(rt; found?, Err(Refusal::NotListed));
    let numbers = [3, 4, 5, 6, 7, 8, 0, 0, 1, 2];
    assert!(rt; responses.starts_with(&numbers.map(|n| Response::Answered(Ok(n)))));
    assert!(rt; responses[10] == UNWRITTEN);
    assert_eq!(rt; layer.below().count(ListName::Entities), 9);
    Ok(())
}

#[test]
fn only_accounts_are_assessed(rt: HostRuntime) -> Result<(), Fail> {
    let changes = laboratory();
    for (first, second) in [(1, 4), (4, 2), (6, 4)] {
        let found = assess_new(rt.alloc(), &changes, first, second)?;
        assert_eq!(rt; found, Err(Refusal::WrongKind));
    }
    let found = assess_new(rt.alloc(), &changes, 2, 9)?;
    assert_eq!(rt; found, Err(Refusal::NotListed));
    Ok(())
}
