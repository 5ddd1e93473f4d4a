// What the tests share.
use access::{Refusal, RightNumbers};
use assess::{Assessment, assess};
use book::Book;
use examples::{laboratory_calls, without_alter};
use layer::{Change, Layer, Response};
use session::Workspace;
use std::alloc::{AllocError, Global};
use survey::Comparison;

// Account 4 may change the table's code, and so what account 3 runs.
pub const ALTER: RightNumbers = RightNumbers {
    principal: 4,
    entity: 6,
    right: 4,
    option: 0,
};

pub const FIRST_CONTAINS: Comparison = Comparison {
    first_contains: true,
    second_contains: false,
};

pub const NONE_CONTAINS: Comparison = Comparison {
    first_contains: false,
    second_contains: false,
};

pub fn laboratory() -> [Change; 10] {
    laboratory_calls().map(Change::Build)
}

// The laboratory, where account 4 may not change the table's code, and then these changes.
pub fn without_alter_then(heap: Global, more: &[Change]) -> Result<Vec<Change>, AllocError> {
    without_alter()
        .into_iter()
        .map(Change::Build)
        .chain(more.iter().copied())
        .collect(heap)
}

// Assesses two accounts on a new layer, with room for a response to each change.
pub fn assess_new(
    heap: Global,
    changes: &[Change],
    first: u8,
    second: u8,
) -> Result<Result<Assessment, Refusal>, AllocError> {
    let mut workspace = Workspace::new(heap)?;
    let mut layer = Layer::new(heap, Book::new(heap)?)?;
    let mut responses = vec![in heap; Response::Withdrawn(false); changes.len()]?;
    let compared = assess(
        &mut workspace,
        &mut layer,
        changes,
        &mut responses,
        first,
        second,
    );
    Ok(compared.and_then(|compared| compared))
}
