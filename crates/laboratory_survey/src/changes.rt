// The changes that make the laboratory, and the same without one right, or with it proposed.
use access::RightNumbers;
use examples::{laboratory_calls, without_alter};
use layer::Change;
use std::alloc::{AllocError, Global};

// The right of account 4 to alter the table.
const ALTER: RightNumbers = RightNumbers {
    principal: 4,
    entity: 6,
    right: 4,
    option: 0,
};

pub fn laboratory() -> [Change; 10] {
    laboratory_calls().map(Change::Build)
}

pub fn without_right() -> [Change; 9] {
    without_alter().map(Change::Build)
}

pub fn with_proposal(heap: Global) -> Result<Vec<Change>, AllocError> {
    without_right()
        .into_iter()
        .chain([Change::ProposeRight(ALTER)])
        .collect(heap)
}
