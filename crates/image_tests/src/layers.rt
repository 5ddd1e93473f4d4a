// A layer stands over the reader of an image as over any other catalogue.
use crate::samples::PAIRS;
use access::{Refusal, RightNumbers};
use book::Book;
use catalogue::{Catalogue, ListName};
use image::read;
use layer::Layer;
use std::test::Fail;

#[test]
fn proposals_stand_after_the_records_of_an_image(rt: HostRuntime) -> Result<(), Fail> {
    let mut scratch = Book::new(rt.alloc())?;
    let mut layer = Layer::new(rt.alloc(), read(&mut scratch, &PAIRS)?)?;
    let listed = RightNumbers {
        principal: 4,
        entity: 3,
        right: 6,
        option: 1,
    };
    let unlisted = RightNumbers {
        principal: 9,
        ..listed
    };
    assert_eq!(rt; layer.propose_right(listed), Ok(0));
    assert_eq!(rt; layer.propose_right(unlisted), Err(Refusal::NotListed));
    assert!(rt; layer.count(ListName::Rights) == 2);
    assert!(rt; layer.right_at(0).is_some_and(|r| r.principal == 3));
    assert!(rt; layer.right_at(1).is_some_and(|r| r.principal == 4));
    assert!(rt; layer.withdraw());
    assert!(rt; layer.count(ListName::Rights) == 1);
    Ok(())
}
