// How a book is asked, and how its steps are tried.
use access::{QuestionNumbers, Refusal};
use book::Book;
use replay::replay;
use runs::Step;
use session::Workspace;
use std::process::Abort;
use std::test::Fail;
use survey::reach;
use witness::witness;

// What a room holds before it is lent: no step that is a witness.
pub const MARK: Step = Step::Switch {
    actor: 255,
    to: 255,
};

// The row of an account.
pub fn row(rt: &impl AllocGlobal, book: &Book, account: u8) -> Result<[u8; 96], Fail> {
    let mut workspace = Workspace::new(rt.alloc())?;
    let mut room = [255; 96];
    book.sound();
    reach(&mut workspace, book, account, &mut room)?;
    Ok(room)
}

// A row with every right on the entities from the first to the last.
pub fn full(first: usize, last: usize) -> [u8; 96] {
    let mut row = [0; 96];
    for (e, byte) in row.iter_mut().enumerate() {
        if first <= e && e <= last {
            *byte = 127;
        }
    }
    row
}

// Whether a replay accepts the steps.
fn accepts(
    workspace: &mut Workspace,
    book: &Book,
    question: QuestionNumbers,
    steps: &[Step],
) -> bool {
    book.sound();
    replay(workspace, book, question, steps) == Ok(())
}

// A replay accepts the steps, and refuses them without any one of them.
fn is_missed(
    rt: &(impl Abort + AllocGlobal),
    book: &Book,
    question: QuestionNumbers,
    steps: &[Step],
) -> Result<(), Fail> {
    let mut workspace = Workspace::new(rt.alloc())?;
    assert!(rt; accepts(&mut workspace, book, question, steps));
    for i in 0..steps.len() {
        let mut others = steps.to_vec(rt.alloc())?;
        others.remove(i);
        assert!(rt; !accepts(&mut workspace, book, question, &others));
    }
    Ok(())
}

// So many steps are found, each of them is missed, and the places past them stay; without a number, none and every place stays.
pub fn comes(
    rt: &(impl Abort + AllocGlobal),
    book: &Book,
    question: QuestionNumbers,
    expected: Option<usize>,
) -> Result<(), Fail> {
    let mut workspace = Workspace::new(rt.alloc())?;
    let mut room = vec![in rt.alloc(); MARK; 4100]?;
    book.sound();
    let found = witness(&mut workspace, book, question, &mut room);
    assert_eq!(rt; found, Ok(expected));
    let count = expected.unwrap_or(0);
    assert!(rt; room.iter().skip(count).all(|step| *step == MARK));
    if expected.is_some() {
        let steps = room.get(..count).ok_or("a place for each step")?;
        is_missed(rt, book, question, steps)?;
    }
    Ok(())
}
