// The books that more than one test asks of.
use book::{Book, Call, apply};
use examples::{build, laboratory_calls, pair_calls, without_alter};
use std::test::Fail;

// Accounts 3 and 4, of which the first may impersonate the second.
pub fn pair(rt: &impl AllocGlobal) -> Result<Book, Fail> {
    Ok(build(rt.alloc(), &pair_calls())??)
}

pub fn laboratory(rt: &impl AllocGlobal) -> Result<Book, Fail> {
    Ok(build(rt.alloc(), &laboratory_calls())??)
}

pub fn laboratory_without_alter(rt: &impl AllocGlobal) -> Result<Book, Fail> {
    Ok(build(rt.alloc(), &without_alter())??)
}

// A book of calls, with one call in place of another.
pub fn changed(rt: &impl AllocGlobal, calls: &[Call], old: Call, new: Call) -> Result<Book, Fail> {
    let mut book = Book::new(rt.alloc())?;
    for call in calls {
        let made = if *call == old { new } else { *call };
        apply(&mut book, made)?;
    }
    Ok(book)
}
