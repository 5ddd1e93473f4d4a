// Books of calls.
ghost use Rattle.std.specs.Prelude.{◌≡◌, fold, IfOk, OnOk};
ghost use Rattle.book.specs.Gathered.{called, lists_after};
ghost use Rattle.book.specs.Meaning.{lists_of};

use crate::calls::{declare, grant};
use crate::numbers::IMPERSONATE;
use access::Refusal;
use book::{Book, Call, apply};
use std::alloc::{AllocError, Global};

// Accounts 3 and 4, of which the first may impersonate the second.
pub fn pair_calls() -> [Call; 3] {
    [
        declare(3, 0, 3, 0),
        declare(3, 0, 4, 0),
        grant(3, 4, IMPERSONATE, 0),
    ]
}

// Makes one call after the other on a book, up to the first that is refused.
pub fn add_calls(book: &mut Book, calls: &[Call]) -> Result<(), Refusal>
    ensures { OnOk result (lists_of book.new ≡ fold (λ l c. (called l c).lists) (lists_of book.old) calls.now) }
{
    for call in calls {
        apply(book, *call)?;
    }
    Ok(())
}

// A new book, with these calls made on it.
pub fn build(heap: Global, calls: &[Call]) -> Result<Result<Book, Refusal>, AllocError>
    ensures { IfOk result (λ made. IfOk made (λ book. lists_of book ≡ lists_after calls.now)) }
{
    let mut book = Book::new(heap)?;
    if let Err(refusal) = add_calls(&mut book, calls) {
        return Ok(Err(refusal));
    }
    Ok(Ok(book))
}
