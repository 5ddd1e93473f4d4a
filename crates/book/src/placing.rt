// How a record comes into a table of a book.
ghost use Rattle.std.specs.Prelude.{◌≡◌, ◌≤◌, vec_capacity};
ghost use Rattle.access.specs.Codes.{coded};
ghost use Rattle.catalogue.specs.Tables.{placed};

use access::Refusal;
use catalogue::{Same, find};

// Puts a record at the end of a table that has memory for `limit` records, unless one like it stands there; returns its number.
pub(crate) fn place<T: Same + Copy>(
    table: &mut Vec<T>,
    x: T,
    limit: usize,
) -> Result<usize, Refusal>
    requires { limit ≤ vec_capacity table.old }
    ensures answer { coded result ≡ (placed T.Same.alike limit table.old.items x).0 }
    ensures items { table.new.items ≡ (placed T.Same.alike limit table.old.items x).1 }
    ensures capacity { vec_capacity table.new ≡ vec_capacity table.old }
{
    if let Some(n) = find(table.as_slice(), &x) {
        return Ok(n);
    }
    let n = table.len();
    if n >= limit {
        return Err(Refusal::Full);
    }
    table.push_reserved(x);
    Ok(n)
}
