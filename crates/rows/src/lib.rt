// The rows of accounts: their union, and whether two are equal.
#![tactic(auto)]

ghost use Rattle.std.specs.Prelude.{◌≡◌, ◌≤◌, [], ◌∷◌, length, take, drop, bytes_eq, Decides, is_ok, OnOk, OnErr, IfOk, IfErr};
ghost use Rattle.access.specs.declared.refusals.Refusal.TheVariants.{NoRoom};
ghost use Rattle.access.specs.Codes.{code, coded};
ghost use Rattle.rows.specs.Rows.{has_row, row_answer, IsUnion};

#[cfg(test)]
mod tests;

use access::Refusal;

// How many bytes a row has.
pub const WIDTH: usize = 96;

// The row at the front of the bytes.
fn row_of(bytes: &[u8]) -> Result<&[u8], Refusal>
    ensures fits { is_ok result ≡ has_row bytes.now }
    ensures row { IfOk result (λ row. (length row.now ≡ 96) × (row.now ≡ take 96 bytes.now)) }
    ensures room { OnOk result (96 ≤ length bytes.now) }
    ensures refused { IfErr result (λ refusal. code refusal ≡ code NoRoom) }
{
    bytes.get(..WIDTH).ok_or(Refusal::NoRoom)
}

// Fills the room of a row with the union of two rows.
fn put_union(first: &[u8], second: &[u8], room: &mut [u8])
    requires { (length first.now ≡ 96) × (length second.now ≡ 96) × (length room.old ≡ 96) }
    ensures union { IsUnion first.now second.now room.new }
    ensures len { length room.new ≡ 96 }
{
    // Kept: bytes by their entity's number; after `zip` over `iter_mut` a proof knows no byte of the room.
    for (e, place) in room.iter_mut().enumerate() {
        *place = first[e] | second[e];
    }
}

// Writes the union of two rows to the front of a room.
pub fn unite(first: &[u8], second: &[u8], room: &mut [u8]) -> Result<(), Refusal>
    ensures answer { coded result ≡ row_answer (first.now ∷ second.now ∷ room.old ∷ []) tt }
    ensures union { OnOk result (IsUnion first.now second.now room.new) }
    ensures rest { drop 96 room.new ≡ drop 96 room.old }
    ensures len { length room.new ≡ length room.old }
    ensures refused { OnErr result (room.new ≡ room.old) }
{
    let (first, second) = (row_of(first)?, row_of(second)?);
    row_of(room)?;
    put_union(first, second, &mut room[..WIDTH]);
    Ok(())
}

// Whether two rows are equal.
pub fn same(first: &[u8], second: &[u8]) -> Result<bool, Refusal>
    ensures answer { coded result ≡ row_answer (first.now ∷ second.now ∷ []) (bytes_eq (take 96 first.now) (take 96 second.now)) }
    ensures equal { IfOk result (λ equal. Decides equal (take 96 first.now ≡ take 96 second.now)) }
{
    Ok(row_of(first)? == row_of(second)?)
}
