// The rows of accounts of any catalogue, and what they tell.
ghost use Rattle.std.specs.Prelude.{◌≡◌, ◌≤◌, [], ◌∷◌, length, take, drop, OnOk, OnErr, Ok, Err, MatchResult};
ghost use Rattle.access.specs.declared.entities.Kind.TheVariants.{Account};
ghost use Rattle.access.specs.Codes.{code, coded};
ghost use Rattle.catalogue.specs.Sound.{Sound};
ghost use Rattle.runs.specs.Standing.{Is};
ghost use Rattle.holdings.specs.Told.{Told};
ghost use Rattle.session.specs.Models.{lists_of};
ghost use Rattle.survey.specs.Judged.{judged_accounts, judged_row};
ghost use Rattle.survey.specs.Used.{IsRow};
ghost use Rattle.survey.specs.Pairs.{Paired};

use crate::accounts::judge_accounts;
use crate::comparing::{Comparison, compare_rows};
use crate::writing::row_of;
use access::Refusal;
use catalogue::Catalogue;
use holdings::Holdings;
use rows::WIDTH;
use session::{Model, Workspace};

// The rows of two accounts, and which of them contains the other.
#[derive(Clone, Copy, Debug, PartialEq, Eq)]
pub struct Pair {
    pub first: [u8; WIDTH],
    pub second: [u8; WIDTH],
    pub comparison: Comparison,
}

// The rows of two accounts of a loaded catalogue.
fn pair_of(model: &Model, tables: &Holdings, first: u8, second: u8) -> Pair
    requires told { Told (lists_of model.now) tables.now }
    requires first { Is (lists_of model.now) Account first }
    requires second { Is (lists_of model.now) Account second }
    ensures { Paired (lists_of model.now) first second result }
{
    let first_row = row_of(model, tables, first);
    let second_row = row_of(model, tables, second);
    let comparison = compare_rows(&first_row, &second_row);
    Pair {
        first: first_row,
        second: second_row,
        comparison,
    }
}

// Writes the row of an account to the front of a room.
pub fn reach<C: Catalogue>(
    workspace: &mut Workspace,
    catalogue: &C,
    account: u8,
    room: &mut [u8],
) -> Result<(), Refusal>
    requires { Sound (C.meaning catalogue.now) }
    ensures answer { coded result ≡ judged_row (C.meaning catalogue.now).entities account (length room.old) }
    ensures row { OnOk result (IsRow (C.meaning catalogue.now) account (take 96 room.new)) }
    ensures rest { drop 96 room.new ≡ drop 96 room.old }
    ensures len { length room.new ≡ length room.old }
    ensures refused { OnErr result (room.new ≡ room.old) }
{
    workspace.model.load(catalogue);
    judge_accounts(workspace.model.entities(), &[account])?;
    if room.len() < WIDTH {
        return Err(Refusal::NoRoom);
    }
    let tables = Holdings::of(&workspace.model);
    let row = row_of(&workspace.model, &tables, account);
    room[..WIDTH].copy_from_slice(&row);
    Ok(())
}

// The rows of two accounts, and which of them contains the other.
pub fn compare<C: Catalogue>(
    workspace: &mut Workspace,
    catalogue: &C,
    first: u8,
    second: u8,
) -> Result<Pair, Refusal>
    requires { Sound (C.meaning catalogue.now) }
    ensures { MatchResult result (λ pair. (judged_accounts (C.meaning catalogue.now).entities (first ∷ second ∷ []) ≡ Ok tt) × Paired (C.meaning catalogue.now) first second pair) (λ refusal. judged_accounts (C.meaning catalogue.now).entities (first ∷ second ∷ []) ≡ Err (code refusal)) }
{
    workspace.model.load(catalogue);
    judge_accounts(workspace.model.entities(), &[first, second])?;
    let tables = Holdings::of(&workspace.model);
    Ok(pair_of(&workspace.model, &tables, first, second))
}
