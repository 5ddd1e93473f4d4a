// How much of all that there is the sessions of an account can come to use.
ghost use Rattle.std.specs.Prelude.{◌≡◌, ◌*◌, ◌≤◌, ◌<◌, [], ◌∷◌, length, Ok, Err, MatchResult};
ghost use Rattle.access.specs.Bits.{bit};
ghost use Rattle.access.specs.Codes.{code};
ghost use Rattle.catalogue.specs.Sound.{Sound};
ghost use Rattle.survey.specs.Judged.{judged_accounts};
ghost use Rattle.listing.specs.Exposures.{ones_of, ones, share, Exposed};

use access::Refusal;
use catalogue::Catalogue;
use holdings::Holdings;
use rows::WIDTH;
use session::Workspace;
use survey::{judge_accounts, row_of};

// Whether a byte of a row has the right of a number.
#[tactic(auto, using(access::proofs::BitLaws::bit_test))]
pub(crate) fn has(byte: u8, k: u8) -> bool
    requires { k < 8 }
    ensures { result ≡ bit byte k }
{
    (byte >> k) & 1 == 1
}

// How many rights a byte of a row has.
#[tactic(auto, using(crate::proofs::Counting::ones_counted, crate::proofs::Counting::ones_counted_few))]
fn ones_of(byte: u8) -> usize
    ensures count { result ≡ ones_of byte }
    ensures bound { result ≤ 7 }
{
    (byte & 0b111_1111).count_ones() as usize
}

// How many ones a row has.
fn ones(row: &[u8; WIDTH]) -> usize
    ensures count { result ≡ ones row.now }
    ensures bound { result ≤ 672 }
{
    row.iter().map(|byte| ones_of(*byte)).sum()
}

// A count of ones in thousandths of the places for ones.
fn share(count: usize, entities: usize) -> u16
    requires count { count ≤ 672 }
    requires entities { (3 ≤ entities) × (entities ≤ 96) }
    ensures { result ≡ share count entities }
{
    (count * 1000 / (7 * entities)) as u16
}

// The exposure of the account of a row.
pub(crate) fn exposure_of(row: &[u8; WIDTH], entities: usize) -> u16
    requires { (3 ≤ entities) × (entities ≤ 96) }
    ensures { result ≡ share (ones row.now) entities }
{
    share(ones(row), entities)
}

// The exposure of an account.
pub fn exposure<C: Catalogue>(
    workspace: &mut Workspace,
    catalogue: &C,
    account: u8,
) -> Result<u16, Refusal>
    requires { Sound (C.meaning catalogue.now) }
    ensures { MatchResult result (λ x. (judged_accounts (C.meaning catalogue.now).entities (account ∷ []) ≡ Ok tt) × Exposed (C.meaning catalogue.now) account x) (λ refusal. judged_accounts (C.meaning catalogue.now).entities (account ∷ []) ≡ Err (code refusal)) }
{
    workspace.model.load(catalogue);
    judge_accounts(workspace.model.entities(), &[account])?;
    let tables = Holdings::of(&workspace.model);
    let row = row_of(&workspace.model, &tables, account);
    Ok(exposure_of(&row, workspace.model.entities().len()))
}
