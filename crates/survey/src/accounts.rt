// Of which accounts rows are asked.
ghost use Rattle.std.specs.Prelude.{◌≡◌};
ghost use Rattle.std.specs.List.{list_all};
ghost use Rattle.access.specs.Codes.{coded};
ghost use Rattle.access.specs.Lists.{stands as stands_in, fits, is_account};
ghost use Rattle.survey.specs.Judged.{judged_accounts};

use access::{Entity, Kind, Refusal};
use catalogue::stands;

// Whether there is an account of the number.
pub fn is_account(entities: &[Entity], n: usize) -> bool
    ensures { result ≡ fits is_account entities.now n }
{
    entities
        .get(n)
        .is_some_and(|entity| entity.kind == Kind::Account)
}

// Whether there is an entity of each number.
fn all_stand(entities: &[Entity], numbers: &[u8]) -> bool
    ensures { result ≡ list_all (λ n. stands_in entities.now n) numbers.now }
{
    numbers.iter().all(|n| stands(entities, *n))
}

// Whether there is an account of each number.
fn are_accounts(entities: &[Entity], numbers: &[u8]) -> bool
    ensures { result ≡ list_all (λ n. fits is_account entities.now n) numbers.now }
{
    numbers.iter().all(|n| is_account(entities, *n as usize))
}

// Whether the numbers are of accounts, or why they are declined.
pub fn judge_accounts(entities: &[Entity], numbers: &[u8]) -> Result<(), Refusal>
    ensures { coded result ≡ judged_accounts entities.now numbers.now }
{
    if !all_stand(entities, numbers) {
        return Err(Refusal::NotListed);
    }
    if !are_accounts(entities, numbers) {
        return Err(Refusal::WrongKind);
    }
    Ok(())
}
