// Sets of numbers as bits.
ghost use Rattle.std.specs.Prelude.{◌≡◌, ℕ, ◌<◌, true, not, ◌&&◌, ◌||◌, ◌==◌, Decides};
ghost use Rattle.access.specs.Bits.{bit};
ghost use Rattle.access.specs.declared.entities.Kind.TheVariants.{Account};
ghost use Rattle.runs.specs.Standing.{Is, Owns};
ghost use Rattle.session.specs.Models.{lists_of};
ghost use Rattle.saturation.specs.Among.{AllAccounts, HasOwner};

use access::Kind;
use fitting::is_kind;
use order::has_bit;
use session::Model;

// The set with one number more; past the end it stays as it is.
pub fn with(bits: u128, x: u8) -> u128
    ensures { (v : ℕ) → v < 128 → bit result v ≡ (bit bits v || v == x) }
{
    if x < 128 { bits | 1 << x } else { bits }
}

// The set with one account more, if there is an account of the number.
fn with_account(model: &Model, bits: u128, x: u8) -> u128
    ensures kept { (v : ℕ) → v < 128 → bit bits v ≡ true → bit result v ≡ true }
    ensures more { x < 128 → Is (lists_of model.now) Account x → bit result x ≡ true }
{
    if is_kind(model, x, Kind::Account) {
        with(bits, x)
    } else {
        bits
    }
}

// The accounts of a loaded catalogue.
pub fn accounts_of(model: &Model) -> u128
    ensures { AllAccounts (lists_of model.now) result }
{
    let mut accounts = 0;
    for x in 0..96 {
        accounts = with_account(model, accounts, x);
    }
    accounts
}

// Whether the owner of an entity is in the set.
pub fn owner_is_in(model: &Model, owners: u128, entity: u8) -> bool
    ensures { Decides result (HasOwner (lists_of model.now) owners entity) }
{
    model
        .entities()
        .get(entity as usize)
        .is_some_and(|e| has_bit(owners, e.owner as usize))
}

// The set with the owner of an entity more.
pub fn with_owner(model: &Model, owners: u128, entity: u8) -> u128
    ensures kept { (v : ℕ) → v < 128 → bit owners v ≡ true → bit result v ≡ true }
    ensures more { (w : ℕ) → w < 128 → Owns (lists_of model.now) w entity → bit result w ≡ true }
{
    match model.entities().get(entity as usize) {
        Some(e) => with(owners, e.owner),
        None => owners,
    }
}
