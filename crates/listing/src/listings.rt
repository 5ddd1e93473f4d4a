// The listing of a catalogue: which accounts each can come to act as, and its exposure.
ghost use Rattle.std.specs.Prelude.{◌≡◌, ◌≤◌, List, ℕ, length, take, drop, IfOk, OnErr};
ghost use Rattle.access.specs.Codes.{coded};
ghost use Rattle.catalogue.specs.Sound.{Sound};
ghost use Rattle.holdings.specs.Told.{Told};
ghost use Rattle.session.specs.Models.{lists_of};
ghost use Rattle.listing.specs.Puts.{Puts};
ghost use Rattle.listing.specs.Listings.{accounts_of, size_of, Listing, listing_answer};

use crate::lines::put_line;
use access::{Entity, Refusal};
use catalogue::Catalogue;
use holdings::Holdings;
use session::{Model, Workspace};
use survey::{is_account, row_of};

// How many accounts there are.
#[tactic(auto, using(crate::proofs::Accounts::below_long, crate::proofs::Accounts::long_yes, crate::proofs::Accounts::long_no))]
fn count_accounts(entities: &[Entity]) -> usize
    requires { length entities.now ≤ 96 }
    ensures count { result ≡ length (accounts_of entities.now) }
    ensures bound { result ≤ 96 }
{
    let mut count = 0;
    for n in 0..entities.len() {
        if is_account(entities, n) {
            count += 1;
        }
    }
    count
}

// How many bytes the listing has.
fn size_of(entities: &[Entity]) -> usize
    requires { length entities.now ≤ 96 }
    ensures { result ≡ size_of entities.now }
{
    let count = count_accounts(entities);
    count * (count + 9)
}

// Writes the line of each account of a loaded catalogue.
fn put_lines(model: &Model, tables: &Holdings, room: &mut [u8])
    requires told { Told (lists_of model.now) tables.now }
    requires room { size_of (lists_of model.now).entities ≤ length room.old }
    ensures { (text : List ℕ) × Listing (lists_of model.now) text × Puts 0 text room.old room.new (size_of (lists_of model.now).entities) }
{
    let entities = model.entities();
    let mut at = 0;
    for e in 0..entities.len() {
        if is_account(entities, e) {
            let row = row_of(model, tables, e as u8);
            at = put_line(entities, e, &row, room, at);
        }
    }
}

// Writes the listing to the front of a room, and returns its length.
pub fn listing<C: Catalogue>(
    workspace: &mut Workspace,
    catalogue: &C,
    room: &mut [u8],
) -> Result<usize, Refusal>
    requires { Sound (C.meaning catalogue.now) }
    ensures answer { coded result ≡ listing_answer (C.meaning catalogue.now).entities (length room.old) }
    ensures text { IfOk result (λ n. Listing (C.meaning catalogue.now) (take n room.new)) }
    ensures rest { IfOk result (λ n. drop n room.new ≡ drop n room.old) }
    ensures len { length room.new ≡ length room.old }
    ensures refused { OnErr result (room.new ≡ room.old) }
{
    workspace.model.load(catalogue);
    let size = size_of(workspace.model.entities());
    if room.len() < size {
        return Err(Refusal::NoRoom);
    }
    let tables = Holdings::of(&workspace.model);
    put_lines(&workspace.model, &tables, room);
    Ok(size)
}
