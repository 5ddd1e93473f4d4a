// What an account gains by planting lines that others follow.
ghost use Rattle.std.specs.Prelude.{◌≡◌, ℕ, ◌<◌, true, ◌&&◌, Decides};
ghost use Rattle.access.specs.declared.code.Object.{Object};
ghost use Rattle.access.specs.declared.entities.Kind.TheVariants.{Account};
ghost use Rattle.access.specs.Bits.{bit};
ghost use Rattle.access.specs.Places.{place_of};
ghost use Rattle.lookup.specs.Tables.{sort_number};
ghost use Rattle.runs.specs.Standing.{Is, IsObject};
ghost use Rattle.session.specs.Models.{lists_of};
ghost use Rattle.holdings.specs.Told.{Told};
ghost use Rattle.extent.specs.Shows.{Came};
ghost use Rattle.extent.specs.Growth.{Grown};
ghost use Rattle.extent.specs.Tests.{held, entry};
ghost use Rattle.extent.specs.Turns.{Enters, Lent, Peers};

use crate::beginning::ALTER;
use crate::extents::Extent;
use grid::{both, either, without};
use holdings::Holdings;
use order::Bits;
use session::Model;

// Whether two sets have something in common.
fn meet(first: u128, second: u128) -> bool
    ensures { Decides result ((v : ℕ) × (bit first v ≡ true) × (bit second v ≡ true)) }
{
    both(first, second) != 0
}

// The entities that have an owner in common with one of these.
fn peers(model: &Model, tables: &Holdings, entities: u128) -> u128
    requires { Told (lists_of model.now) tables.now }
    ensures { (d : ℕ) → Decides (bit result d) ((e : ℕ) × (bit entities e ≡ true) × Peers (lists_of model.now) e d) }
{
    let mut all = 0;
    for owner in Bits(tables.owners) {
        let owned = tables.owned.row(owner);
        if meet(owned, entities) {
            all = either(all, owned);
        }
    }
    all
}

impl Extent {
    // Whether an account entered an object in one of these places.
    fn entered_in(&self, account: usize, places: u128) -> bool
        requires { account < 96 }
        ensures { Decides result ((x : Object) × (entry self.now x account ≡ true) × (bit places (place_of x) ≡ true)) }
    {
        for sort in 0..5 {
            if meet(self.entered.row(account + 96 * sort), places) {
                return true;
            }
        }
        false
    }

    // Where the account can plant in what somebody entered.
    fn footholds(&self, tables: &Holdings, account: u8) -> u128
        ensures { (e : ℕ) → bit result e ≡ (held tables.now self.now account 4 e && bit self.now.places e) }
    {
        both(self.held(tables, account, ALTER), self.places)
    }

    // Acts as every account that entered an object in which the account can plant.
    pub(crate) fn take(&mut self, model: &Model, tables: &Holdings, account: u8)
        requires account { Is (lists_of model.now) Account account }
        requires told { Told (lists_of model.now) tables.now }
        requires came { Came (lists_of model.now) self.old }
        requires acted { bit self.old.acted account ≡ true }
        ensures came { Came (lists_of model.now) self.new }
        ensures grown { Grown self.old self.new }
        ensures done { (x : Object) (v : ℕ) → Is (lists_of model.now) Account v → entry self.old x v ≡ true → held tables.now self.old account 4 (place_of x) ≡ true → bit self.new.acted v ≡ true }
    {
        let footholds = self.footholds(tables, account);
        if footholds == 0 {
            return;
        }
        for v in Bits(without(tables.accounts, self.acted)) {
            if self.entered_in(v, footholds) {
                self.act(v);
            }
        }
    }

    // Lets an account enter all objects in these places.
    fn lend_to(&mut self, model: &Model, tables: &Holdings, places: u128, account: u8)
        requires account { Is (lists_of model.now) Account account }
        requires told { Told (lists_of model.now) tables.now }
        requires came { Came (lists_of model.now) self.old }
        requires enters { (x : Object) → IsObject (lists_of model.now) x → bit places (place_of x) ≡ true → Enters (lists_of model.now) self.old x account }
        ensures came { Came (lists_of model.now) self.new }
        ensures grown { Grown self.old self.new }
        ensures there { (x : Object) → IsObject (lists_of model.now) x → bit places (place_of x) ≡ true → entry self.new x account ≡ true }
    {
        for sort in 0..5 {
            let objects = both(places, tables.objects.row(sort));
            self.enter_all(model, sort, objects, account);
        }
    }

    // Lets all accounts acted as enter what belongs to the owners of places where one can plant and somebody entered.
    pub(crate) fn lend(&mut self, model: &Model, tables: &Holdings)
        requires told { Told (lists_of model.now) tables.now }
        requires came { Came (lists_of model.now) self.old }
        ensures came { Came (lists_of model.now) self.new }
        ensures grown { Grown self.old self.new }
        ensures done { Lent (lists_of model.now) tables.now self.old self.new }
    {
        let footholds = both(self.held_by_any(tables, ALTER), self.places);
        if footholds == 0 {
            return;
        }
        let places = peers(model, tables, footholds);
        for u in Bits(self.acted) {
            self.lend_to(model, tables, places, u as u8);
        }
    }
}
