// The single steps that an account begins.
ghost use Rattle.std.specs.Prelude.{◌≡◌, ℕ, ◌<◌, true};
ghost use Rattle.access.specs.declared.code.Object.{Object};
ghost use Rattle.access.specs.declared.entities.Kind.TheVariants.{Account, Role};
ghost use Rattle.access.specs.Bits.{bit};
ghost use Rattle.access.specs.Numbers.{right_number};
ghost use Rattle.access.specs.Places.{place_of};
ghost use Rattle.grid.specs.Grids.{noted};
ghost use Rattle.lookup.specs.Tables.{sort_number};
ghost use Rattle.runs.specs.Standing.{Is, IsObject, entry_right};
ghost use Rattle.session.specs.Models.{lists_of};
ghost use Rattle.holdings.specs.Told.{Told};
ghost use Rattle.extent.specs.Shows.{Came};
ghost use Rattle.extent.specs.Growth.{Grown};
ghost use Rattle.extent.specs.Tests.{held, may, entry};

use crate::extents::Extent;
use grid::{both, without};
use holdings::{Holdings, right_of};
use order::Bits;
use session::Model;

// The numbers of the rights to alter and to impersonate.
pub(crate) const ALTER: usize = 4;

pub(crate) const IMPERSONATE: usize = 6;

impl Extent {
    // Acts as every account that the account may impersonate.
    pub(crate) fn switch(&mut self, model: &Model, tables: &Holdings, account: u8)
        requires account { Is (lists_of model.now) Account account }
        requires told { Told (lists_of model.now) tables.now }
        requires came { Came (lists_of model.now) self.old }
        requires acted { bit self.old.acted account ≡ true }
        ensures came { Came (lists_of model.now) self.new }
        ensures grown { Grown self.old self.new }
        ensures done { (v : ℕ) → Is (lists_of model.now) Account v → held tables.now self.old account 6 v ≡ true → bit self.new.acted v ≡ true }
    {
        let open = both(self.held(tables, account, IMPERSONATE), tables.accounts);
        let more = without(open, self.acted);
        for v in Bits(more) {
            self.act(v);
        }
    }

    // Gives everyone right k wherever the account may grant it.
    fn grant(&mut self, model: &Model, tables: &Holdings, account: u8, k: usize)
        requires small { k < 7 }
        requires account { Is (lists_of model.now) Account account }
        requires told { Told (lists_of model.now) tables.now }
        requires came { Came (lists_of model.now) self.old }
        requires acted { bit self.old.acted account ≡ true }
        ensures came { Came (lists_of model.now) self.new }
        ensures grown { Grown self.old self.new }
        ensures done { (e : ℕ) → may tables.now self.old account k e ≡ true → noted self.new.given.rows k e ≡ true }
    {
        let more = without(self.may(tables, account, k), self.given.row(k));
        for entity in Bits(more) {
            self.give(tables, k, entity);
        }
    }

    // Gives everyone all that the account may grant.
    pub(crate) fn grants(&mut self, model: &Model, tables: &Holdings, account: u8)
        requires account { Is (lists_of model.now) Account account }
        requires told { Told (lists_of model.now) tables.now }
        requires came { Came (lists_of model.now) self.old }
        requires acted { bit self.old.acted account ≡ true }
        ensures came { Came (lists_of model.now) self.new }
        ensures grown { Grown self.old self.new }
        ensures done { (k e : ℕ) → k < 7 → may tables.now self.old account k e ≡ true → noted self.new.given.rows k e ≡ true }
    {
        for k in 0..7 {
            self.grant(model, tables, account, k);
        }
    }

    // Puts every account into the roles that the account may alter.
    pub(crate) fn joins(&mut self, model: &Model, tables: &Holdings, account: u8)
        requires account { Is (lists_of model.now) Account account }
        requires told { Told (lists_of model.now) tables.now }
        requires came { Came (lists_of model.now) self.old }
        requires acted { bit self.old.acted account ≡ true }
        ensures came { Came (lists_of model.now) self.new }
        ensures grown { Grown self.old self.new }
        ensures done { (q : ℕ) → Is (lists_of model.now) Role q → held tables.now self.old account 4 q ≡ true → bit self.new.joined q ≡ true }
    {
        let open = both(self.held(tables, account, ALTER), tables.roles);
        let more = without(open, self.joined);
        for role in Bits(more) {
            self.join(tables, role as u8);
        }
    }

    // Enters every object that the account may enter.
    pub(crate) fn calls(&mut self, model: &Model, tables: &Holdings, account: u8)
        requires account { Is (lists_of model.now) Account account }
        requires told { Told (lists_of model.now) tables.now }
        requires came { Came (lists_of model.now) self.old }
        requires acted { bit self.old.acted account ≡ true }
        ensures came { Came (lists_of model.now) self.new }
        ensures grown { Grown self.old self.new }
        ensures done { (x : Object) → IsObject (lists_of model.now) x → held tables.now self.old account (right_number (entry_right x)) (place_of x) ≡ true → entry self.new x account ≡ true }
    {
        for sort in 0..5 {
            let open = self.held(tables, account, right_of(sort));
            let places = both(open, tables.objects.row(sort));
            self.enter_all(model, sort, places, account);
        }
    }
}
