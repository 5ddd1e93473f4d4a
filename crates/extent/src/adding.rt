// One thing more in an extent.
ghost use Rattle.std.specs.Prelude.{◌≡◌, ℕ, ◌+◌, ◌*◌, ◌≤◌, ◌<◌, true, false, ◌&&◌, ◌||◌, ◌==◌, nat_lt};
ghost use Rattle.holdings.specs.Rows.{has, can};
ghost use Rattle.access.specs.declared.code.Action.TheVariants.{Call, Grant};
ghost use Rattle.access.specs.declared.code.Object.{Object};
ghost use Rattle.access.specs.declared.entities.Kind.TheVariants.{Account, Role};
ghost use Rattle.access.specs.declared.rights.Right.{Right};
ghost use Rattle.access.specs.declared.rights.Right.TheVariants.{Alter};
ghost use Rattle.access.specs.Bits.{bit};
ghost use Rattle.access.specs.Lists.{◌∈◌, Lists, public};
ghost use Rattle.access.specs.Numbers.{right_number};
ghost use Rattle.access.specs.Places.{place_of};
ghost use Rattle.grid.specs.Grids.{noted};
ghost use Rattle.catalogue.specs.Sound.{Sound};
ghost use Rattle.lookup.specs.Tables.{sort_number};
ghost use Rattle.runs.specs.Standing.{Is, IsObject, Stands};
ghost use Rattle.runs.specs.States.{State, acting, done};
ghost use Rattle.runs.specs.Rights.{right_record, Holds};
ghost use Rattle.runs.specs.Saturated.{Rule};
ghost use Rattle.holdings.specs.Told.{Told};
ghost use Rattle.extent.specs.Tests.{entrant, entry};
ghost use Rattle.extent.specs.Shows.{Shows, Came};
ghost use Rattle.extent.specs.Growth.{Grown};

use crate::extents::Extent;
use grid::either;
use holdings::Holdings;
use order::bit_of;

impl Extent {
    // An account more is acted as.
    pub(crate) fn act(&mut self, account: usize)
        requires small { account < 128 }
        requires room { self.old.count ≤ 4096 }
        requires new { bit self.old.acted account ≡ false }
        ensures came { (L : Lists) → Sound L → Came L self.old → Is L Account account → ((F : State) → Shows L self.old F → Rule L F (acting F account)) → Came L self.new }
        ensures grown { Grown self.old self.new }
        ensures there { bit self.new.acted account ≡ true }
        ensures only { (v : ℕ) → bit self.new.acted v ≡ (bit self.old.acted v || v == account) }
    {
        self.acted = either(self.acted, bit_of(account));
        self.count += 1;
    }

    // Everyone is given one right more, with the option.
    pub(crate) fn give(&mut self, tables: &Holdings, k: usize, entity: usize)
        requires small { (k < 7) × (entity < 128) }
        requires room { self.old.count ≤ 4096 }
        requires new { noted self.old.given.rows k entity ≡ false }
        ensures came { (L : Lists) (r : Right) → Sound L → Told L tables.now → Came L self.old → right_number r ≡ k → Stands L entity → ((F : State) → Shows L self.old F → Rule L F (done F 0 (Grant (right_record public entity r true)))) → Came L self.new }
        ensures grown { Grown self.old self.new }
        ensures there { noted self.new.given.rows k entity ≡ true }
        ensures only { (e : ℕ) → noted self.new.given.rows k e ≡ (noted self.old.given.rows k e || e == entity) }
    {
        self.given.add(k, bit_of(entity));
        self.holds.add(k, tables.within.row(entity));
        self.grants.add(k, bit_of(entity));
        self.count += 1;
    }

    // Everyone holds and may grant what members of a role do by it.
    fn hold_by(&mut self, tables: &Holdings, role: u8)
        ensures holds { (k e : ℕ) → noted self.new.holds.rows k e ≡ (noted self.old.holds.rows k e || (nat_lt k 7 && has tables.now.of_roles role k e)) }
        ensures grants { (k e : ℕ) → noted self.new.grants.rows k e ≡ (noted self.old.grants.rows k e || (nat_lt k 7 && can tables.now.of_roles role k e)) }
        ensures rest { self.new ≡ record { opener = self.old.opener; acted = self.old.acted; joined = self.old.joined; places = self.old.places; given = self.old.given; holds = self.new.holds; grants = self.new.grants; entrants = self.old.entrants; entered = self.old.entered; count = self.old.count } }
    {
        for k in 0..7 {
            self.holds.add(k, tables.of_roles.held(role, k));
            self.grants.add(k, tables.of_roles.granted(role, k));
        }
    }

    // Every account is put into one role more.
    pub(crate) fn join(&mut self, tables: &Holdings, role: u8)
        requires small { role < 128 }
        requires room { self.old.count ≤ 4096 }
        requires new { bit self.old.joined role ≡ false }
        ensures came { (L : Lists) → Sound L → Told L tables.now → Came L self.old → Is L Role role → ((F : State) → Shows L self.old F → (a : ℕ) × (a ∈ F.acted) × Holds L F a role Alter) → Came L self.new }
        ensures grown { Grown self.old self.new }
        ensures there { bit self.new.joined role ≡ true }
        ensures only { (q : ℕ) → bit self.new.joined q ≡ (bit self.old.joined q || q == role) }
    {
        self.hold_by(tables, role);
        self.joined = either(self.joined, bit_of(role as usize));
        self.count += 1;
    }

    // An account enters the object of a sort in a place.
    pub(crate) fn enter(&mut self, sort: usize, place: usize, account: usize)
        requires small { (sort < 5) × (place < 96) × (account < 96) }
        requires room { self.old.count ≤ 4096 }
        requires new { noted self.old.entered.rows (account + 96 * sort) place ≡ false }
        ensures came { (L : Lists) (x : Object) → Sound L → Came L self.old → sort_number x ≡ sort → place_of x ≡ place → ((F : State) → Shows L self.old F → Rule L F (done F account (Call x))) → Came L self.new }
        ensures grown { Grown self.old self.new }
        ensures there { (x : Object) → sort_number x ≡ sort → place_of x ≡ place → entry self.new x account ≡ true }
        ensures only { (e : ℕ) → noted self.new.entered.rows (account + 96 * sort) e ≡ (noted self.old.entered.rows (account + 96 * sort) e || e == place) }
    {
        self.entrants.add(place + 96 * sort, bit_of(account));
        self.entered.add(account + 96 * sort, bit_of(place));
        self.places = either(self.places, bit_of(place));
        self.count += 1;
    }
}
