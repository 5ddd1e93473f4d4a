// An extent grows until nothing is left to add.
ghost use Rattle.std.specs.Prelude.{◌≡◌, ℕ, ◌<◌, true, Decides};
ghost use Rattle.access.specs.declared.code.Line.{Line};
ghost use Rattle.access.specs.declared.entities.Kind.TheVariants.{Account};
ghost use Rattle.access.specs.declared.rights.Right.{Right};
ghost use Rattle.access.specs.Bits.{bit};
ghost use Rattle.access.specs.Lists.{◌∈◌, Lists};
ghost use Rattle.access.specs.Numbers.{right_number};
ghost use Rattle.catalogue.specs.Sound.{Sound};
ghost use Rattle.runs.specs.Standing.{Is};
ghost use Rattle.runs.specs.Runs.{Use};
ghost use Rattle.session.specs.Models.{lists_of};
ghost use Rattle.holdings.specs.Told.{Told};
ghost use Rattle.extent.specs.Shows.{Came};
ghost use Rattle.extent.specs.Growth.{Grown};
ghost use Rattle.extent.specs.Turns.{Begun, Followed, Lent};
ghost use Rattle.extent.specs.Reached.{Reached};

use crate::extents::Extent;
use grid::Grid;
use holdings::Holdings;
use order::{Bits, bit_of, has_bit};
use session::Model;

impl Extent {
    // The extent of a session that an account just opened.
    #[inline(always)]
    fn open(tables: &Holdings, account: u8) -> Extent
        requires { account < 128 }
        ensures came { (L : Lists) → Sound L → Told L tables.now → Is L Account account → Came L result }
        ensures opener { result.opener ≡ account }
    {
        Extent {
            opener: account,
            acted: bit_of(account as usize),
            joined: 0,
            places: 0,
            given: tables.given,
            holds: Grid::empty(),
            grants: Grid::empty(),
            entrants: Grid::empty(),
            entered: Grid::empty(),
            count: 0,
        }
    }

    // Adds what an account acted as begins, by single steps and by taking over others.
    fn turn(&mut self, model: &Model, tables: &Holdings, account: u8)
        requires account { Is (lists_of model.now) Account account }
        requires told { Told (lists_of model.now) tables.now }
        requires came { Came (lists_of model.now) self.old }
        requires acted { bit self.old.acted account ≡ true }
        ensures came { Came (lists_of model.now) self.new }
        ensures grown { Grown self.old self.new }
        ensures begun { Begun (lists_of model.now) tables.now account self.old self.new }
    {
        self.switch(model, tables, account);
        self.grants(model, tables, account);
        self.joins(model, tables, account);
        self.calls(model, tables, account);
        self.take(model, tables, account);
    }

    // Adds what each account acted as begins, one after the other.
    fn turns(&mut self, model: &Model, tables: &Holdings)
        requires told { Told (lists_of model.now) tables.now }
        requires came { Came (lists_of model.now) self.old }
        ensures came { Came (lists_of model.now) self.new }
        ensures grown { Grown self.old self.new }
        ensures begun { (a : ℕ) → Is (lists_of model.now) Account a → bit self.old.acted a ≡ true → Begun (lists_of model.now) tables.now a self.old self.new }
    {
        for account in Bits(tables.accounts) {
            if has_bit(self.acted, account) {
                self.turn(model, tables, account as u8);
            }
        }
    }

    // Adds what accounts acted as begin, and then what they lend one another.
    fn begin(&mut self, model: &Model, tables: &Holdings)
        requires told { Told (lists_of model.now) tables.now }
        requires came { Came (lists_of model.now) self.old }
        ensures came { Came (lists_of model.now) self.new }
        ensures grown { Grown self.old self.new }
        ensures begun { (a : ℕ) → Is (lists_of model.now) Account a → bit self.old.acted a ≡ true → Begun (lists_of model.now) tables.now a self.old self.new }
        ensures lent { self.new.count ≡ self.old.count → Lent (lists_of model.now) tables.now self.new self.new }
    {
        self.turns(model, tables);
        self.lend(model, tables);
    }

    // Follows each line, one after the other.
    fn follow_each(&mut self, model: &Model, tables: &Holdings)
        requires told { Told (lists_of model.now) tables.now }
        requires came { Came (lists_of model.now) self.old }
        ensures came { Came (lists_of model.now) self.new }
        ensures grown { Grown self.old self.new }
        ensures done { (l : Line) → l ∈ (lists_of model.now).lines → Followed (lists_of model.now) tables.now l self.old self.new }
    {
        for i in 0..model.lines().len() {
            self.follow_at(model, tables, i);
        }
    }

    // Follows each line, the last one first.
    fn follow_back(&mut self, model: &Model, tables: &Holdings)
        requires told { Told (lists_of model.now) tables.now }
        requires came { Came (lists_of model.now) self.old }
        ensures came { Came (lists_of model.now) self.new }
        ensures grown { Grown self.old self.new }
    {
        let count = model.lines().len();
        for i in 0..count {
            self.follow_at(model, tables, count - 1 - i);
        }
    }

    // Follows lines until none enters anything, in both directions, since lines may lead to others before or after them.
    fn follow_all(&mut self, model: &Model, tables: &Holdings)
        requires told { Told (lists_of model.now) tables.now }
        requires came { Came (lists_of model.now) self.old }
        ensures came { Came (lists_of model.now) self.new }
        ensures grown { Grown self.old self.new }
        ensures done { (l : Line) → l ∈ (lists_of model.now).lines → Followed (lists_of model.now) tables.now l self.new self.new }
    {
        loop {
            let before = self.count;
            self.follow_each(model, tables);
            if self.count == before {
                return;
            }
            self.follow_back(model, tables);
        }
    }

    // The extent of all that the sessions of an account can come to.
    #[inline]
    pub fn of(model: &Model, tables: &Holdings, account: u8) -> Extent
        requires account { Is (lists_of model.now) Account account }
        requires told { Told (lists_of model.now) tables.now }
        ensures { Reached (lists_of model.now) account result }
    {
        let mut extent = Extent::open(tables, account);
        extent.begin(model, tables);
        loop {
            extent.follow_all(model, tables);
            let before = extent.count;
            extent.begin(model, tables);
            if extent.count == before {
                return extent;
            }
        }
    }

    // The entities on which the sessions can come to use right k.
    pub fn uses(&self, tables: &Holdings, k: usize) -> u128
        requires { k < 7 }
        ensures uses { (L : Lists) (a e : ℕ) (r : Right) → Sound L → Told L tables.now → Reached L a self.now → right_number r ≡ k → Decides (bit result e) (Use L a e r) }
        ensures small { (L : Lists) (a e : ℕ) → Sound L → Told L tables.now → Reached L a self.now → bit result e ≡ true → e < 96 }
    {
        self.held_by_any(tables, k)
    }
}
