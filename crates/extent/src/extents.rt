// What a session of an account came to.
ghost use Rattle.std.specs.Prelude.{◌≡◌, ℕ, ◌<◌, true, Decides};
ghost use Rattle.access.specs.Bits.{bit};
ghost use Rattle.extent.specs.Tests.{held, may};
ghost use Rattle.extent.specs.Turns.{Somebody};

use grid::{Grid, either};
use holdings::Holdings;
use order::Bits;

// Who opened the session; the accounts acted as, the roles that all accounts were put into, the places where something was entered.
// What everyone is given with the option, and what everyone holds and may grant by the session, a row for each right.
// For each object who entered it, for each account and sort of objects where it entered one; and how much was added.
#[derive(Clone, Copy)]
pub struct Extent {
    pub(crate) opener: u8,
    pub(crate) acted: u128,
    pub(crate) joined: u128,
    pub(crate) places: u128,
    pub(crate) given: Grid<7>,
    pub(crate) holds: Grid<7>,
    pub(crate) grants: Grid<7>,
    pub(crate) entrants: Grid<480>,
    pub(crate) entered: Grid<480>,
    pub(crate) count: usize,
}

impl Extent {
    // Where an account holds right k.
    pub(crate) fn held(&self, tables: &Holdings, account: u8, k: usize) -> u128
        requires { k < 7 }
        ensures { (e : ℕ) → bit result e ≡ held tables.now self.now account k e }
    {
        either(tables.of_accounts.held(account, k), self.holds.row(k))
    }

    // Where an account may grant right k.
    pub(crate) fn may(&self, tables: &Holdings, account: u8, k: usize) -> u128
        requires { k < 7 }
        ensures { (e : ℕ) → bit result e ≡ may tables.now self.now account k e }
    {
        either(tables.of_accounts.granted(account, k), self.grants.row(k))
    }

    // Where some account acted as holds right k.
    pub(crate) fn held_by_any(&self, tables: &Holdings, k: usize) -> u128
        requires { k < 7 }
        ensures { (e : ℕ) → Decides (bit result e) (Somebody tables.now self.now k e) }
    {
        let mut all = 0;
        for account in Bits(self.acted) {
            all = either(all, self.held(tables, account as u8, k));
        }
        all
    }
}
