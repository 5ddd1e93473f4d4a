// Objects that an account enters.
ghost use Rattle.std.specs.Prelude.{◌≡◌, ℕ, ◌+◌, ◌*◌, ◌<◌, true};
ghost use Rattle.access.specs.declared.code.Object.{Object};
ghost use Rattle.access.specs.declared.entities.Kind.TheVariants.{Account};
ghost use Rattle.access.specs.Bits.{bit};
ghost use Rattle.access.specs.Places.{place_of};
ghost use Rattle.lookup.specs.Tables.{sort_number};
ghost use Rattle.runs.specs.Standing.{Is};
ghost use Rattle.session.specs.Models.{lists_of};
ghost use Rattle.extent.specs.Tests.{entry};
ghost use Rattle.extent.specs.Shows.{Came};
ghost use Rattle.extent.specs.Growth.{Grown};
ghost use Rattle.extent.specs.Turns.{Enters};

use crate::extents::Extent;
use grid::without;
use order::Bits;
use session::Model;

impl Extent {
    // An account enters the objects of a sort in all these places.
    pub(crate) fn enter_all(&mut self, model: &Model, sort: usize, places: u128, account: u8)
        requires small { sort < 5 }
        requires account { Is (lists_of model.now) Account account }
        requires came { Came (lists_of model.now) self.old }
        requires enters { (x : Object) → sort_number x ≡ sort → bit places (place_of x) ≡ true → Enters (lists_of model.now) self.old x account }
        requires places { (e : ℕ) → bit places e ≡ true → e < 96 }
        ensures came { Came (lists_of model.now) self.new }
        ensures grown { Grown self.old self.new }
        ensures there { (x : Object) → sort_number x ≡ sort → bit places (place_of x) ≡ true → entry self.new x account ≡ true }
    {
        let more = without(places, self.entered.row(account as usize + 96 * sort));
        for place in Bits(more) {
            self.enter(sort, place, account as usize);
        }
    }
}
