// The lists of a model that questions look through.
ghost use Rattle.std.specs.Prelude.{◌≡◌, ℕ, Decides};
ghost use Rattle.access.specs.Bits.{bit};
ghost use Rattle.access.specs.Orders.{RoleBelow, Within};
ghost use Rattle.session.specs.Models.{lists_of};

use crate::models::Model;
use access::{Entity, Line, Member, RightRecord};
use order::Order;

impl Model {
    pub fn entities(&self) -> &[Entity]
        ensures { result.now ≡ (lists_of self.now).entities }
    {
        &self.entities
    }

    pub fn rights(&self) -> &[RightRecord]
        ensures { result.now ≡ (lists_of self.now).rights }
    {
        &self.rights
    }

    pub fn members(&self) -> &[Member]
        ensures { result.now ≡ (lists_of self.now).members }
    {
        &self.members
    }

    pub fn lines(&self) -> &[Line]
        ensures { result.now ≡ (lists_of self.now).lines }
    {
        &self.lines
    }

    // What entity x is at or in, as bits.
    pub fn above_place(&self, x: usize) -> u128
        ensures { (y : ℕ) → Decides (bit result y) (Within (lists_of self.now).entities x y) }
    {
        self.places.above(x)
    }

    // The roles at or above role x, as bits.
    pub fn above_role(&self, x: usize) -> u128
        ensures { (y : ℕ) → Decides (bit result y) (RoleBelow (lists_of self.now).entities (lists_of self.now).links x y) }
    {
        self.roles.above(x)
    }
}
