// The rights that an account holds and may grant, on every entity.
ghost use Rattle.std.specs.Prelude.{◌≡◌, ℕ, ◌<◌, ◌≤◌, true, false, ◌&&◌, ◌||◌, ◌++◌, ◌⊎◌, ◌==◌, nat_lt, Decides};
ghost use Rattle.std.specs.List.{list_any};
ghost use Rattle.access.specs.Lists.{public};
ghost use Rattle.access.specs.Orders.{RoleBelow, Within};
ghost use Rattle.access.specs.Sets.{told};
ghost use Rattle.order.specs.Spreads.{Carried};
ghost use Rattle.runs.specs.States.{State};
ghost use Rattle.lookup.specs.Records.{Adds};
ghost use Rattle.session.specs.Marks.{Says, marks_role, gives_right, owned};
ghost use Rattle.session.specs.Models.{lists_of};
ghost use Rattle.session.specs.Rowed.{AsOne, Recorded, Rowed};

use crate::marks::{add_owned, add_records, mark_roles};
use crate::models::Model;
use access::{Member, RightRecord, RightSet};
use order::{Row, spread};

// The role that everyone is in.
const PUBLIC: usize = 1;

// What an account holds, and what it may grant.
#[derive(Clone, Copy)]
pub struct Rows {
    pub holds: Row,
    pub grants: Row,
}

impl Model {
    // Each role gets the rights that `base` has at it and at the roles above it.
    fn along_roles(&self, base: &Row) -> Row
        ensures tells { Says result.sets (Carried (RoleBelow (lists_of self.now).entities (lists_of self.now).links) (told base.now.sets) 96) }
        ensures past { (x k : ℕ) → 96 ≤ x → told result.sets x k ≡ false }
    {
        spread(&self.roles, base)
    }

    // Each entity gets the rights that `base` has at it and at what it is in.
    pub fn along_places(&self, base: &Row) -> Row
        ensures { Says result.sets (Carried (Within (lists_of self.now).entities) (told base.now.sets) 96) }
    {
        spread(&self.places, base)
    }

    // Marks the role of everyone, and those of the account's member records, the catalogue's and others.
    fn direct_roles(&self, joins: &[Member], account: u8) -> Row
        ensures { (x k : ℕ) → x < 96 → told result.sets x k ≡ ((x == public && nat_lt k 7) || list_any (marks_role account x k) ((lists_of self.now).members ++ joins.now)) }
    {
        let mut base = Row::empty();
        base.add(PUBLIC, RightSet::full());
        mark_roles(&mut base, &self.members, account);
        mark_roles(&mut base, joins, account);
        base
    }

    // Marks an account and the roles that it is in, with member records besides the catalogue's.
    // Kept: that an account is below 96 is a clause; a type for such numbers would reach into every step.
    fn who(&self, joins: &[Member], account: u8) -> Row
        requires { account < 96 }
        ensures { (q : ℕ) → Decides (told result.sets q 0) (AsOne (lists_of self.now) ((lists_of self.now).members ++ joins.now) account q) }
    {
        let mut who = self.along_roles(&self.direct_roles(joins, account));
        who.add(account as usize, RightSet::full());
        who
    }

    // Adds the rights of the records that count, the catalogue's and others.
    fn add_rights(&self, row: &mut Row, who: &Row, grants: &[RightRecord], option: bool)
        ensures { Adds row.old.sets row.new.sets (λ x k. list_any (gives_right who.now.sets option x k) ((lists_of self.now).rights ++ grants.now)) }
    {
        add_records(row, who, &self.rights, option);
        add_records(row, who, grants, option);
    }

    // Marks in full the entities whose owner is marked in `who`.
    fn owned(&self, who: &Row) -> Row
        ensures { (x k : ℕ) → x < 96 → told result.sets x k ≡ (owned who.now.sets (lists_of self.now).entities x && nat_lt k 7) }
    {
        let mut row = Row::empty();
        add_owned(&mut row, who, &self.entities);
        row
    }

    // What is held: all on what `own` says is owned and on what is in it, and what records say of an entity and what is in it.
    #[tactic(auto, using(crate::proofs::Carrying::carried_from))]
    fn held(&self, who: &Row, own: &Row, grants: &[RightRecord]) -> Row
        ensures { Says result.sets (Carried (Within (lists_of self.now).entities) (λ d j. told own.now.sets d j || list_any (gives_right who.now.sets false d j) ((lists_of self.now).rights ++ grants.now)) 96) }
    {
        let mut base = *own;
        self.add_rights(&mut base, who, grants, false);
        self.along_places(&base)
    }

    // What may be granted: all on what `own` says is owned and on what is in it, and what records with the option say.
    fn grantable(&self, who: &Row, own: &Row, grants: &[RightRecord]) -> Row
        ensures { Says result.sets (λ x k. Carried (Within (lists_of self.now).entities) (told own.now.sets) 96 x k ⊎ (list_any (gives_right who.now.sets true x k) ((lists_of self.now).rights ++ grants.now) ≡ true)) }
    {
        let mut may = self.along_places(own);
        self.add_rights(&mut may, who, grants, true);
        may
    }

    // The rows of an account, with right and member records besides the catalogue's.
    // Kept: `account < 96`, as above.
    pub fn rows(&self, grants: &[RightRecord], joins: &[Member], account: u8) -> Rows
        requires { account < 96 }
        ensures { (S : State) → Recorded (lists_of self.now) grants.now joins.now S → Rowed (lists_of self.now) S account result.holds.sets result.grants.sets }
    {
        let who = self.who(joins, account);
        let own = self.owned(&who);
        Rows {
            holds: self.held(&who, &own, grants),
            grants: self.grantable(&who, &own, grants),
        }
    }
}
