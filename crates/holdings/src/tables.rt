// The tables of a catalogue.
ghost use Rattle.std.specs.Prelude.{◌≡◌};
ghost use Rattle.std.specs.List.{slice_get};
ghost use Rattle.session.specs.Models.{lists_of};
ghost use Rattle.holdings.specs.Told.{Told};

use crate::calls::{CALLS, Call, calls};
use crate::carried::{of_accounts, of_roles};
use crate::enterers::enterers;
use crate::kinds::{objects, of_kind, owned, owners};
use crate::places::within;
use crate::powers::Powers;
use crate::records::{given, own};
use access::Kind;
use grid::Grid;
use session::Model;

// Which entities are accounts and roles, and places of each sort of objects; what is at or in each entity; who owns what.
// What everyone is given with the option, what accounts hold and may grant, and what members of roles do by them.
// Who may enter each object, and the numbers of the first lines.
#[derive(Clone, Copy)]
pub struct Holdings {
    pub accounts: u128,
    pub roles: u128,
    pub objects: Grid<5>,
    pub within: Grid<96>,
    pub owned: Grid<96>,
    pub owners: u128,
    pub given: Grid<7>,
    pub of_accounts: Powers,
    pub of_roles: Powers,
    pub enterers: Grid<480>,
    calls: [Call; CALLS],
}

impl Holdings {
    // The tables of a catalogue.
    pub fn of(model: &Model) -> Holdings
        ensures { Told (lists_of model.now) result }
    {
        let entities = model.entities();
        let accounts = of_kind(entities, Kind::Account);
        let within = within(model);
        let own = own(&within, entities, model.rights());
        let of_roles = of_roles(model, &own);
        let of_accounts = of_accounts(&own, &of_roles, accounts, model.members());
        let objects = objects(entities);
        Holdings {
            accounts,
            roles: of_kind(entities, Kind::Role),
            objects,
            within,
            owned: owned(entities),
            owners: owners(entities),
            given: given(model.rights()),
            of_accounts,
            of_roles,
            enterers: enterers(&of_accounts, &objects, accounts),
            calls: calls(model),
        }
    }

    // The numbers of a line, if they are in the table.
    pub fn call(&self, i: usize) -> Option<Call>
        ensures { result ≡ slice_get self.now.calls i }
    {
        self.calls.get(i).copied()
    }
}
