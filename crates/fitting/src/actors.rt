// Whether what a step asks stands in the rows of the account that does it.
ghost use Rattle.std.specs.Prelude.{◌≡◌, ◌<◌, true, Decides};
ghost use Rattle.access.specs.declared.rights.Right.TheVariants.{Alter as ToAlter};
ghost use Rattle.access.specs.Places.{place_of};
ghost use Rattle.runs.specs.Standing.{IsObject, Proper, entry_right};
ghost use Rattle.session.specs.Models.{lists_of};
ghost use Rattle.fitting.specs.Fits.{Tells, Enters, LendsBy, DoesBy, Fits};

use crate::standing::{is_kind, is_object, is_proper, one_owner};
use access::{Action, Kind, Line, Object, Right, Runner};
use order::Row;
use runs::Step;
use session::{Model, Rows};

// Whether a row has a right on an entity.
pub fn tells(row: &Row, n: u8, right: Right) -> bool
    ensures { Decides result (Tells row.now.sets n right) }
{
    n < 96 && row.at(n as usize).has(right)
}

// The right on its entity that lets an account enter an object.
fn entry_right(x: Object) -> Right
    ensures { result ≡ entry_right x }
{
    match x {
        Object::Triggers(_, event) => event.right(),
        _ => Right::Execute,
    }
}

// The account that does a step, as a loaded catalogue and the rows of the account tell of it.
#[derive(Drop)]
pub struct Actor<'a> {
    pub model: &'a Model,
    pub rows: &'a Rows,
}

impl<'a> std::marker::Model for Actor<'a> {
    ghost use Rattle.session.specs.Models.{lists_of};
    ghost use Rattle.fitting.specs.Fits.{Powers};

    ghost Value = { Powers };

    ghost view = { λ a. record { lists = lists_of a.model.now; holds = a.rows.now.holds.sets; grants = a.rows.now.grants.sets } };
}

impl Actor<'_> {
    // Whether the account holds a right.
    pub fn holds(&self, n: u8, right: Right) -> bool
        ensures { Decides result (Tells self.now.holds n right) }
    {
        tells(&self.rows.holds, n, right)
    }

    // Whether the account may grant a right.
    pub fn grants(&self, n: u8, right: Right) -> bool
        ensures { Decides result (Tells self.now.grants n right) }
    {
        tells(&self.rows.grants, n, right)
    }

    // Whether the account may enter an object.
    pub fn enters(&self, x: Object) -> bool
        ensures { Decides result (Enters self.now.holds x) }
    {
        self.holds(x.place(), entry_right(x))
    }

    // Whether the account may name the runner in a line that it plants.
    fn lends(&self, runner: Runner) -> bool
        ensures { Decides result (LendsBy self.now.lists self.now.holds self.now.grants runner) }
    {
        match runner {
            Runner::Caller => true,
            Runner::Account(w) => is_kind(self.model, w, Kind::Account)
                && self.holds(w, Right::Impersonate),
        }
    }

    // Whether the account may do the action from an object.
    fn does(&self, x: Object, action: Action) -> bool
        ensures { Decides result (DoesBy self.now.lists self.now.holds self.now.grants x action) }
    {
        match action {
            Action::Call(y) => self.enters(y) || one_owner(self.model, x, y),
            Action::Grant(g) => self.grants(g.entity, g.right),
            Action::Join(m) => self.holds(m.role, Right::Alter),
        }
    }

    // Whether the account may plant a line.
    pub fn plants(&self, line: Line) -> bool
        ensures { Decides result (IsObject self.now.lists line.object × Tells self.now.holds (place_of line.object) ToAlter × LendsBy self.now.lists self.now.holds self.now.grants line.runner × Proper self.now.lists line.action) }
    {
        is_object(self.model, line.object)
            && self.holds(line.object.place(), Right::Alter)
            && self.lends(line.runner)
            && is_proper(self.model, line.action)
    }

    // Whether the account has what the step asks.
    pub fn fits(&self, step: Step) -> bool
        ensures { Decides result (Fits self.now.lists self.now.holds self.now.grants step) }
    {
        match step {
            Step::Switch { to, .. } => is_kind(self.model, to, Kind::Account)
                && self.holds(to, Right::Impersonate),
            Step::Grant { record, .. } => is_proper(self.model, Action::Grant(record))
                && self.grants(record.entity, record.right),
            Step::Join { member, .. } => is_proper(self.model, Action::Join(member))
                && self.holds(member.role, Right::Alter),
            Step::Plant { line, .. } => self.plants(line),
            Step::Call { object, .. } => is_object(self.model, object) && self.enters(object),
            Step::Follow { line, .. } => self.does(line.object, line.action),
        }
    }
}
