// Lines of the catalogue that are followed.
ghost use Rattle.std.specs.Prelude.{◌≡◌, ◌≢◌, ℕ, ◌<◌, true, ◌⊎◌, Some, Decides};
ghost use Rattle.std.specs.List.{slice_get};
ghost use Rattle.access.specs.declared.code.Action.TheVariants as action;
ghost use Rattle.access.specs.declared.code.Line.{Line};
ghost use Rattle.access.specs.declared.code.Runner.TheVariants.{Account};
ghost use Rattle.access.specs.declared.entities.Kind.TheVariants as kind;
ghost use Rattle.access.specs.Bits.{bit};
ghost use Rattle.access.specs.Lists.{◌∈◌};
ghost use Rattle.access.specs.Numbers.{right_number};
ghost use Rattle.access.specs.Places.{place_of};
ghost use Rattle.grid.specs.Grids.{noted};
ghost use Rattle.runs.specs.Standing.{Is, IsObject, OneOwner, entry_right};
ghost use Rattle.runs.specs.Runs.{worker};
ghost use Rattle.session.specs.Models.{lists_of};
ghost use Rattle.holdings.specs.Told.{Told};
ghost use Rattle.extent.specs.Shows.{Came};
ghost use Rattle.extent.specs.Growth.{Grown};
ghost use Rattle.extent.specs.Tests.{held, entrant, entry};
ghost use Rattle.extent.specs.Turns.{Followed, Idle};

use crate::extents::Extent;
use access::{Action, Line, Object, Runner};
use fitting::one_owner;
use grid::{both, without};
use holdings::{Call, Holdings, right_of};
use lookup::sort;
use order::{Bits, bit_of};
use session::Model;

// The accounts that a line runs under, followed for each of these; there are some.
#[inline(always)]
fn workers(runner: Runner, entrants: u128) -> u128
    requires small { (w : ℕ) → runner ≡ Account w → w < 128 }
    requires some { entrants ≢ 0 }
    ensures all { (v : ℕ) → bit entrants v ≡ true → bit result (worker runner v) ≡ true }
    ensures only { (w : ℕ) → bit result w ≡ true → (v : ℕ) × (bit entrants v ≡ true) × (worker runner v ≡ w) }
{
    match runner {
        Runner::Caller => entrants,
        Runner::Account(account) => bit_of(account as usize),
    }
}

// The line of a number, or none past the end.
fn line_at(model: &Model, i: usize) -> Option<Line>
    ensures { result ≡ slice_get (lists_of model.now).lines i }
{
    model.lines().get(i).copied()
}

impl Extent {
    // Who entered an object, as bits.
    #[inline(always)]
    fn entrants(&self, object: Object) -> u128
        ensures { (v : ℕ) → bit result v ≡ entrant self.now object v }
    {
        let place = object.place() as usize;
        self.entrants.row(place + 96 * sort(object) as usize)
    }

    // Whether everyone may enter an object by what they hold in the session.
    fn opens(&self, object: Object) -> bool
        ensures { result ≡ noted self.now.holds.rows (right_number (entry_right object)) (place_of object) }
    {
        self.holds
            .has(right_of(sort(object) as usize), object.place())
    }

    // The accounts that may enter an object that a line of another one calls.
    fn welcome(&self, model: &Model, tables: &Holdings, from: Object, called: Object) -> u128
        requires told { Told (lists_of model.now) tables.now }
        requires object { IsObject (lists_of model.now) called }
        ensures { (w : ℕ) → Is (lists_of model.now) kind.Account w → Decides (bit result w) ((held tables.now self.now w (right_number (entry_right called)) (place_of called) ≡ true) ⊎ OneOwner (lists_of model.now) from called) }
    {
        if self.opens(called) || one_owner(model, from, called) {
            return tables.accounts;
        }
        let place = called.place() as usize;
        tables.enterers.row(place + 96 * sort(called) as usize)
    }

    // Lets those of these accounts that may do so enter the object that a line calls.
    #[inline(never)]
    fn follow_for(
        &mut self,
        model: &Model,
        tables: &Holdings,
        line: Line,
        called: Object,
        workers: u128,
    )
        requires told { Told (lists_of model.now) tables.now }
        requires came { Came (lists_of model.now) self.old }
        requires listed { line ∈ (lists_of model.now).lines }
        requires calls { line.action ≡ action.Call called }
        requires workers { (w : ℕ) → bit workers w ≡ true → (v : ℕ) × (entrant self.old line.object v ≡ true) × (worker line.runner v ≡ w) }
        ensures came { Came (lists_of model.now) self.new }
        ensures grown { Grown self.old self.new }
        ensures done { (w : ℕ) → bit workers w ≡ true → (held tables.now self.old w (right_number (entry_right called)) (place_of called) ≡ true) ⊎ OneOwner (lists_of model.now) line.object called → entry self.new called w ≡ true }
    {
        let place = called.place();
        let sort = sort(called) as usize;
        let new = both(workers, self.welcome(model, tables, line.object, called));
        for worker in Bits(new) {
            if !self.entered.has(worker + 96 * sort, place) {
                self.enter(sort, place as usize, worker);
            }
        }
    }

    // Follows a line for all accounts that entered its object.
    #[inline(always)]
    pub(crate) fn follow(&mut self, model: &Model, tables: &Holdings, line: Line)
        requires told { Told (lists_of model.now) tables.now }
        requires came { Came (lists_of model.now) self.old }
        requires listed { line ∈ (lists_of model.now).lines }
        ensures came { Came (lists_of model.now) self.new }
        ensures grown { Grown self.old self.new }
        ensures done { Followed (lists_of model.now) tables.now line self.old self.new }
    {
        let Action::Call(called) = line.action else {
            return;
        };
        let entrants = self.entrants(line.object);
        if entrants == 0 {
            return;
        }
        let new = without(workers(line.runner, entrants), self.entrants(called));
        if new != 0 {
            self.follow_for(model, tables, line, called, new);
        }
    }

    // Whether a line of these numbers can add nothing.
    #[inline(always)]
    fn is_idle(&self, tables: &Holdings, call: &Call) -> bool
        ensures { result ≡ true → Idle tables.now self.now call.now }
    {
        let entrants = self.entrants.row(call.at as usize);
        if entrants == 0 {
            return true;
        }
        let workers = if call.runner == 0 {
            entrants
        } else {
            call.runner
        };
        let missing = without(workers, self.entrants.row(call.called as usize));
        if missing == 0 {
            return true;
        }
        if call.one_owner || self.holds.has(call.right as usize, call.place) {
            return false;
        }
        both(missing, tables.enterers.row(call.called as usize)) == 0
    }

    // Follows the line of a number, if it is not known to add nothing.
    #[inline(always)]
    pub(crate) fn follow_at(&mut self, model: &Model, tables: &Holdings, i: usize)
        requires told { Told (lists_of model.now) tables.now }
        requires came { Came (lists_of model.now) self.old }
        ensures came { Came (lists_of model.now) self.new }
        ensures grown { Grown self.old self.new }
        ensures done { (l : Line) → slice_get (lists_of model.now).lines i ≡ Some l → Followed (lists_of model.now) tables.now l self.old self.new }
    {
        if let Some(call) = tables.call(i)
            && self.is_idle(tables, &call)
        {
            return;
        }
        if let Some(line) = line_at(model, i) {
            self.follow(model, tables, line);
        }
    }
}
