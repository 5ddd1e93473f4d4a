// The lines of a catalogue by numbers that tell at once whether one can add anything.
ghost use Rattle.std.specs.Prelude.{◌≡◌, ℕ, ◌<◌, true};
ghost use Rattle.access.specs.declared.code.Object.{Object};
ghost use Rattle.access.specs.declared.code.Runner.TheVariants.{Account, Caller};
ghost use Rattle.access.specs.declared.code.Action.TheVariants as action;
ghost use Rattle.access.specs.Bits.{bit};
ghost use Rattle.access.specs.Places.{place_of};
ghost use Rattle.access.specs.Lists.{◌∈◌};
ghost use Rattle.session.specs.Models.{lists_of};
ghost use Rattle.holdings.specs.Calls.{Calls, CallsTold};

use crate::enterers::right_of;
use access::{Action, Line, Object, Runner};
use fitting::one_owner;
use lookup::{slot, sort};
use order::bit_of;
use session::Model;

// How many lines have their numbers in the table: as many as a book and a layer of proposals can hold.
pub(crate) const CALLS: usize = 272;

// The slots of the object of a line and of the one that it calls, the place of the latter and the right that lets an account enter it.
// Whether both have one owner; and the account that the line runs under as a bit, or none for the caller.
#[derive(Clone, Copy)]
pub struct Call {
    pub at: u16,
    pub called: u16,
    pub place: u8,
    pub right: u8,
    pub one_owner: bool,
    pub runner: u128,
}

impl Call {
    // No line.
    fn none() -> Call {
        Call {
            at: 0,
            called: 0,
            place: 0,
            right: 0,
            one_owner: false,
            runner: 0,
        }
    }
}

// The account that a line runs under as a bit, or none for the caller.
fn runner_bit(runner: Runner) -> u128
    requires { (w : ℕ) → runner ≡ Account w → w < 128 }
    ensures caller { runner ≡ Caller → result ≡ 0 }
    ensures account { (w : ℕ) → runner ≡ Account w → bit result w ≡ true }
{
    match runner {
        Runner::Caller => 0,
        Runner::Account(account) => bit_of(account as usize),
    }
}

// The numbers of a line that calls an object.
fn call_to(model: &Model, line: Line, called: Object) -> Call
    requires small { (place_of line.object < 96) × (place_of called < 96) }
    requires runner { (w : ℕ) → line.runner ≡ Account w → w < 128 }
    ensures { Calls (lists_of model.now) line result called }
{
    Call {
        at: slot(line.object) as u16,
        called: slot(called) as u16,
        place: called.place(),
        right: right_of(sort(called) as usize) as u8,
        one_owner: one_owner(model, line.object, called),
        runner: runner_bit(line.runner),
    }
}

// The numbers of a line.
fn call_of(model: &Model, line: Line) -> Call
    requires { line ∈ (lists_of model.now).lines }
    ensures { (y : Object) → line.action ≡ action.Call y → Calls (lists_of model.now) line result y }
{
    let Action::Call(called) = line.action else {
        return Call::none();
    };
    call_to(model, line, called)
}

// The numbers of the first lines.
pub(crate) fn calls(model: &Model) -> [Call; CALLS]
    ensures { CallsTold (lists_of model.now) result }
{
    let mut calls = [Call::none(); CALLS];
    for (i, line) in model.lines().iter().enumerate() {
        if i < CALLS {
            calls[i] = call_of(model, *line);
        }
    }
    calls
}
