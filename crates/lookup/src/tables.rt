// What stands in the state of a run, as tables.
ghost use Rattle.std.specs.Prelude.{◌≡◌, ℕ, ◌<◌, true, Decides};
ghost use Rattle.access.specs.Bits.{bit};
ghost use Rattle.access.specs.Lists.{◌∈◌, Lists, public};
ghost use Rattle.access.specs.declared.rights.Right.{Right};
ghost use Rattle.access.specs.Numbers.{right_number};
ghost use Rattle.access.specs.Places.{place_of};
ghost use Rattle.access.specs.Sets.{told};
ghost use Rattle.runs.specs.Rights.{right_record};
ghost use Rattle.runs.specs.Runs.{after};
ghost use Rattle.runs.specs.States.{State, Part, start, acting, done, pair};
ghost use Rattle.lookup.specs.Tables.{SmallEntry, SmallMember, SmallAction, SmallStep, KnownAction, Known, Marked, sort_number, slot_of};

use crate::ENTITIES;
use crate::records::{note_members, note_right, note_rights};
use access::{Action, Member, Object, Right, RightRecord, RightSet};
use grid::Grid;
use order::Row;
use runs::{Entry, Step, worker};

// How many slots there are for objects: 96 for each of five sorts.
const SLOTS: usize = 480;

// Which accounts are acted as, which rights everyone is given with the option, who is in which role, and which pairs are entered.
#[derive(Clone, Copy)]
pub struct Marks {
    accounts: Grid<1>,
    rights: Row,
    members: Grid<ENTITIES>,
    entries: Grid<SLOTS>,
}

// The number of an object's sort.
pub fn sort(object: Object) -> u8
    ensures { result ≡ sort_number object }
{
    match object {
        Object::Procedure(_) => 0,
        Object::Triggers(_, event) => u8::from(event.right()),
        Object::Created(_) => 4,
    }
}

// The slot of an object, past the end where its entity's number is.
pub fn slot(object: Object) -> usize
    ensures { place_of object < 96 → result ≡ slot_of object }
{
    let place = object.place() as usize;
    if place < ENTITIES {
        place + ENTITIES * sort(object) as usize
    } else {
        SLOTS
    }
}

impl Marks {
    // The tables of the state in which an account opens a session.
    pub fn open(account: u8, rights: &[RightRecord], members: &[Member]) -> Marks
        requires small { account < 96 }
        ensures { (L : Lists) → L.rights ≡ rights.now → L.members ≡ members.now → Marked result (start L account) }
    {
        let mut marks = Marks {
            accounts: Grid::empty(),
            rights: Row::empty(),
            members: Grid::empty(),
            entries: Grid::empty(),
        };
        marks.accounts.put(0, account);
        note_rights(&mut marks.rights, rights);
        note_members(&mut marks.members, members);
        marks
    }

    // Whether an account is acted as.
    pub fn acts(&self, account: u8) -> bool
        ensures { (S : State) → account < 96 → Marked self.now S → Decides result (account ∈ S.acted) }
    {
        self.accounts.has(0, account)
    }

    // Whether everyone is given a right with the option.
    pub fn has_right(&self, entity: u8, right: Right) -> bool
        ensures { (S : State) → entity < 96 → Marked self.now S → Decides result (right_record public entity right true ∈ S.rights) }
    {
        self.rights.at(entity as usize).has(right)
    }

    // The rights that everyone is given with the option, on every entity.
    pub fn given(&self) -> &Row
        ensures { (S : State) (e : ℕ) (r : Right) → e < 96 → Marked self.now S → Decides (told result.now.sets e (right_number r)) (right_record public e r true ∈ S.rights) }
    {
        &self.rights
    }

    // The rights on an entity that everyone is given with the option.
    pub fn rights(&self, entity: u8) -> RightSet
        ensures { (S : State) (r : Right) → entity < 96 → Marked self.now S → Decides (bit result.bits (right_number r)) (right_record public entity r true ∈ S.rights) }
    {
        self.rights.at(entity as usize)
    }

    // Whether an account is in a role by a record.
    fn has_member(&self, member: Member) -> bool
        ensures { (S : State) → SmallMember member → Marked self.now S → Decides result (member ∈ S.members) }
    {
        self.members.has(member.role as usize, member.account)
    }

    // Whether an object was entered with an account.
    pub fn entered(&self, entry: Entry) -> bool
        ensures { (S : State) → SmallEntry entry → Marked self.now S → Decides result (entry ∈ S.entered) }
    {
        self.entries.has(slot(entry.object), entry.account)
    }

    // The accounts that are acted as, as bits.
    pub fn actors(&self) -> u128
        ensures { (S : State) (v : ℕ) → v < 96 → Marked self.now S → Decides (bit result v) (v ∈ S.acted) }
    {
        self.accounts.row(0)
    }

    // The accounts that an object was entered with, as bits.
    pub fn entrants(&self, object: Object) -> u128
        ensures { (S : State) (v : ℕ) → SmallEntry (pair object v) → Marked self.now S → Decides (bit result v) (pair object v ∈ S.entered) }
    {
        self.entries.row(slot(object))
    }

    // The accounts that are in a role by a record, as bits.
    pub fn members(&self, role: u8) -> u128
        ensures { (S : State) (j : Member) → SmallMember j → j.role ≡ role → Marked self.now S → Decides (bit result j.account) (j ∈ S.members) }
    {
        self.members.row(role as usize)
    }

    // Whether an account's action adds nothing.
    fn has_done(&self, account: u8, action: Action) -> bool
        ensures { (S : State) → SmallAction account action → KnownAction action → Marked self.now S → Decides result (Part (done S account action) S) }
    {
        match action {
            Action::Call(object) => self.entered(Entry { object, account }),
            Action::Grant(record) => self.has_right(record.entity, record.right),
            Action::Join(member) => self.has_member(member),
        }
    }

    // Whether a step adds nothing.
    pub fn has(&self, step: Step) -> bool
        ensures { (S : State) → SmallStep step → Known step → Marked self.now S → Decides result (Part (after S step) S) }
    {
        match step {
            Step::Switch { to, .. } => self.acts(to),
            Step::Plant { .. } => false,
            Step::Grant { actor, record } => self.has_done(actor, Action::Grant(record)),
            Step::Join { actor, member } => self.has_done(actor, Action::Join(member)),
            Step::Call { actor, object } => self.has_done(actor, Action::Call(object)),
            Step::Follow { caller, line } => self.has_done(
                worker(line.runner, caller),
                line.action,
            ),
        }
    }

    // Notes what an account's action adds.
    fn note_done(&mut self, account: u8, action: Action)
        ensures { (S : State) → SmallAction account action → Marked self.old S → Marked self.new (done S account action) }
    {
        match action {
            Action::Call(object) => self.entries.put(slot(object), account),
            Action::Grant(record) => note_right(&mut self.rights, &record),
            Action::Join(member) => self.members.put(member.role as usize, member.account),
        }
    }

    // Notes what a step adds.
    pub fn note(&mut self, step: Step)
        ensures { (S : State) → SmallStep step → Marked self.old S → Marked self.new (after S step) }
    {
        match step {
            Step::Switch { to, .. } => self.accounts.put(0, to),
            Step::Plant { .. } => {}
            Step::Grant { actor, record } => self.note_done(actor, Action::Grant(record)),
            Step::Join { actor, member } => self.note_done(actor, Action::Join(member)),
            Step::Call { actor, object } => self.note_done(actor, Action::Call(object)),
            Step::Follow { caller, line } => {
                let account = worker(line.runner, caller);
                self.note_done(account, line.action);
            }
        }
    }
}
