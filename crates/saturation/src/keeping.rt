// The rows of accounts, kept as long as no record comes that changes them.
ghost use Rattle.std.specs.Prelude.{◌≡◌, ℕ, ◌<◌, ◌||◌};
ghost use Rattle.access.specs.Lists.{Lists};
ghost use Rattle.access.specs.Sets.{told};
ghost use Rattle.runs.specs.States.{start};
ghost use Rattle.session.specs.Models.{lists_of};
ghost use Rattle.session.specs.Reached.{state_of};
ghost use Rattle.session.specs.Rowed.{Rowed};
ghost use Rattle.saturation.specs.Kept.{bare, KeepsOwn, FreshOwn, KeepsCarried, FreshCarried, KeepsSources, KeepsAll, FreshAll, Keeps};
ghost use Rattle.saturation.specs.Progress.{Goes};

use order::Row;
use session::{Model, Rows, RunState};

// The most entities that a database has.
const ENTITIES: usize = 96;

// The rows of accounts by the catalogue's rights, at the numbers of the accounts, and how many members had come.
#[derive(Drop)]
pub struct OwnRows {
    of: [Option<Rows>; ENTITIES],
    joins: usize,
}

// What everyone holds by the rights that everyone is given, and how many rights had come.
#[derive(Drop)]
pub struct CarriedRow {
    row: Row,
    grants: usize,
}

// Both, from which the rows of an account in the state of a run are found.
#[derive(Drop)]
pub struct Sources {
    own: OwnRows,
    carried: CarriedRow,
}

// The rows of accounts in the state of a run, and how many rights and members had come.
#[derive(Drop)]
pub struct AllRows {
    of: [Option<Rows>; ENTITIES],
    grants: usize,
    joins: usize,
}

// The rows that were found, and what others are found from.
#[derive(Drop)]
pub struct KeptRows {
    sources: Sources,
    all: AllRows,
}

impl OwnRows {
    // Forgets the rows if a member came since.
    fn refresh(&mut self, state: &RunState)
        ensures { (L : Lists) → KeepsOwn L (state_of L state.now) self.old → FreshOwn L (state_of L state.now) self.new }
    {
        let joins = state.joins.len();
        if self.joins != joins {
            *self = OwnRows {
                of: [None; ENTITIES],
                joins,
            };
        }
    }

    // The rows of an account, where only the catalogue's rights stand.
    fn rows(&mut self, model: &Model, state: &RunState, account: u8) -> Rows
        requires small { account < 96 }
        requires keeps { KeepsOwn (lists_of model.now) (state_of (lists_of model.now) state.now) self.old }
        ensures fresh { FreshOwn (lists_of model.now) (state_of (lists_of model.now) state.now) self.new }
        ensures rows { Rowed (lists_of model.now) (bare (lists_of model.now) (state_of (lists_of model.now) state.now)) account result.holds.sets result.grants.sets }
    {
        self.refresh(state);
        let place = account as usize;
        if let Some(rows) = self.of[place] {
            return rows;
        }
        let rows = model.rows(&[], &state.joins, account);
        self.of[place] = Some(rows);
        rows
    }
}

impl CarriedRow {
    // Finds the row again if a right came since.
    fn refresh(&mut self, model: &Model, state: &RunState)
        requires goes { Goes (lists_of model.now) state.now }
        requires keeps { KeepsCarried (lists_of model.now) (state_of (lists_of model.now) state.now) self.old }
        ensures { FreshCarried (lists_of model.now) (state_of (lists_of model.now) state.now) self.new }
    {
        let grants = state.grants.len();
        if self.grants != grants {
            *self = CarriedRow {
                row: model.along_places(state.marks.given()),
                grants,
            };
        }
    }
}

// Adds to each entity the rights that another row has there.
fn add_row(row: &mut Row, more: &Row)
    ensures { (e k : ℕ) → e < 96 → told row.new.sets e k ≡ (told row.old.sets e k || told more.now.sets e k) }
{
    for e in 0..96 {
        row.add(e, more.at(e));
    }
}

impl Sources {
    // The rows of an account: by the catalogue's rights, and by those that everyone is given.
    fn rows(&mut self, model: &Model, state: &RunState, account: u8) -> Rows
        requires small { account < 96 }
        requires goes { Goes (lists_of model.now) state.now }
        requires keeps { KeepsSources (lists_of model.now) (state_of (lists_of model.now) state.now) self.old }
        ensures keeps { KeepsSources (lists_of model.now) (state_of (lists_of model.now) state.now) self.new }
        ensures rows { Rowed (lists_of model.now) (state_of (lists_of model.now) state.now) account result.holds.sets result.grants.sets }
    {
        self.carried.refresh(model, state);
        let mut rows = self.own.rows(model, state, account);
        add_row(&mut rows.holds, &self.carried.row);
        add_row(&mut rows.grants, state.marks.given());
        rows
    }
}

impl AllRows {
    // Forgets the rows if a record came since.
    fn refresh(&mut self, state: &RunState)
        ensures { (L : Lists) → KeepsAll L (state_of L state.now) self.old → FreshAll L (state_of L state.now) self.new }
    {
        let grants = state.grants.len();
        let joins = state.joins.len();
        if self.grants != grants || self.joins != joins {
            *self = AllRows {
                of: [None; ENTITIES],
                grants,
                joins,
            };
        }
    }
}

impl KeptRows {
    // No rows, and no records.
    pub fn none() -> Self
        ensures { (L : Lists) (a : ℕ) → Keeps L (start L a) result }
    {
        KeptRows {
            sources: Sources {
                own: OwnRows {
                    of: [None; ENTITIES],
                    joins: 0,
                },
                carried: CarriedRow {
                    row: Row::empty(),
                    grants: 0,
                },
            },
            all: AllRows {
                of: [None; ENTITIES],
                grants: 0,
                joins: 0,
            },
        }
    }

    // The rows of an account in the state of a run.
    pub fn rows(&mut self, model: &Model, state: &RunState, account: u8) -> Rows
        requires small { account < 96 }
        requires goes { Goes (lists_of model.now) state.now }
        requires keeps { Keeps (lists_of model.now) (state_of (lists_of model.now) state.now) self.old }
        ensures keeps { Keeps (lists_of model.now) (state_of (lists_of model.now) state.now) self.new }
        ensures rows { Rowed (lists_of model.now) (state_of (lists_of model.now) state.now) account result.holds.sets result.grants.sets }
    {
        self.all.refresh(state);
        let place = account as usize;
        if let Some(rows) = self.all.of[place] {
            return rows;
        }
        let rows = self.sources.rows(model, state, account);
        self.all.of[place] = Some(rows);
        rows
    }
}
