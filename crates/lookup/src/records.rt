// What the records of a catalogue and of a run note.
ghost use Rattle.std.specs.Prelude.{◌≡◌, ℕ, ◌<◌, ◌||◌};
ghost use Rattle.std.specs.List.{list_any};
ghost use Rattle.grid.specs.Grids.{noted};
ghost use Rattle.lookup.specs.Records.{Adds, opens, joins};

use crate::ENTITIES;
use access::{Member, RightRecord, RightSet};
use grid::Grid;
use order::Row;

// The role that everyone is in.
const PUBLIC: u8 = 1;

// Notes the right of a record, if everyone is given it with the option.
pub(crate) fn note_right(rights: &mut Row, g: &RightRecord)
    ensures { Adds rights.old.sets rights.new.sets (λ e k. opens e k g.now) }
{
    if g.principal == PUBLIC && g.option {
        rights.add(g.entity as usize, RightSet::empty().with(g.right));
    }
}

// Notes the rights that everyone is given with the option.
pub(crate) fn note_rights(rights: &mut Row, records: &[RightRecord])
    ensures { Adds rights.old.sets rights.new.sets (λ e k. list_any (opens e k) records.now) }
{
    for g in records {
        note_right(rights, g);
    }
}

// Notes who is in which role.
pub(crate) fn note_members(members: &mut Grid<ENTITIES>, records: &[Member])
    ensures { (q a : ℕ) → q < 96 → a < 96 → noted members.new.rows q a ≡ (noted members.old.rows q a || list_any (joins q a) records.now) }
{
    for m in records {
        members.put(m.role as usize, m.account);
    }
}
