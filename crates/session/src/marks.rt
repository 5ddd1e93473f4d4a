// Marks in a row, from lists of records.
ghost use Rattle.std.specs.Prelude.{◌≡◌, not, ◌&&◌, ◌||◌, ◌==◌, nat_lt};
ghost use Rattle.std.specs.List.{list_any};
ghost use Rattle.access.specs.Sets.{told};
ghost use Rattle.lookup.specs.Records.{Adds};
ghost use Rattle.session.specs.Marks.{marks_role, gives_right, owned};

use access::{Entity, Member, Right, RightRecord, RightSet};
use order::Row;

// Marks the role of a record, if it is one of the account's.
fn mark_role(row: &mut Row, m: &Member, account: u8)
    ensures { Adds row.old.sets row.new.sets (λ x k. marks_role account x k m.now) }
{
    if m.account == account {
        row.add(m.role as usize, RightSet::full());
    }
}

// Marks the roles of one account's records.
pub(crate) fn mark_roles(row: &mut Row, members: &[Member], account: u8)
    ensures { Adds row.old.sets row.new.sets (λ x k. list_any (marks_role account x k) members.now) }
{
    for m in members {
        mark_role(row, m, account);
    }
}

// Whether a record counts: its principal is marked, and it has the option where that is asked.
fn counts(who: &Row, g: &RightRecord, option: bool) -> bool
    ensures { result ≡ ((g.now.option || not option) && told who.now.sets g.now.principal 0) }
{
    (g.option || !option) && who.at(g.principal as usize).has(Right::Select)
}

// Adds the right of a record, if it counts.
fn add_record(row: &mut Row, who: &Row, g: &RightRecord, option: bool)
    ensures { Adds row.old.sets row.new.sets (λ x k. gives_right who.now.sets option x k g.now) }
{
    if counts(who, g, option) {
        row.add(g.entity as usize, RightSet::empty().with(g.right));
    }
}

// Adds the rights of the records whose principal is marked in `who`, or of those of them that have the option.
pub(crate) fn add_records(row: &mut Row, who: &Row, records: &[RightRecord], option: bool)
    ensures { Adds row.old.sets row.new.sets (λ x k. list_any (gives_right who.now.sets option x k) records.now) }
{
    for g in records {
        add_record(row, who, g, option);
    }
}

// Marks entity i in full, if its owner is marked in `who`.
fn mark_owned(row: &mut Row, who: &Row, i: usize, e: &Entity)
    ensures { Adds row.old.sets row.new.sets (λ x k. (x == i && told who.now.sets e.now.owner 0) && nat_lt k 7) }
{
    if who.at(e.owner as usize).has(Right::Select) {
        row.add(i, RightSet::full());
    }
}

// Marks in full the entities whose owner is marked in `who`.
#[tactic(auto, using(crate::proofs::Marking::owned_more))]
pub(crate) fn add_owned(row: &mut Row, who: &Row, entities: &[Entity])
    ensures { Adds row.old.sets row.new.sets (λ x k. owned who.now.sets entities.now x && nat_lt k 7) }
{
    for (i, e) in entities.iter().enumerate() {
        mark_owned(row, who, i, e);
    }
}
