// How the line of an account is written.
ghost use Rattle.std.specs.Prelude.{◌≡◌, ◌+◌, ◌≤◌, ◌<◌, [], ◌∷◌, length, map};
ghost use Rattle.listing.specs.Puts.{Puts};
ghost use Rattle.listing.specs.Listings.{accounts_of, mark, line_of};

use crate::digits::{put, put_four, put_two};
use crate::exposures::{exposure_of, has};
use access::{Entity, Right};
use rows::WIDTH;
use survey::is_account;

// Writes whether a row has the right to impersonate on an entity.
fn put_mark(room: &mut [u8], at: usize, row: &[u8; WIDTH], e: usize) -> usize
    requires entity { e < 96 }
    requires room { at < length room.old }
    ensures { Puts at (mark row.now e ∷ []) room.old room.new result }
{
    put(
        room,
        at,
        b'0' + u8::from(has(row[e], u8::from(Right::Impersonate))),
    )
}

// Writes whether a row has the right to impersonate on each account.
fn put_marks(entities: &[Entity], row: &[u8; WIDTH], room: &mut [u8], start: usize) -> usize
    requires few { length entities.now ≤ 96 }
    requires room { start + length (accounts_of entities.now) ≤ length room.old }
    ensures { Puts start (map (mark row.now) (accounts_of entities.now)) room.old room.new result }
{
    let mut at = start;
    for e in 0..entities.len() {
        if is_account(entities, e) {
            at = put_mark(room, at, row, e);
        }
    }
    at
}

// Writes the line of an account with a row.
pub(crate) fn put_line(
    entities: &[Entity],
    account: usize,
    row: &[u8; WIDTH],
    room: &mut [u8],
    start: usize,
) -> usize
    requires account { account < 96 }
    requires sized { (3 ≤ length entities.now) × (length entities.now ≤ 96) }
    requires room { start + (length (accounts_of entities.now) + 9) ≤ length room.old }
    ensures { Puts start (line_of entities.now account row.now) room.old room.new result }
{
    let gap = put_two(room, start, account as u16);
    let marks = put(room, gap, b' ');
    let next = put_marks(entities, row, room, marks);
    let exposure = put(room, next, b' ');
    let end = put_four(room, exposure, exposure_of(row, entities.len()));
    put(room, end, b'\n')
}
