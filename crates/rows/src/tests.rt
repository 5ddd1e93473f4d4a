// Examples: a union and its bits, two rows compared, and what is too short.
use crate::{WIDTH, same, unite};
use access::Refusal;

// A row with one byte set.
fn row_with(e: u8, byte: u8) -> [u8; WIDTH] {
    let mut row = [0; WIDTH];
    if let Some(place) = row.get_mut(e as usize) {
        *place = byte;
    }
    row
}

#[test]
fn bits_unite(rt: HostRuntime) {
    let mut room = [128; 98];
    assert!(rt; unite(&row_with(6, 0b0_0101), &row_with(6, 0b1_0001), &mut room) == Ok(()));
    assert!(rt; room.starts_with(&row_with(6, 0b1_0101)));
    assert!(rt; room.ends_with(&[128, 128]));
}

#[test]
fn rows_compare(rt: HostRuntime) {
    let mut long = [1; 97];
    long[..WIDTH].copy_from_slice(&row_with(95, 64));
    assert!(rt; same(&long, &row_with(95, 64)) == Ok(true));
    assert!(rt; same(&long, &row_with(95, 65)) == Ok(false));
    assert!(rt; same(&long, &row_with(94, 64)) == Ok(false));
}

#[test]
fn short_rows_are_refused(rt: HostRuntime) {
    let row = row_with(0, 1);
    let mut room = [7; WIDTH];
    assert!(rt; unite(&row[..95], &row, &mut room) == Err(Refusal::NoRoom));
    assert!(rt; unite(&row, &row[..95], &mut room) == Err(Refusal::NoRoom));
    assert!(rt; unite(&row, &row, &mut room[..95]) == Err(Refusal::NoRoom));
    assert!(rt; room == [7; WIDTH]);
    assert!(rt; same(&row, &row[..95]) == Err(Refusal::NoRoom));
}
