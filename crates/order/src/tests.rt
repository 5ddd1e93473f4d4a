// Examples: two links of roles, and a right carried along each order.
use crate::orders::Order;
use crate::rows::Row;
use crate::spreads::spread;
use crate::tables::{EntityOrder, RoleOrder};
use access::{Entity, Kind, Link, Mode, Right, RightSet};

// Kept: written out, since a constant may call no function.
const ROOT: Entity = Entity {
    kind: Kind::Container,
    parent: 0,
    owner: 2,
    mode: Mode::Creator,
};

const ROLE: Entity = Entity {
    kind: Kind::Role,
    parent: 0,
    owner: 2,
    mode: Mode::Creator,
};

// Role 3 is below role 4, which is below role 5.
const LINKS: [Link; 2] = [Link { lower: 3, upper: 4 }, Link { lower: 4, upper: 5 }];

fn linked_roles() -> RoleOrder {
    RoleOrder::build(&[ROOT, ROLE, ROLE, ROLE, ROLE, ROLE], &LINKS)
}

#[test]
fn links_join(rt: HostRuntime) {
    let order = linked_roles();
    assert!(rt; order.at_or_below(3, 5));
    assert!(rt; order.at_or_below(5, 2));
    assert!(rt; !order.at_or_below(5, 3));
    assert!(rt; !order.at_or_below(0, 2));
}

#[test]
fn roles_carry(rt: HostRuntime) {
    let order = linked_roles();
    let mut base = Row::empty();
    base.add(4, RightSet::empty().with(Right::Select));
    let row = spread(&order, &base);
    assert!(rt; row.at(3).has(Right::Select));
    assert!(rt; !row.at(5).has(Right::Select));
}

#[test]
fn places_carry(rt: HostRuntime) {
    let inner = Entity {
        kind: Kind::Table,
        parent: 1,
        owner: 0,
        mode: Mode::Creator,
    };
    let order = EntityOrder::build(&[ROOT, ROOT, inner]);
    let mut base = Row::empty();
    base.add(1, RightSet::empty().with(Right::Select));
    let row = spread(&order, &base);
    assert!(rt; row.at(2).has(Right::Select));
    assert!(rt; !row.at(0).has(Right::Select));
}
