// Calls with what each must return.
use access::ObjectNumbers;
use access::Refusal::{self, Circular, NotGiven, NotListed, WrongKind};
use book::Call;
use examples::{declare, grant, join, line, link, procedure, triggers};

pub type Case = (Call, Result<usize, Refusal>);

// Who may own what, and where it may stand.
pub fn declarations() -> [Case; 19] {
    [
        (declare(3, 0, 3, 0), Ok(3)),
        (declare(5, 0, 4, 0), Err(NotListed)),
        (declare(3, 0, 4, 1), Err(NotListed)),
        (declare(0, 0, 2, 2), Err(NotListed)),
        (declare(0, 9, 2, 0), Err(NotListed)),
        (declare(4, 0, 4, 0), Err(NotListed)),
        (declare(0, 3, 2, 0), Err(WrongKind)),
        (declare(4, 0, 0, 0), Err(WrongKind)),
        (declare(3, 0, 0, 0), Err(WrongKind)),
        (declare(3, 0, 3, 0), Err(NotGiven)),
        (declare(1, 0, 2, 0), Err(NotGiven)),
        (declare(0, 0, 3, 1), Ok(4)),
        (declare(0, 4, 2, 0), Err(NotGiven)),
        (declare(0, 4, 3, 0), Ok(5)),
        (declare(1, 4, 2, 0), Err(NotGiven)),
        (declare(1, 4, 3, 0), Ok(6)),
        (declare(2, 5, 3, 0), Err(NotGiven)),
        (declare(4, 4, 3, 0), Err(NotGiven)),
        (declare(4, 0, 3, 0), Ok(7)),
    ]
}

// Links of roles 3, 4 and 5.
pub fn links() -> [Case; 18] {
    [
        (declare(4, 0, 2, 0), Ok(3)),
        (declare(4, 0, 2, 0), Ok(4)),
        (declare(4, 0, 2, 0), Ok(5)),
        (declare(3, 0, 6, 0), Ok(6)),
        (link(9, 3), Err(NotListed)),
        (link(3, 9), Err(NotListed)),
        (link(6, 3), Err(WrongKind)),
        (link(3, 0), Err(WrongKind)),
        (link(3, 3), Err(Circular)),
        (link(2, 1), Err(Circular)),
        (link(3, 4), Ok(0)),
        (link(3, 4), Ok(0)),
        (link(4, 3), Err(Circular)),
        (link(4, 5), Ok(1)),
        (link(5, 3), Err(Circular)),
        (link(3, 5), Ok(2)),
        (link(3, 2), Ok(3)),
        (link(2, 3), Err(Circular)),
    ]
}

// Rights of account 3 and role 1.
pub fn rights() -> [Case; 12] {
    [
        (declare(3, 0, 3, 0), Ok(3)),
        (grant(3, 0, 7, 0), Err(NotListed)),
        (grant(3, 0, 0, 2), Err(NotListed)),
        (grant(4, 0, 0, 0), Err(NotListed)),
        (grant(3, 4, 0, 0), Err(NotListed)),
        (grant(0, 3, 0, 0), Err(WrongKind)),
        (grant(3, 0, 0, 0), Ok(0)),
        (grant(3, 0, 1, 0), Ok(1)),
        (grant(1, 0, 0, 0), Ok(2)),
        (grant(3, 0, 0, 1), Ok(0)),
        (grant(3, 0, 0, 0), Ok(0)),
        (grant(3, 3, 0, 0), Ok(3)),
    ]
}

// Members of roles.
pub fn members() -> [Case; 8] {
    [
        (declare(3, 0, 3, 0), Ok(3)),
        (join(4, 1), Err(NotListed)),
        (join(3, 4), Err(NotListed)),
        (join(1, 1), Err(WrongKind)),
        (join(3, 3), Err(WrongKind)),
        (join(3, 2), Ok(0)),
        (join(3, 1), Ok(1)),
        (join(3, 2), Ok(0)),
    ]
}

// Lines of procedure 6 and of the triggers of table 5.
pub fn lines() -> [Case; 19] {
    [
        (declare(3, 0, 3, 0), Ok(3)),
        (declare(0, 0, 3, 1), Ok(4)),
        (declare(1, 4, 3, 0), Ok(5)),
        (declare(2, 4, 3, 0), Ok(6)),
        (
            line(
                ObjectNumbers {
                    kind: 2,
                    ..procedure(6)
                },
                255,
                procedure(6),
            ),
            Err(NotListed),
        ),
        (
            line(
                ObjectNumbers {
                    right: 1,
                    ..procedure(6)
                },
                255,
                procedure(6),
            ),
            Err(NotListed),
        ),
        (line(triggers(5, 0), 255, procedure(6)), Err(NotListed)),
        (line(triggers(5, 4), 255, procedure(6)), Err(NotListed)),
        (line(procedure(9), 255, procedure(6)), Err(NotListed)),
        (line(procedure(6), 9, procedure(6)), Err(NotListed)),
        (line(procedure(6), 255, procedure(9)), Err(NotListed)),
        (line(procedure(5), 255, procedure(6)), Err(WrongKind)),
        (line(procedure(6), 1, procedure(6)), Err(WrongKind)),
        (line(procedure(6), 255, triggers(6, 1)), Err(WrongKind)),
        (line(procedure(6), 255, triggers(5, 1)), Ok(0)),
        (line(triggers(5, 1), 3, procedure(6)), Ok(1)),
        (line(procedure(6), 3, triggers(5, 1)), Ok(2)),
        (line(procedure(6), 255, triggers(5, 1)), Ok(0)),
        (line(procedure(6), 255, triggers(5, 2)), Ok(3)),
    ]
}
