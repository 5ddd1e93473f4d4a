// The table of an image's bodies.
ghost use Rattle.std.specs.Prelude.{◌≡◌, ◌≤◌};
ghost use Rattle.image.specs.Layout.{index_of, part_of, width_of, least_of, most_of};

use catalogue::ListName;

// The bodies of an image, in their order.
pub(crate) const IN_ORDER: [ListName; 5] = [
    ListName::Entities,
    ListName::Links,
    ListName::Rights,
    ListName::Members,
    ListName::Lines,
];

// Kept: functions, since the lists' names belong to another crate, and a trait that one type has is no plainer.
pub(crate) fn index_of(list: ListName) -> usize
    ensures value { result ≡ index_of list }
    ensures bound { result ≤ 4 }
{
    list as usize
}

// The number of a body in a fault.
pub(crate) fn part_of(list: ListName) -> u8
    ensures { result ≡ part_of list }
{
    index_of(list) as u8 + 1
}

// How many bytes a record has.
pub(crate) fn width_of(list: ListName) -> usize
    ensures value { result ≡ width_of list }
    ensures bound { result ≤ 7 }
{
    match list {
        ListName::Entities | ListName::Rights => 4,
        ListName::Links | ListName::Members => 2,
        ListName::Lines => 7,
    }
}

// The fewest records of a book.
pub(crate) fn least_of(list: ListName) -> usize
    ensures value { result ≡ least_of list }
    ensures bound { result ≤ 3 }
{
    match list {
        ListName::Entities => 3,
        _ => 0,
    }
}

// The most records of a book.
pub(crate) fn most_of(list: ListName) -> usize
    ensures value { result ≡ most_of list }
    ensures bound { result ≤ 256 }
{
    match list {
        ListName::Entities => 96,
        ListName::Links => 64,
        ListName::Members => 128,
        ListName::Rights | ListName::Lines => 256,
    }
}
