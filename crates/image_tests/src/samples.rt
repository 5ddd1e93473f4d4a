// Two images, and what damages the second.

// Accounts 3 and 4, of which the first may impersonate the second.
pub const PAIRS: [u8; 44] = [
    0, 20, 0, 5, 0, 40, 0, 0, 0, 40, 0, 1, 0, 44, 0, 0, 0, 44, 0, 0, // contents
    0, 0, 2, 0, 4, 0, 2, 0, 4, 0, 2, 0, 3, 0, 3, 0, 3, 0, 4, 0, // entities
    3, 4, 6, 0, // a right record
];

// Five entities beside those of a new book, and two records of each other kind.
pub const MIXED: [u8; 82] = [
    0, 20, 0, 8, 0, 52, 0, 2, 0, 56, 0, 2, 0, 64, 0, 2, 0, 68, 0, 2, // contents
    0, 0, 2, 0, 4, 0, 2, 0, 4, 0, 2, 0, // entities of a new book
    3, 0, 3, 0, 4, 0, 3, 0, 0, 0, 3, 1, 1, 5, 3, 0, 2, 5, 3, 0, // entities 3 to 7
    1, 4, 4, 2, // links
    4, 6, 1, 1, 3, 7, 5, 0, // right records
    3, 4, 3, 1, // member records
    0, 7, 0, 255, 1, 6, 1, 1, 6, 3, 3, 0, 7, 0, // lines
];

// A place of the second image, a byte that is put there, and the part and the record of the fault that it then has.
pub const DAMAGES: [(usize, u8, u8, u16); 19] = [
    // contents: a start of each entry, and counts
    (1, 21, 0, 0),
    (0, 1, 0, 0),
    (3, 2, 0, 0),
    (3, 97, 0, 0),
    (5, 51, 0, 1),
    (7, 65, 0, 1),
    (9, 0, 0, 2),
    (14, 1, 0, 3),
    (18, 2, 0, 4),
    (19, 1, 0, 5),
    // entities: those of a new book, and one that is refused
    (20, 1, 1, 0),
    (31, 1, 1, 2),
    (34, 2, 1, 3),
    // links that close a circle
    (54, 2, 2, 1),
    (53, 1, 2, 0),
    // a right that is not listed
    (62, 7, 3, 1),
    // a member that stands
    (67, 4, 4, 1),
    // lines
    (70, 1, 5, 0),
    (78, 4, 5, 1),
];
