// Why a call is refused.
ghost use Rattle.std.specs.Prelude.{◌≡◌, slice_index};
ghost use Rattle.access.specs.Codes.{code};

// The cases stand in the order in which they are looked for.
#[derive(Clone, Copy, Debug, PartialEq, Eq)]
pub enum Refusal {
    // a number that is not listed for its place, or an entity number that does not stand
    NotListed,
    // an entity or an object of a kind that does not fit its place
    WrongKind,
    // a parent or an owner that the rules do not give
    NotGiven,
    // a link of a role to itself, or one that closes a circle
    Circular,
    // a new record, and its kind or its list is full
    Full,
    // too little room was lent, or too many steps
    NoRoom,
    // the image does not read
    Unreadable { part: u8, record: u16 },
    // the first step that is not allowed, or the number of steps where only the right is missing
    NotAllowed { step: u16 },
}

impl Refusal {
    // The number of the refusal.
    // Kept: `From` is no plainer, since the number alone leaves out the values that two of the cases carry.
    pub fn number(self) -> u8
        ensures { result ≡ slice_index (code self) 0 }
    {
        match self {
            Refusal::NotListed => 1,
            Refusal::WrongKind => 2,
            Refusal::NotGiven => 3,
            Refusal::Circular => 4,
            Refusal::Full => 5,
            Refusal::NoRoom => 6,
            Refusal::Unreadable { .. } => 7,
            Refusal::NotAllowed { .. } => 8,
        }
    }
}
