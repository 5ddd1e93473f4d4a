// What a database consists of.
ghost use Rattle.std.specs.Prelude.{◌≡◌, Some};
ghost use Rattle.access.specs.Codes.{Names};
ghost use Rattle.access.specs.Lists.{first_entity, is_principal};
ghost use Rattle.access.specs.Numbers.{kind_at, kind_number, mode_at, mode_number};

use crate::refusals::Refusal;

// Accounts and roles are the principals.
#[derive(Clone, Copy, PartialEq, Eq)]
pub enum Kind {
    Container,
    Table,
    Procedure,
    Account,
    Role,
}

// The kind of a number from 0 to 4.
impl TryFrom<u8> for Kind {
    type Error = Refusal;

    ghost try_from_gives = { λ n r. Names (kind_at n) r };

    fn try_from(n: u8) -> Result<Kind, Refusal> {
        match n {
            0 => Ok(Kind::Container),
            1 => Ok(Kind::Table),
            2 => Ok(Kind::Procedure),
            3 => Ok(Kind::Account),
            4 => Ok(Kind::Role),
            _ => Err(Refusal::NotListed),
        }
    }
}

impl From<Kind> for u8 {
    ghost from_gives = { λ x n. (n ≡ kind_number x) × (kind_at n ≡ Some x) };

    fn from(x: Kind) -> u8 {
        x as u8
    }
}

impl Kind {
    pub fn is_principal(self) -> bool
        ensures { result ≡ is_principal self }
    {
        matches!(self, Kind::Account | Kind::Role)
    }
}

// Who owns what is made in a container: the principal that makes it, or the container's owner.
#[derive(Clone, Copy, PartialEq, Eq)]
pub enum Mode {
    Creator,
    Parent,
}

// The mode of number 0 or 1.
impl TryFrom<u8> for Mode {
    type Error = Refusal;

    ghost try_from_gives = { λ n r. Names (mode_at n) r };

    fn try_from(n: u8) -> Result<Mode, Refusal> {
        match n {
            0 => Ok(Mode::Creator),
            1 => Ok(Mode::Parent),
            _ => Err(Refusal::NotListed),
        }
    }
}

impl From<Mode> for u8 {
    ghost from_gives = { λ x n. (n ≡ mode_number x) × (mode_at n ≡ Some x) };

    fn from(x: Mode) -> u8 {
        x as u8
    }
}

// An entity goes by its number; parent and owner are numbers of entities.
#[derive(Clone, Copy, PartialEq, Eq)]
pub struct Entity {
    pub kind: Kind,
    pub parent: u8,
    pub owner: u8,
    pub mode: Mode,
}

impl Entity {
    // One of the entities that a new book has.
    pub fn first(kind: Kind) -> Entity
        ensures { result ≡ first_entity kind }
    {
        Entity {
            kind,
            parent: 0,
            owner: 2,
            mode: Mode::Creator,
        }
    }
}
