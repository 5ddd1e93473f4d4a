// What a principal may do with an entity.
ghost use Rattle.std.specs.Prelude.{◌≡◌, ◌<◌, Some};
ghost use Rattle.access.specs.Codes.{Names};
ghost use Rattle.access.specs.Numbers.{right_at, right_number, option_at};

use crate::refusals::Refusal;

#[derive(Clone, Copy, PartialEq, Eq)]
pub enum Right {
    Select,
    Insert,
    Update,
    Delete,
    Alter,
    Execute,
    Impersonate,
}

// The right of a number from 0 to 6.
impl TryFrom<u8> for Right {
    type Error = Refusal;

    ghost try_from_gives = { λ n r. Names (right_at n) r };

    fn try_from(n: u8) -> Result<Right, Refusal> {
        match n {
            0 => Ok(Right::Select),
            1 => Ok(Right::Insert),
            2 => Ok(Right::Update),
            3 => Ok(Right::Delete),
            4 => Ok(Right::Alter),
            5 => Ok(Right::Execute),
            6 => Ok(Right::Impersonate),
            _ => Err(Refusal::NotListed),
        }
    }
}

impl From<Right> for u8 {
    ghost from_gives = { λ x n. (n ≡ right_number x) × (n < 7) × (right_at n ≡ Some x) };

    fn from(x: Right) -> u8 {
        x as u8
    }
}

// A principal has a right on an entity; with the option it can grant it on.
#[derive(Clone, Copy, PartialEq, Eq)]
pub struct RightRecord {
    pub principal: u8,
    pub entity: u8,
    pub right: Right,
    pub option: bool,
}

// The grant option of number 0, without, or 1, with.
// Kept: `TryFrom` wants a type of one's own, and one in place of `bool` is no plainer.
pub fn option_listed(n: u8) -> Result<bool, Refusal>
    ensures { Names (option_at n) result }
{
    match n {
        0 => Ok(false),
        1 => Ok(true),
        _ => Err(Refusal::NotListed),
    }
}
