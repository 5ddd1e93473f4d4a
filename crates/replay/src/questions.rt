// Which question the numbers of a call ask, or why it is refused.
ghost use Rattle.std.specs.Prelude.{◌≡◌, Err, MatchResult};
ghost use Rattle.access.specs.Codes.{Names, code};
ghost use Rattle.replay.specs.Questions.{sense_at, Asks};
ghost use Rattle.replay.specs.Replays.{judged_question};

use access::{Entity, Kind, QuestionNumbers, Refusal, Right};
use catalogue::{kind_at, stands};

// Who is to have the right at the end: some account that is acted as, or the one that opens the session.
#[derive(Clone, Copy, PartialEq, Eq)]
pub enum Sense {
    Use,
    Hold,
}

// The sense of number 0 or 1.
impl TryFrom<u8> for Sense {
    type Error = Refusal;

    ghost try_from_gives = { λ n r. Names (sense_at n) r };

    fn try_from(n: u8) -> Result<Sense, Refusal> {
        match n {
            0 => Ok(Sense::Use),
            1 => Ok(Sense::Hold),
            _ => Err(Refusal::NotListed),
        }
    }
}

// Whether a session of the account comes to the right on the entity.
#[derive(Clone, Copy, PartialEq, Eq)]
pub struct Question {
    pub account: u8,
    pub sense: Sense,
    pub entity: u8,
    pub right: Right,
}

// The question that the numbers ask.
pub fn judge_question(entities: &[Entity], numbers: QuestionNumbers) -> Result<Question, Refusal>
    ensures { MatchResult result (Asks entities.now numbers.account numbers.sense numbers.entity numbers.right) (λ refusal. judged_question entities.now numbers.account numbers.sense numbers.entity numbers.right ≡ Err (code refusal)) }
{
    let sense = Sense::try_from(numbers.sense)?;
    let right = Right::try_from(numbers.right)?;
    let Some(kind) = kind_at(entities, numbers.account) else {
        return Err(Refusal::NotListed);
    };
    if !stands(entities, numbers.entity) {
        return Err(Refusal::NotListed);
    }
    if kind != Kind::Account {
        return Err(Refusal::WrongKind);
    }
    Ok(Question {
        account: numbers.account,
        sense,
        entity: numbers.entity,
        right,
    })
}
