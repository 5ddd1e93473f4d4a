// A catalogue: five lists of records, asked one record at a time.
ghost use Rattle.std.specs.Prelude.{◌≡◌};
ghost use Rattle.std.specs.List.{slice_get};
ghost use Rattle.access.specs.Codes.{coded};
ghost use Rattle.access.specs.Lists.{Lists};
ghost use Rattle.catalogue.specs.Counts.{count_of};
ghost use Rattle.catalogue.specs.Judgements.{judged_right, judged_member};
ghost use Rattle.catalogue.specs.Sound.{Sound};

use crate::names::ListName;
use access::{
    Entity, Kind, Line, Link, Member, Refusal, Right, RightNumbers, RightRecord, option_listed,
};

// Its meaning is five lists; a question changes nothing, and may ask that the meaning is sound.
// Kept: soundness is a clause and no law, since a layer's type can say nothing of the lists below it.
// Kept: a question for each list, since an implementation finds each in a place of its own; callers have `Listed::at`.
pub trait Catalogue {
    ghost meaning: { Self → Lists };

    // How many records a list has.
    fn count(&self, list: ListName) -> usize
        requires { Sound (meaning self.now) }
        ensures { result ≡ count_of (meaning self.now) list };

    // The record of a number, or none past the end of its list.
    fn entity_at(&self, n: usize) -> Option<Entity>
        requires { Sound (meaning self.now) }
        ensures { result ≡ slice_get (meaning self.now).entities n };

    fn link_at(&self, n: usize) -> Option<Link>
        requires { Sound (meaning self.now) }
        ensures { result ≡ slice_get (meaning self.now).links n };

    fn right_at(&self, n: usize) -> Option<RightRecord>
        requires { Sound (meaning self.now) }
        ensures { result ≡ slice_get (meaning self.now).rights n };

    fn member_at(&self, n: usize) -> Option<Member>
        requires { Sound (meaning self.now) }
        ensures { result ≡ slice_get (meaning self.now).members n };

    fn line_at(&self, n: usize) -> Option<Line>
        requires { Sound (meaning self.now) }
        ensures { result ≡ slice_get (meaning self.now).lines n };
}

// The right record that the numbers name, or why a book with the catalogue's entities does not take it.
pub fn judge_right<C: Catalogue>(
    catalogue: &C,
    numbers: RightNumbers,
) -> Result<RightRecord, Refusal>
    requires { Sound (C.meaning catalogue.now) }
    ensures { coded result ≡ judged_right (C.meaning catalogue.now).entities numbers.principal numbers.entity numbers.right numbers.option }
{
    let right = Right::try_from(numbers.right)?;
    let option = option_listed(numbers.option)?;
    let (Some(principal), Some(_)) = (
        catalogue.entity_at(numbers.principal as usize),
        catalogue.entity_at(numbers.entity as usize),
    ) else {
        return Err(Refusal::NotListed);
    };
    if !principal.kind.is_principal() {
        return Err(Refusal::WrongKind);
    }
    Ok(RightRecord {
        principal: numbers.principal,
        entity: numbers.entity,
        right,
        option,
    })
}

// The member record, or why a book with the catalogue's entities does not take it.
pub fn judge_member<C: Catalogue>(catalogue: &C, member: Member) -> Result<Member, Refusal>
    requires { Sound (C.meaning catalogue.now) }
    ensures { coded result ≡ judged_member (C.meaning catalogue.now).entities member.account member.role }
{
    let (Some(account), Some(role)) = (
        catalogue.entity_at(member.account as usize),
        catalogue.entity_at(member.role as usize),
    ) else {
        return Err(Refusal::NotListed);
    };
    match (account.kind, role.kind) {
        (Kind::Account, Kind::Role) => Ok(member),
        _ => Err(Refusal::WrongKind),
    }
}
