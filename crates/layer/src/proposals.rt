// A record that a layer adds to the catalogue below it.
ghost use Rattle.std.specs.Prelude.{◌≡◌, List, ◌++◌, length, Option, refl};
ghost use Rattle.std.specs.List.{filter_map, slice_get};
ghost use Rattle.access.specs.Lists.{Lists};
ghost use Rattle.catalogue.specs.Counts.{count_of};
ghost use Rattle.layer.specs.declared.proposals.Proposal.{Proposal};
ghost use Rattle.layer.specs.Proposals.{right_in, member_in, own, over};

use access::{Member, RightRecord};
use catalogue::{ListName, Listed};

#[derive(Clone, Copy, PartialEq, Eq)]
pub enum Proposal {
    Right(RightRecord),
    Member(Member),
}

// A kind of record that can be proposed.
pub(crate) trait Proposed: Listed {
    ghost held: { Proposal → Option Self };

    // The record of a proposal, if it is of this kind.
    // Kept: `TryFrom` is no plainer, since it would want an error where there is just nothing to give.
    fn from_proposal(p: Proposal) -> Option<Self>
        ensures { result ≡ held p };

    // The list has the proposals after the records below.
    ghost follows: { (l : Lists) (ps : List Proposal) → Self.listed (over l ps) ≡ Self.listed l ++ filter_map held ps };
}

impl Proposed for RightRecord {
    ghost held = { right_in };

    ghost follows = { λ l ps. refl };

    fn from_proposal(p: Proposal) -> Option<RightRecord> {
        match p {
            Proposal::Right(x) => Some(x),
            Proposal::Member(_) => None,
        }
    }
}

impl Proposed for Member {
    ghost held = { member_in };

    ghost follows = { λ l ps. refl };

    fn from_proposal(p: Proposal) -> Option<Member> {
        match p {
            Proposal::Right(_) => None,
            Proposal::Member(x) => Some(x),
        }
    }
}

// How many records of the kind are proposed.
fn count_proposed<T: Proposed>(proposals: &[Proposal]) -> usize
    ensures { result ≡ length (filter_map T.held proposals.now) }
{
    proposals
        .iter()
        .filter_map(|p| T::from_proposal(*p))
        .count()
}

// How many records the proposals put into a list.
pub(crate) fn count_own(proposals: &[Proposal], list: ListName) -> usize
    ensures { result ≡ count_of (own proposals.now) list }
{
    match list {
        ListName::Rights => count_proposed::<RightRecord>(proposals),
        ListName::Members => count_proposed::<Member>(proposals),
        ListName::Entities | ListName::Links | ListName::Lines => 0,
    }
}

// The record of number `n` among those of the kind that are proposed.
fn nth_proposed<T: Proposed>(proposals: &[Proposal], n: usize) -> Option<T>
    ensures { result ≡ slice_get (filter_map T.held proposals.now) n }
{
    proposals.iter().filter_map(|p| T::from_proposal(*p)).nth(n)
}

// The record of number `n` in a list of `count` records, of which `found` is that of number `n`, followed by those proposed.
pub(crate) fn record_over<T: Proposed>(
    found: Option<T>,
    count: usize,
    proposals: &[Proposal],
    n: usize,
) -> Option<T>
    ensures { (xs : List T) → found ≡ slice_get xs n → count ≡ length xs → result ≡ slice_get (xs ++ filter_map T.held proposals.now) n }
{
    if n < count {
        return found;
    }
    nth_proposed(proposals, n - count)
}
