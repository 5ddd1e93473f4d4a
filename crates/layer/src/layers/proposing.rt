// Proposals come and go at the end.
ghost use Rattle.std.specs.Prelude.{◌≡◌, [], length, IfOk, nat_lt};
ghost use Rattle.access.specs.Codes.{coded};
ghost use Rattle.catalogue.specs.Counts.{count_of};
ghost use Rattle.catalogue.specs.Sound.{Sound};
ghost use Rattle.layer.specs.Proposals.{over, added, proposed_right, proposed_member, withdrawn};

use crate::layers::Layer;
use crate::proposals::Proposal;
use access::{Member, Refusal, RightNumbers};
use catalogue::{Catalogue, ListName, judge_member, judge_right};
use std::alloc::{AllocError, Global};

impl<C: Catalogue + Drop> Layer<C> {
    // A layer without proposals. It takes the memory for all that it may hold, so that no later call wants more.
    pub fn new(heap: Global, below: C) -> Result<Layer<C>, AllocError>
        ensures below { IfOk result (λ y. y.below ≡ below) }
        ensures proposals { IfOk result (λ y. y.proposals.items ≡ []) }
        ensures sound { IfOk result (λ y. Sound (C.Catalogue.meaning below) → Sound (over (C.Catalogue.meaning y.below) y.proposals.items)) }
    {
        let proposals = Vec::with_capacity(heap, 16)?;
        Ok(Layer { below, proposals })
    }
}

impl<C: Catalogue> Layer<C> {
    pub fn below(&self) -> &C
        ensures { result.now ≡ self.now.below }
    {
        &self.below
    }

    // Puts a proposal at the end, where there is room for it there and in its list.
    // Kept: soundness is a clause here and in the calls below, since what lies below may be any catalogue, sound or not.
    fn put(&mut self, list: ListName, p: Proposal) -> Result<usize, Refusal>
        requires { Sound (over (C.Catalogue.meaning self.old.below) self.old.proposals.items) }
        ensures answer { coded result ≡ (added (count_of (over (C.Catalogue.meaning self.old.below) self.old.proposals.items) list) self.old.proposals.items p).answer }
        ensures proposals { self.new.proposals.items ≡ (added (count_of (over (C.Catalogue.meaning self.old.below) self.old.proposals.items) list) self.old.proposals.items p).proposals }
        ensures below { self.new.below ≡ self.old.below }
    {
        let count = self.count(list);
        let n = self.proposals.len();
        if n >= 16 || count >= 4096 {
            return Err(Refusal::Full);
        }
        self.proposals.push_reserved(p);
        Ok(n)
    }

    // Proposes a right, and returns the number of the proposal.
    pub fn propose_right(&mut self, numbers: RightNumbers) -> Result<usize, Refusal>
        requires { Sound (over (C.Catalogue.meaning self.old.below) self.old.proposals.items) }
        ensures answer { coded result ≡ (proposed_right (C.Catalogue.meaning self.old.below) self.old.proposals.items numbers.principal numbers.entity numbers.right numbers.option).answer }
        ensures proposals { self.new.proposals.items ≡ (proposed_right (C.Catalogue.meaning self.old.below) self.old.proposals.items numbers.principal numbers.entity numbers.right numbers.option).proposals }
        ensures below { self.new.below ≡ self.old.below }
        ensures sound { Sound (over (C.Catalogue.meaning self.new.below) self.new.proposals.items) }
    {
        let x = judge_right(self, numbers)?;
        self.put(ListName::Rights, Proposal::Right(x))
    }

    // Proposes a member, and returns the number of the proposal.
    pub fn propose_member(&mut self, member: Member) -> Result<usize, Refusal>
        requires { Sound (over (C.Catalogue.meaning self.old.below) self.old.proposals.items) }
        ensures answer { coded result ≡ (proposed_member (C.Catalogue.meaning self.old.below) self.old.proposals.items member.account member.role).answer }
        ensures proposals { self.new.proposals.items ≡ (proposed_member (C.Catalogue.meaning self.old.below) self.old.proposals.items member.account member.role).proposals }
        ensures below { self.new.below ≡ self.old.below }
        ensures sound { Sound (over (C.Catalogue.meaning self.new.below) self.new.proposals.items) }
    {
        let x = judge_member(self, member)?;
        self.put(ListName::Members, Proposal::Member(x))
    }

    // Takes back the latest proposal, and says whether there was one.
    pub fn withdraw(&mut self) -> bool
        ensures answer { result ≡ nat_lt 0 (length self.old.proposals.items) }
        ensures proposals { self.new.proposals.items ≡ withdrawn self.old.proposals.items }
        ensures below { self.new.below ≡ self.old.below }
        ensures sound { Sound (over (C.Catalogue.meaning self.old.below) self.old.proposals.items) → Sound (over (C.Catalogue.meaning self.new.below) self.new.proposals.items) }
    {
        self.proposals.pop().is_some()
    }

    // Takes back every proposal; the memory stays.
    pub fn withdraw_all(&mut self)
        ensures proposals { self.new.proposals.items ≡ [] }
        ensures below { self.new.below ≡ self.old.below }
        ensures sound { Sound (C.Catalogue.meaning self.old.below) → Sound (over (C.Catalogue.meaning self.new.below) self.new.proposals.items) }
    {
        self.proposals.clear();
    }
}
