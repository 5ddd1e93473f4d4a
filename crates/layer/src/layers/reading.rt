// What a layer answers as a catalogue: the lists below, each with the proposals of that kind after it.
ghost use Rattle.std.specs.Prelude.{◌≡◌};
ghost use Rattle.std.specs.List.{slice_get};
ghost use Rattle.catalogue.specs.Sound.{Sound};
ghost use Rattle.layer.specs.Proposals.{over};

use crate::layers::Layer;
use crate::proposals::{Proposed, count_own, record_over};
use access::{Entity, Line, Link, Member, RightRecord};
use catalogue::{Catalogue, ListName};

impl<C: Catalogue> Layer<C> {
    // The record of a number in a list with proposals, or none past the end.
    #[tactic(auto, using(crate::proofs::Over::sound_below))]
    fn found<T: Proposed>(&self, n: usize) -> Option<T>
        requires { Sound (over (C.Catalogue.meaning self.now.below) self.now.proposals.items) }
        ensures { result ≡ slice_get (T.listed (over (C.Catalogue.meaning self.now.below) self.now.proposals.items)) n }
    {
        let count = self.below.count(T::list());
        record_over(T::at(&self.below, n), count, &self.proposals, n)
    }
}

impl<C: Catalogue> Catalogue for Layer<C> {
    ghost meaning = { λ y. over (C.Catalogue.meaning y.below) y.proposals.items };

    fn count(&self, list: ListName) -> usize {
        self.below.count(list) + count_own(&self.proposals, list)
    }

    #[tactic(auto, using(crate::proofs::Over::sound_below))]
    fn entity_at(&self, n: usize) -> Option<Entity> {
        self.below.entity_at(n)
    }

    #[tactic(auto, using(crate::proofs::Over::sound_below))]
    fn link_at(&self, n: usize) -> Option<Link> {
        self.below.link_at(n)
    }

    fn right_at(&self, n: usize) -> Option<RightRecord> {
        self.found(n)
    }

    fn member_at(&self, n: usize) -> Option<Member> {
        self.found(n)
    }

    #[tactic(auto, using(crate::proofs::Over::sound_below))]
    fn line_at(&self, n: usize) -> Option<Line> {
        self.below.line_at(n)
    }
}
