// Changes to a layer over a book as values, and what any list of them comes to.
ghost use Rattle.std.specs.Prelude.{◌≡◌};
ghost use Rattle.catalogue.specs.Sound.{Sound};
ghost use Rattle.layer.specs.Stands.{stand_of, meant};
ghost use Rattle.layer.specs.Changes.{changed, stand_after, said, Gathered};

use crate::layers::Layer;
use access::{Member, Refusal, RightNumbers};
use book::{Book, Call, Gathers};

#[derive(Clone, Copy, PartialEq, Eq)]
pub enum Change {
    Build(Call),
    ProposeRight(RightNumbers),
    ProposeMember(Member),
    Withdraw,
}

#[derive(Clone, Copy, PartialEq, Eq)]
pub enum Response {
    Answered(Result<usize, Refusal>),
    // whether there was a proposal to take back
    Withdrawn(bool),
}

// Makes one change, and returns what it returned.
pub fn apply(layer: &mut Layer<Book>, change: Change) -> Response
    requires { Sound (meant (stand_of layer.old)) }
    ensures response { said result ≡ (changed (stand_of layer.old) change).response }
    ensures stand { stand_of layer.new ≡ (changed (stand_of layer.old) change).stand }
    ensures sound { Sound (meant (stand_of layer.new)) }
{
    match change {
        Change::Build(call) => Response::Answered(layer.build(call)),
        Change::ProposeRight(numbers) => Response::Answered(layer.propose_right(numbers)),
        Change::ProposeMember(member) => Response::Answered(layer.propose_member(member)),
        Change::Withdraw => Response::Withdrawn(layer.withdraw()),
    }
}

// A layer over a book gathers changes.
impl Gathers for Layer<Book> {
    type Call = Change;

    type Answer = Response;

    ghost holds = { λ layer changes. Gathered (stand_of layer) changes };

    ghost returns = { λ before change response. said response ≡ (changed (stand_after before) change).response };

    fn renew(&mut self) {
        self.clear();
    }

    fn perform(&mut self, change: Change) -> Response {
        apply(self, change)
    }
}
