// What the tests share.
ghost use Rattle.std.specs.Prelude.{◌≡◌, ◌≤◌, length, MatchResult};
ghost use Rattle.catalogue.specs.Sound.{Sound};
ghost use Rattle.layer.specs.Changes.{stand_after};
ghost use Rattle.layer.specs.Proposals.{over};
ghost use Rattle.layer.specs.Stands.{stand_of, meant};

use access::{EntityNumbers, Member, Refusal, RightNumbers};
use book::{Book, Call, fill};
use catalogue::{Catalogue, ListName};
use layer::{Change, Layer, Response};

// In every list of changes below, account 3 and role 4 come first.
pub const ACCOUNT: Change = Change::Build(Call::Declare(EntityNumbers {
    kind: 3,
    parent: 0,
    owner: 3,
    mode: 0,
}));

pub const ROLE: Change = Change::Build(Call::Declare(EntityNumbers {
    kind: 4,
    parent: 0,
    owner: 3,
    mode: 0,
}));

pub const GRANT: Change = Change::Build(Call::Grant(RightNumbers {
    principal: 3,
    entity: 0,
    right: 0,
    option: 0,
}));

pub const IN_ROLE: Member = Member {
    account: 3,
    role: 4,
};

pub const MEMBER: Change = Change::ProposeMember(IN_ROLE);

// The right of a principal to select from the root.
pub fn right_of(principal: u8, option: u8) -> RightNumbers {
    RightNumbers {
        principal,
        entity: 0,
        right: 0,
        option,
    }
}

// Proposes to give a principal that right.
pub fn right_to(principal: u8, option: u8) -> Change {
    Change::ProposeRight(right_of(principal, option))
}

// What `fill` says of a layer over a book.
pub fn gather(
    layer: &mut Layer<Book>,
    changes: &[Change],
    responses: &mut [Response],
) -> Result<usize, Refusal>
    ensures stand { MatchResult result (λ _. stand_of layer.new ≡ stand_after changes.now) (λ _. layer.new ≡ layer.old) }
    ensures sound { MatchResult result (λ _. Sound (meant (stand_of layer.new))) (λ _. layer.new ≡ layer.old) }
{
    fill(layer, changes, responses)
}

// Whether the right records of a catalogue have these principals and options.
pub fn rights_are<C: Catalogue>(catalogue: &C, rights: &[(u8, bool)]) -> bool
    requires { Sound (C.Catalogue.meaning catalogue.now) }
{
    catalogue.count(ListName::Rights) == rights.len()
        && rights.iter().enumerate().all(|(n, (principal, option))| {
            catalogue
                .right_at(n)
                .is_some_and(|r| r.principal == *principal && r.option == *option)
        })
}

// Proposes that account 3 is in role 4, `n` times; returns what the last proposal returned.
pub fn crowd<C: Catalogue>(layer: &mut Layer<C>, n: usize) -> Result<usize, Refusal>
    requires { Sound (over (C.Catalogue.meaning layer.old.below) layer.old.proposals.items) }
    ensures { Sound (over (C.Catalogue.meaning layer.new.below) layer.new.proposals.items) }
{
    let mut last = Ok(0);
    for _ in 0..n {
        last = layer.propose_member(IN_ROLE);
    }
    last
}
