// Over a book a layer passes the building calls down.
ghost use Rattle.std.specs.Prelude.{◌≡◌};
ghost use Rattle.access.specs.Codes.{coded};
ghost use Rattle.book.specs.Gathered.{called as outcome};
ghost use Rattle.book.specs.Meaning.{lists_of};
ghost use Rattle.catalogue.specs.Calls.{declared, linked, granted, joined, lined};
ghost use Rattle.catalogue.specs.Sound.{Sound};
ghost use Rattle.layer.specs.Stands.{stand_of, meant, new_stand, PassedDown};

use crate::layers::Layer;
use access::{EntityNumbers, LineNumbers, Link, Member, Refusal, RightNumbers};
use book::{Book, Call, apply};

impl Layer<Book> {
    // Makes the layer and the book below it as they were when they were new; the memory stays.
    pub fn clear(&mut self)
        ensures stand { stand_of self.new ≡ new_stand }
        ensures sound { Sound (meant (stand_of self.new)) }
    {
        self.below.clear();
        self.withdraw_all();
    }

    // Passes down a building call. The answer is the book's, the proposals stay, and what was sound is.
    pub(crate) fn build(&mut self, call: Call) -> Result<usize, Refusal>
        ensures answer { coded result ≡ (outcome (lists_of self.old.below) call).answer }
        ensures lists { lists_of self.new.below ≡ (outcome (lists_of self.old.below) call).lists }
        ensures passed { PassedDown self.old self.new }
    {
        apply(&mut self.below, call)
    }

    pub fn declare(&mut self, numbers: EntityNumbers) -> Result<usize, Refusal>
        ensures answer { coded result ≡ (declared (lists_of self.old.below) numbers.kind numbers.parent numbers.owner numbers.mode).answer }
        ensures lists { lists_of self.new.below ≡ (declared (lists_of self.old.below) numbers.kind numbers.parent numbers.owner numbers.mode).lists }
        ensures passed { PassedDown self.old self.new }
    {
        self.build(Call::Declare(numbers))
    }

    pub fn link(&mut self, link: Link) -> Result<usize, Refusal>
        ensures answer { coded result ≡ (linked (lists_of self.old.below) link.lower link.upper).answer }
        ensures lists { lists_of self.new.below ≡ (linked (lists_of self.old.below) link.lower link.upper).lists }
        ensures passed { PassedDown self.old self.new }
    {
        self.build(Call::Link(link))
    }

    pub fn grant(&mut self, numbers: RightNumbers) -> Result<usize, Refusal>
        ensures answer { coded result ≡ (granted (lists_of self.old.below) numbers.principal numbers.entity numbers.right numbers.option).answer }
        ensures lists { lists_of self.new.below ≡ (granted (lists_of self.old.below) numbers.principal numbers.entity numbers.right numbers.option).lists }
        ensures passed { PassedDown self.old self.new }
    {
        self.build(Call::Grant(numbers))
    }

    pub fn join(&mut self, member: Member) -> Result<usize, Refusal>
        ensures answer { coded result ≡ (joined (lists_of self.old.below) member.account member.role).answer }
        ensures lists { lists_of self.new.below ≡ (joined (lists_of self.old.below) member.account member.role).lists }
        ensures passed { PassedDown self.old self.new }
    {
        self.build(Call::Join(member))
    }

    pub fn line(&mut self, numbers: LineNumbers) -> Result<usize, Refusal>
        ensures answer { coded result ≡ (lined (lists_of self.old.below) numbers.object numbers.runner numbers.called).answer }
        ensures lists { lists_of self.new.below ≡ (lined (lists_of self.old.below) numbers.object numbers.runner numbers.called).lists }
        ensures passed { PassedDown self.old self.new }
    {
        self.build(Call::Line(numbers))
    }
}
