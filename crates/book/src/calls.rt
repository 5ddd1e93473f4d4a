// Building calls as values, and what any list of them comes to.
ghost use Rattle.std.specs.Prelude.{◌≡◌};
ghost use Rattle.access.specs.Codes.{coded};
ghost use Rattle.book.specs.Meaning.{lists_of};
ghost use Rattle.book.specs.Gathered.{called as outcome, lists_after};

use crate::books::Book;
use crate::fills::Gathers;
use access::{EntityNumbers, LineNumbers, Link, Member, Refusal, RightNumbers};

#[derive(Clone, Copy, PartialEq, Eq)]
pub enum Call {
    Declare(EntityNumbers),
    Link(Link),
    Grant(RightNumbers),
    Join(Member),
    Line(LineNumbers),
}

// Makes one call, and returns what it returned.
pub fn apply(book: &mut Book, call: Call) -> Result<usize, Refusal>
    ensures answer { coded result ≡ (outcome (lists_of book.old) call).answer }
    ensures lists { lists_of book.new ≡ (outcome (lists_of book.old) call).lists }
{
    match call {
        Call::Declare(numbers) => book.declare(numbers),
        Call::Link(link) => book.link(link),
        Call::Grant(numbers) => book.grant(numbers),
        Call::Join(member) => book.join(member),
        Call::Line(numbers) => book.line(numbers),
    }
}

// A book gathers building calls.
impl Gathers for Book {
    type Call = Call;

    type Answer = Result<usize, Refusal>;

    ghost holds = { λ book calls. lists_of book ≡ lists_after calls };

    ghost returns = { λ before call answer. coded answer ≡ (outcome (lists_after before) call).answer };

    fn renew(&mut self) {
        self.clear();
    }

    fn perform(&mut self, call: Call) -> Result<usize, Refusal> {
        apply(self, call)
    }
}
