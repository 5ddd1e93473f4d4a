// What a book answers as a catalogue.
ghost use Rattle.std.specs.Prelude.{◌≡◌, ℕ, Decides};
ghost use Rattle.std.specs.List.{slice_get};
ghost use Rattle.access.specs.Orders.{RoleBelow, role_below};
ghost use Rattle.catalogue.specs.Counts.{count_of};
ghost use Rattle.catalogue.specs.Sound.{Sound};
ghost use Rattle.book.specs.Meaning.{lists_of};

use crate::books::Book;
use access::{Entity, Line, Link, Member, RightRecord};
use catalogue::{Catalogue, ListName};

impl Catalogue for Book {
    ghost meaning = { lists_of };

    fn count(&self, list: ListName) -> usize
        ensures { result ≡ count_of (lists_of self.now) list }
    {
        match list {
            ListName::Entities => self.entities.len(),
            ListName::Links => self.links.len(),
            ListName::Rights => self.rights.len(),
            ListName::Members => self.members.len(),
            ListName::Lines => self.lines.len(),
        }
    }

    fn entity_at(&self, n: usize) -> Option<Entity>
        ensures { result ≡ slice_get (lists_of self.now).entities n }
    {
        self.entities.get(n).copied()
    }

    fn link_at(&self, n: usize) -> Option<Link>
        ensures { result ≡ slice_get (lists_of self.now).links n }
    {
        self.links.get(n).copied()
    }

    fn right_at(&self, n: usize) -> Option<RightRecord>
        ensures { result ≡ slice_get (lists_of self.now).rights n }
    {
        self.rights.get(n).copied()
    }

    fn member_at(&self, n: usize) -> Option<Member>
        ensures { result ≡ slice_get (lists_of self.now).members n }
    {
        self.members.get(n).copied()
    }

    fn line_at(&self, n: usize) -> Option<Line>
        ensures { result ≡ slice_get (lists_of self.now).lines n }
    {
        self.lines.get(n).copied()
    }
}

impl Book {
    // What any question of a catalogue asks holds of every book, and the test by which links are judged is the role order.
    pub fn sound(&self)
        ensures sound { Sound (lists_of self.now) }
        ensures order { (x y : ℕ) → Decides (role_below (lists_of self.now).entities (lists_of self.now).links x y) (RoleBelow (lists_of self.now).entities (lists_of self.now).links x y) }
    {}
}
