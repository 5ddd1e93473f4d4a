// The calls that fill a book.
ghost use Rattle.std.specs.Prelude.{◌≡◌, IfOk};
ghost use Rattle.std.specs.List.{slice_get};
ghost use Rattle.access.specs.Codes.{coded};
ghost use Rattle.access.specs.Lists.{new_lists};
ghost use Rattle.catalogue.specs.Calls.{declared, linked, granted, joined, lined, placed_right, with_rights, raised_at};
ghost use Rattle.catalogue.specs.Sound.{TakesRight};
ghost use Rattle.book.specs.Meaning.{lists_of};

use crate::books::Book;
use crate::placing::place;
use access::{
    Entity, EntityNumbers, Kind, LineNumbers, Link, Member, Refusal, RightNumbers, RightRecord,
};
use catalogue::{judge_entity, judge_line, judge_link, judge_member, judge_right};
use std::alloc::{AllocError, Global};

impl Book {
    // A new book. It takes the memory for all that a book may hold, so that no later call wants more.
    pub fn new(heap: Global) -> Result<Book, AllocError>
        ensures { IfOk result (λ b. lists_of b ≡ new_lists) }
    {
        let mut entities = Vec::with_capacity(heap, 96)?;
        let links = Vec::with_capacity(heap, 64)?;
        let rights = Vec::with_capacity(heap, 256)?;
        let members = Vec::with_capacity(heap, 128)?;
        let lines = Vec::with_capacity(heap, 256)?;
        entities.push_reserved(Entity::first(Kind::Container));
        entities.push_reserved(Entity::first(Kind::Role));
        entities.push_reserved(Entity::first(Kind::Role));
        Ok(Book {
            entities,
            links,
            rights,
            members,
            lines,
        })
    }

    // Makes the book as it was when it was new; the memory stays.
    pub fn clear(&mut self)
        ensures { lists_of self.new ≡ new_lists }
    {
        self.entities.truncate(3);
        self.links.clear();
        self.rights.clear();
        self.members.clear();
        self.lines.clear();
    }

    // Declares an entity, and returns its number.
    pub fn declare(&mut self, numbers: EntityNumbers) -> Result<usize, Refusal>
        ensures answer { coded result ≡ (declared (lists_of self.old) numbers.kind numbers.parent numbers.owner numbers.mode).answer }
        ensures lists { lists_of self.new ≡ (declared (lists_of self.old) numbers.kind numbers.parent numbers.owner numbers.mode).lists }
    {
        let x = judge_entity(&self.entities, numbers)?;
        let n = self.entities.len();
        self.entities.push_reserved(x);
        Ok(n)
    }

    // Puts a role below another, and returns the number of the record.
    pub fn link(&mut self, link: Link) -> Result<usize, Refusal>
        ensures answer { coded result ≡ (linked (lists_of self.old) link.lower link.upper).answer }
        ensures lists { lists_of self.new ≡ (linked (lists_of self.old) link.lower link.upper).lists }
    {
        let x = judge_link(&self.entities, &self.links, link)?;
        place(&mut self.links, x, 64)
    }

    fn put_right(&mut self, x: RightRecord) -> Result<usize, Refusal>
        requires { TakesRight (lists_of self.old).entities x }
        ensures answer { coded result ≡ (placed_right (lists_of self.old) x).0 }
        ensures lists { lists_of self.new ≡ with_rights (lists_of self.old) (placed_right (lists_of self.old) x).1 }
    {
        place(&mut self.rights, x, 256)
    }

    // Raises the option of the right record that stands at a number.
    fn raise(&mut self, n: usize)
        ensures { lists_of self.new ≡ with_rights (lists_of self.old) (raised_at (lists_of self.old).rights (slice_get (lists_of self.old).rights n) n) }
    {
        if let Some(r) = self.rights.get_mut(n) {
            r.option = true;
        }
    }

    // Grants a right on an entity to a principal, and returns the number of the record; the option raises one that stands.
    pub fn grant(&mut self, numbers: RightNumbers) -> Result<usize, Refusal>
        ensures answer { coded result ≡ (granted (lists_of self.old) numbers.principal numbers.entity numbers.right numbers.option).answer }
        ensures lists { lists_of self.new ≡ (granted (lists_of self.old) numbers.principal numbers.entity numbers.right numbers.option).lists }
    {
        let x = judge_right(self, numbers)?;
        let n = self.put_right(x)?;
        if x.option {
            self.raise(n);
        }
        Ok(n)
    }

    // Puts an account into a role, and returns the number of the record.
    pub fn join(&mut self, member: Member) -> Result<usize, Refusal>
        ensures answer { coded result ≡ (joined (lists_of self.old) member.account member.role).answer }
        ensures lists { lists_of self.new ≡ (joined (lists_of self.old) member.account member.role).lists }
    {
        let x = judge_member(self, member)?;
        place(&mut self.members, x, 128)
    }

    // Puts a line into an object that calls another, and returns the number of the record.
    pub fn line(&mut self, numbers: LineNumbers) -> Result<usize, Refusal>
        ensures answer { coded result ≡ (lined (lists_of self.old) numbers.object numbers.runner numbers.called).answer }
        ensures lists { lists_of self.new ≡ (lined (lists_of self.old) numbers.object numbers.runner numbers.called).lists }
    {
        let x = judge_line(&self.entities, numbers)?;
        place(&mut self.lines, x, 256)
    }
}
