// Answers lines.
ghost use Rattle.std.specs.Prelude.{IfOk};
ghost use Rattle.catalogue.specs.Sound.{Sound};
ghost use Rattle.layer.specs.Stands.{stand_of, meant};

use crate::commands::{Command, read_command};
use crate::failures::Failure;
use access::RefusalCode;
use book::Book;
use catalogue::Catalogue;
use layer::Layer;
use listing::listing;
use runs::Step;
use session::Workspace;
use std::alloc::{AllocError, Global};

pub mod accounts;
pub mod changes;
pub mod images;
pub mod questions;

// The longest listing of a layer over a book has as many bytes.
const LISTING: usize = 400;

// A layer over a book, a list of steps, and what commands work in.
#[derive(Drop)]
pub struct Console {
    heap: Global,
    workspace: Workspace,
    pub layer: Layer<Book>,
    steps: Vec<Step>,
    // what an image is read in
    scratch: Book,
    // room for the steps of a witness
    found: Vec<Step>,
}

// Writes the listing of a catalogue.
fn put_listing<C: Catalogue>(
    workspace: &mut Workspace,
    catalogue: &C,
    answer: &mut String,
) -> Result<(), Failure>
    requires { Sound (C.meaning catalogue.now) }
{
    let mut room = [0; LISTING];
    let length = listing(workspace, catalogue, &mut room)?;
    for byte in &room[..length] {
        answer.push(char::from(*byte))?;
    }
    Ok(())
}

impl Console {
    pub fn new(heap: Global) -> Result<Console, AllocError>
        ensures { IfOk result (λ console. Sound (meant (stand_of console.layer))) }
    {
        let workspace = Workspace::new(heap)?;
        let layer = Layer::new(heap, Book::new(heap)?)?;
        let scratch = Book::new(heap)?;
        let found = vec![in heap; Step::Switch { actor: 0, to: 0 }; 4096]?;
        Ok(Console {
            heap,
            workspace,
            layer,
            steps: Vec::new(heap),
            scratch,
            found,
        })
    }

    // Does a command, and writes its answer.
    fn carry_out(&mut self, command: Command<'_>, answer: &mut String) -> Result<(), Failure>
        requires { Sound (meant (stand_of self.old.layer)) }
        ensures { Sound (meant (stand_of self.new.layer)) }
    {
        match command {
            Command::Nothing => Ok(()),
            Command::Remark(line) => Ok(writeln!(answer, "{line}")?),
            Command::New => self.renew(answer),
            Command::Change(change) => self.change(change, answer),
            Command::List => self.list(answer),
            Command::Row(account) => self.row(account, answer),
            Command::Unite(first, second) => self.unite(first, second, answer),
            Command::Same(first, second) => self.same(first, second, answer),
            Command::Compare(first, second) => self.compare(first, second, answer),
            Command::Exposure(account) => self.exposure(account, answer),
            Command::Can(question) => self.can(question, answer),
            Command::Witness(question) => self.witness(question, answer),
            Command::Step(step) => self.step(step, answer),
            Command::Replay(question) => self.replay(question, answer),
            Command::Write => self.write(answer),
            Command::Image(digits) => self.image(digits, answer),
            Command::Body(list, digits) => self.body(list, digits, answer),
        }
    }

    fn do_line(&mut self, line: &str, answer: &mut String) -> Result<(), Failure>
        requires { Sound (meant (stand_of self.old.layer)) }
        ensures { Sound (meant (stand_of self.new.layer)) }
    {
        let command = read_command(line).ok_or(Failure::NoCommand)?;
        self.carry_out(command, answer)
    }

    // Does what a line asks for, and writes the answer to it.
    pub fn answer(&mut self, line: &str, answer: &mut String) -> Result<(), AllocError>
        requires { Sound (meant (stand_of self.old.layer)) }
        ensures { Sound (meant (stand_of self.new.layer)) }
    {
        match self.do_line(line, answer) {
            Ok(()) => Ok(()),
            Err(Failure::NoCommand) => writeln!(answer, "?"),
            Err(Failure::Refused(refusal)) => writeln!(answer, "refused {}", RefusalCode(refusal)),
            Err(Failure::NoMemory(error)) => Err(error),
        }
    }
}
