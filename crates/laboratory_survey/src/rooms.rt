// What the assessments work in, and how they are printed.
ghost use Rattle.std.specs.Prelude.{OnOk};
ghost use Rattle.catalogue.specs.Sound.{Sound};
ghost use Rattle.layer.specs.Stands.{stand_of, meant};

use access::QuestionNumbers;
use assess::assess;
use book::Book;
use layer::{Change, Layer, Response};
use runs::Step;
use session::Workspace;
use std::alloc::{AllocError, Global};
use witness::witness;

// Whether a session of account 4 can use impersonate on account 3.
const QUESTION: QuestionNumbers = QuestionNumbers {
    account: 4,
    sense: 0,
    entity: 3,
    right: 6,
};

// All memory is taken when it is made.
#[derive(Drop)]
pub struct Rooms {
    workspace: Workspace,
    layer: Layer<Book>,
    responses: Vec<Response>,
    steps: Vec<Step>,
}

impl Rooms {
    pub fn new(heap: Global) -> Result<Rooms, AllocError> {
        let workspace = Workspace::new(heap)?;
        let layer = Layer::new(heap, Book::new(heap)?)?;
        let responses = vec![in heap; Response::Withdrawn(false); 16]?;
        let steps = vec![in heap; Step::Switch { actor: 0, to: 0 }; 4096]?;
        Ok(Rooms {
            workspace,
            layer,
            responses,
            steps,
        })
    }
}

fn says(can: bool) -> &'static str {
    if can { "can" } else { "cannot" }
}

// Whether the first account can come to act as the second, with the proposals of the layer and without them.
fn print_way(
    rt: &impl Print,
    (first, second): (u8, u8),
    through_layer: bool,
    through_book: bool,
) -> anyhow::Result<()> {
    let with = says(through_layer);
    let without = says(through_book);
    print!(rt; "  account {first} {with} come to act as account {second}")?;
    if through_layer != through_book {
        print!(rt; " through the layer, and {without} through the book")?;
    }
    println!(rt)?;
    Ok(())
}

// Makes the changes, and prints for two accounts whether each can come to act as the other.
fn print_pair(
    rt: &impl Print,
    rooms: &mut Rooms,
    changes: &[Change],
    first: u8,
    second: u8,
) -> anyhow::Result<()>
    ensures { OnOk result (Sound (meant (stand_of rooms.new.layer))) }
{
    let found = assess(
        &mut rooms.workspace,
        &mut rooms.layer,
        changes,
        &mut rooms.responses,
        first,
        second,
    )??;
    let (layer, book) = (
        found.through_layer.comparison,
        found.through_book.comparison,
    );
    print_way(
        rt,
        (first, second),
        layer.first_contains,
        book.first_contains,
    )?;
    print_way(
        rt,
        (second, first),
        layer.second_contains,
        book.second_contains,
    )
}

// Prints the steps by which a session of account 4 comes to impersonate account 3, if there are any.
fn print_steps(rt: &impl Print, rooms: &mut Rooms) -> anyhow::Result<()>
    requires { Sound (meant (stand_of rooms.old.layer)) }
{
    let found = witness(
        &mut rooms.workspace,
        &rooms.layer,
        QUESTION,
        &mut rooms.steps,
    )?;
    let Some(count) = found else {
        println!(rt; "  no steps lead a session of account 4 to impersonate account 3")?;
        return Ok(());
    };
    println!(rt; "  {count} steps lead a session of account 4 to impersonate account 3:")?;
    for (i, step) in rooms.steps.iter().take(count).enumerate() {
        println!(rt; "    {i}: {step}")?;
    }
    Ok(())
}

// Makes the changes, and prints which accounts of the laboratory can come to act as others.
pub fn print_case(rt: &impl Print, rooms: &mut Rooms, changes: &[Change]) -> anyhow::Result<()> {
    print_pair(rt, rooms, changes, 3, 4)?;
    print_pair(rt, rooms, changes, 3, 8)?;
    print_pair(rt, rooms, changes, 4, 8)?;
    print_steps(rt, rooms)
}
