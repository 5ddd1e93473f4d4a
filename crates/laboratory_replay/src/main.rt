// Replays how a session of account 4 comes to impersonate account 3 in the laboratory example, with and without one right.
#![tactic(auto)]

use access::QuestionNumbers;
use book::Call;
use examples::{STEPS, build, laboratory_calls, without_alter};
use replay::replay;
use session::Workspace;

// Whether a session of account 4 can use impersonate on account 3.
const QUESTION: QuestionNumbers = QuestionNumbers {
    account: 4,
    sense: 0,
    entity: 3,
    right: 6,
};

// Builds the book from the calls, and replays the steps to the right that is asked for.
fn run_on(
    rt: &(impl Print + AllocGlobal),
    workspace: &mut Workspace,
    calls: &[Call],
) -> anyhow::Result<()> {
    let book = build(rt.alloc(), calls)??;
    book.sound();
    match replay(workspace, &book, QUESTION, &STEPS) {
        Ok(()) => println!(rt; "accepted: a session of account 4 can impersonate account 3")?,
        Err(refusal) => println!(rt; "refused: {refusal}")?,
    }
    Ok(())
}

fn main(rt: HostRuntime) -> anyhow::Result<()> {
    let mut workspace = Workspace::new(rt.alloc())?;
    println!(rt; "the steps:")?;
    for (i, step) in STEPS.iter().enumerate() {
        println!(rt; "  {i}: {step}")?;
    }
    println!(rt; "in the laboratory")?;
    run_on(&rt, &mut workspace, &laboratory_calls())?;
    println!(rt; "without the right to alter the table")?;
    run_on(&rt, &mut workspace, &without_alter())
}
