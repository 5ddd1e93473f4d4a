// Reads command lines on standard input, and prints an answer to each.
#![tactic(auto)]

ghost use Rattle.catalogue.specs.Sound.{Sound};
ghost use Rattle.layer.specs.Stands.{stand_of, meant};

mod answers;
mod commands;
mod failures;
mod hex;
mod numbers;
mod steps;
mod words;

use answers::Console;
use std::io;

// Prints the answer to each line.
fn answer_lines(
    rt: &impl Print,
    console: &mut Console,
    answer: &mut String,
    text: &str,
) -> anyhow::Result<()>
    requires { Sound (meant (stand_of console.old.layer)) }
{
    for line in text.split('\n') {
        answer.clear();
        console.answer(line, answer)?;
        print!(rt; "{answer}")?;
    }
    Ok(())
}

fn main(rt: HostRuntime) -> anyhow::Result<()> {
    let heap = rt.alloc();
    let text = io::read_to_string(heap, rt.stdin())?;
    let mut console = Console::new(heap)?;
    let mut answer = String::new(heap);
    answer_lines(&rt, &mut console, &mut answer, &text)
}
