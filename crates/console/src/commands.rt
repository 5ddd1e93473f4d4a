// What a line asks for.
use crate::numbers::{read_entity, read_line, read_link, read_member, read_question, read_right};
use crate::steps::read_step;
use crate::words::Words;
use access::QuestionNumbers;
use book::Call;
use catalogue::ListName;
use layer::Change;
use runs::Step;

#[derive(Clone, Copy)]
pub enum Command<'a> {
    // a blank line
    Nothing,
    // a line that is only repeated
    Remark(&'a str),
    New,
    Change(Change),
    List,
    Row(u8),
    Unite(u8, u8),
    Same(u8, u8),
    Compare(u8, u8),
    Exposure(u8),
    Can(QuestionNumbers),
    Witness(QuestionNumbers),
    Step(Step),
    Replay(QuestionNumbers),
    Write,
    // the digits of an image
    Image(&'a str),
    Body(ListName, &'a str),
}

// The list of a number, in the order of an image's bodies.
fn read_list(words: &mut Words<'_>) -> Option<ListName> {
    match words.number()? {
        0 => Some(ListName::Entities),
        1 => Some(ListName::Links),
        2 => Some(ListName::Rights),
        3 => Some(ListName::Members),
        4 => Some(ListName::Lines),
        _ => None,
    }
}

// A change to the layer or to the book below it.
fn read_change(name: &str, words: &mut Words<'_>) -> Option<Change> {
    match name {
        "declare" => Some(Change::Build(Call::Declare(read_entity(words)?))),
        "link" => Some(Change::Build(Call::Link(read_link(words)?))),
        "grant" => Some(Change::Build(Call::Grant(read_right(words)?))),
        "join" => Some(Change::Build(Call::Join(read_member(words)?))),
        "line" => Some(Change::Build(Call::Line(read_line(words)?))),
        "propose" => Some(Change::ProposeRight(read_right(words)?)),
        "propose-member" => Some(Change::ProposeMember(read_member(words)?)),
        "withdraw" => Some(Change::Withdraw),
        _ => None,
    }
}

// A question about the layer, or a change.
fn read_asked<'a>(name: &str, words: &mut Words<'a>) -> Option<Command<'a>> {
    match name {
        "list" => Some(Command::List),
        "row" => Some(Command::Row(words.number()?)),
        "unite" => Some(Command::Unite(words.number()?, words.number()?)),
        "same" => Some(Command::Same(words.number()?, words.number()?)),
        "compare" => Some(Command::Compare(words.number()?, words.number()?)),
        "exposure" => Some(Command::Exposure(words.number()?)),
        "can" => Some(Command::Can(read_question(words)?)),
        "witness" => Some(Command::Witness(read_question(words)?)),
        "replay" => Some(Command::Replay(read_question(words)?)),
        _ => Some(Command::Change(read_change(name, words)?)),
    }
}

fn read_named<'a>(name: &str, words: &mut Words<'a>) -> Option<Command<'a>> {
    match name {
        "new" => Some(Command::New),
        "step" => Some(Command::Step(read_step(words)?)),
        "write" => Some(Command::Write),
        "image" => Some(Command::Image(words.next_word()?)),
        "body" => Some(Command::Body(read_list(words)?, words.next_word()?)),
        _ => read_asked(name, words),
    }
}

// The command that a line is.
pub fn read_command(line: &str) -> Option<Command<'_>> {
    if line.starts_with('#') {
        return Some(Command::Remark(line));
    }
    let mut words = Words::of(line);
    let Some(name) = words.next_word() else {
        return Some(Command::Nothing);
    };
    let command = read_named(name, &mut words)?;
    words.end()?;
    Some(command)
}
