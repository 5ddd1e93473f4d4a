// What calls name by numbers as text; a number that is not listed is shown as it is.
use crate::{
    EntityNumbers, Kind, LineNumbers, Object, ObjectNumbers, Refusal, Right, RightNumbers, Runner,
};
use std::fmt;

// What a number names, or the number after a word for what it should name.
fn show_listed<T: TryFrom<u8, Error = Refusal> + fmt::Display + Drop, W: fmt::Write>(
    f: &mut fmt::Formatter<W>,
    word: &str,
    number: u8,
) -> fmt::Result {
    match T::try_from(number) {
        Ok(x) => write!(f, "{x}"),
        Err(_) => write!(f, "{word} {number}"),
    }
}

impl fmt::Display for EntityNumbers {
    fn fmt<W: fmt::Write>(&self, f: &mut fmt::Formatter<W>) -> fmt::Result {
        let parent = self.parent;
        let owner = self.owner;
        let mode = self.mode;
        show_listed::<Kind, W>(f, "kind", self.kind)?;
        write!(f, " in {parent}, owner {owner}, mode {mode}")
    }
}

impl fmt::Display for RightNumbers {
    fn fmt<W: fmt::Write>(&self, f: &mut fmt::Formatter<W>) -> fmt::Result {
        let principal = self.principal;
        let entity = self.entity;
        let option = self.option;
        show_listed::<Right, W>(f, "right", self.right)?;
        write!(f, " on {entity} to {principal}, option {option}")
    }
}

impl fmt::Display for ObjectNumbers {
    fn fmt<W: fmt::Write>(&self, f: &mut fmt::Formatter<W>) -> fmt::Result {
        let kind = self.kind;
        let entity = self.entity;
        let right = self.right;
        match Object::try_from(*self) {
            Ok(object) => write!(f, "{object}"),
            Err(_) => write!(f, "object {kind} {entity} {right}"),
        }
    }
}

impl fmt::Display for LineNumbers {
    fn fmt<W: fmt::Write>(&self, f: &mut fmt::Formatter<W>) -> fmt::Result {
        let object = self.object;
        let runner = Runner::from(self.runner);
        let called = self.called;
        write!(f, "in {object}, under {runner}: call {called}")
    }
}
