// An entity as text.
use crate::{Entity, Mode};
use std::fmt;

impl fmt::Display for Entity {
    fn fmt<W: fmt::Write>(&self, f: &mut fmt::Formatter<W>) -> fmt::Result {
        let kind = self.kind;
        let parent = self.parent;
        let owner = self.owner;
        match self.mode {
            Mode::Creator => write!(f, "{kind} in {parent}, owner {owner}"),
            Mode::Parent => write!(f, "{kind} in {parent}, owner {owner}, mode parent"),
        }
    }
}
