// What changes the layer and the book below it.
ghost use Rattle.catalogue.specs.Sound.{Sound};
ghost use Rattle.layer.specs.Stands.{stand_of, meant};

use crate::answers::Console;
use crate::failures::Failure;
use layer::{Change, Response, apply};

impl Console {
    pub(super) fn renew(&mut self, answer: &mut String) -> Result<(), Failure>
        ensures { Sound (meant (stand_of self.new.layer)) }
    {
        self.layer.clear();
        writeln!(answer, "done")?;
        Ok(())
    }

    pub(super) fn change(&mut self, change: Change, answer: &mut String) -> Result<(), Failure>
        requires { Sound (meant (stand_of self.old.layer)) }
        ensures { Sound (meant (stand_of self.new.layer)) }
    {
        match apply(&mut self.layer, change) {
            Response::Answered(number) => writeln!(answer, "number {}", number?)?,
            Response::Withdrawn(true) => writeln!(answer, "withdrawn")?,
            Response::Withdrawn(false) => writeln!(answer, "nothing")?,
        }
        Ok(())
    }
}
