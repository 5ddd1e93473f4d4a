// What is asked about the sessions of an account.
ghost use Rattle.std.specs.Prelude.{◌≡◌};
ghost use Rattle.catalogue.specs.Sound.{Sound};
ghost use Rattle.layer.specs.Stands.{stand_of, meant};

use crate::answers::Console;
use crate::failures::Failure;
use crate::steps::InWords;
use access::QuestionNumbers;
use replay::replay;
use runs::Step;
use witness::witness;

impl Console {
    // How many steps lead to the right, if any do; they stand in the room for them.
    fn find(&mut self, question: QuestionNumbers) -> Result<Option<usize>, Failure>
        requires { Sound (meant (stand_of self.old.layer)) }
        ensures { self.new.layer ≡ self.old.layer }
    {
        let found = witness(&mut self.workspace, &self.layer, question, &mut self.found)?;
        Ok(found)
    }

    pub(super) fn can(
        &mut self,
        question: QuestionNumbers,
        answer: &mut String,
    ) -> Result<(), Failure>
        requires { Sound (meant (stand_of self.old.layer)) }
        ensures { self.new.layer ≡ self.old.layer }
    {
        match self.find(question)? {
            Some(_) => writeln!(answer, "yes")?,
            None => writeln!(answer, "no")?,
        }
        Ok(())
    }

    pub(super) fn witness(
        &mut self,
        question: QuestionNumbers,
        answer: &mut String,
    ) -> Result<(), Failure>
        requires { Sound (meant (stand_of self.old.layer)) }
        ensures { self.new.layer ≡ self.old.layer }
    {
        let Some(count) = self.find(question)? else {
            writeln!(answer, "no")?;
            return Ok(());
        };
        self.steps.clear();
        writeln!(answer, "yes {count}")?;
        for step in self.found.iter().take(count) {
            self.steps.push(*step)?;
            writeln!(answer, "step {}", InWords(*step))?;
        }
        Ok(())
    }

    pub(super) fn step(&mut self, step: Step, answer: &mut String) -> Result<(), Failure>
        ensures { self.new.layer ≡ self.old.layer }
    {
        let number = self.steps.len();
        self.steps.push(step)?;
        writeln!(answer, "step {number}")?;
        Ok(())
    }

    pub(super) fn replay(
        &mut self,
        question: QuestionNumbers,
        answer: &mut String,
    ) -> Result<(), Failure>
        requires { Sound (meant (stand_of self.old.layer)) }
        ensures { self.new.layer ≡ self.old.layer }
    {
        let replayed = replay(&mut self.workspace, &self.layer, question, &self.steps);
        self.steps.clear();
        replayed?;
        writeln!(answer, "accepted")?;
        Ok(())
    }
}
