// What is asked about the rows of accounts.
ghost use Rattle.std.specs.Prelude.{◌≡◌};
ghost use Rattle.catalogue.specs.Sound.{Sound};
ghost use Rattle.layer.specs.Stands.{stand_of, meant};

use crate::answers::{Console, put_listing};
use crate::failures::Failure;
use crate::hex::Hex;
use listing::exposure;
use rows::{same, unite};
use survey::{Pair, compare, reach};

// How many bytes a row has.
const WIDTH: usize = 96;

impl Console {
    pub(super) fn list(&mut self, answer: &mut String) -> Result<(), Failure>
        requires { Sound (meant (stand_of self.old.layer)) }
        ensures { self.new.layer ≡ self.old.layer }
    {
        put_listing(&mut self.workspace, &self.layer, answer)
    }

    pub(super) fn row(&mut self, account: u8, answer: &mut String) -> Result<(), Failure>
        requires { Sound (meant (stand_of self.old.layer)) }
        ensures { self.new.layer ≡ self.old.layer }
    {
        let mut row = [0; WIDTH];
        reach(&mut self.workspace, &self.layer, account, &mut row)?;
        writeln!(answer, "row {}", Hex(&row))?;
        Ok(())
    }

    fn rows(&mut self, first: u8, second: u8) -> Result<Pair, Failure>
        requires { Sound (meant (stand_of self.old.layer)) }
        ensures { self.new.layer ≡ self.old.layer }
    {
        Ok(compare(&mut self.workspace, &self.layer, first, second)?)
    }

    pub(super) fn unite(
        &mut self,
        first: u8,
        second: u8,
        answer: &mut String,
    ) -> Result<(), Failure>
        requires { Sound (meant (stand_of self.old.layer)) }
        ensures { self.new.layer ≡ self.old.layer }
    {
        let rows = self.rows(first, second)?;
        let mut row = [0; WIDTH];
        unite(&rows.first, &rows.second, &mut row)?;
        writeln!(answer, "row {}", Hex(&row))?;
        Ok(())
    }

    pub(super) fn same(&mut self, first: u8, second: u8, answer: &mut String) -> Result<(), Failure>
        requires { Sound (meant (stand_of self.old.layer)) }
        ensures { self.new.layer ≡ self.old.layer }
    {
        let rows = self.rows(first, second)?;
        let same = u8::from(same(&rows.first, &rows.second)?);
        writeln!(answer, "same {same}")?;
        Ok(())
    }

    pub(super) fn compare(
        &mut self,
        first: u8,
        second: u8,
        answer: &mut String,
    ) -> Result<(), Failure>
        requires { Sound (meant (stand_of self.old.layer)) }
        ensures { self.new.layer ≡ self.old.layer }
    {
        let found = self.rows(first, second)?.comparison;
        let first_contains = u8::from(found.first_contains);
        let second_contains = u8::from(found.second_contains);
        writeln!(answer, "contains {first_contains} {second_contains}")?;
        Ok(())
    }

    pub(super) fn exposure(&mut self, account: u8, answer: &mut String) -> Result<(), Failure>
        requires { Sound (meant (stand_of self.old.layer)) }
        ensures { self.new.layer ≡ self.old.layer }
    {
        let exposure = exposure(&mut self.workspace, &self.layer, account)?;
        writeln!(answer, "exposure {exposure}")?;
        Ok(())
    }
}
