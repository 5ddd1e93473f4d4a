// Which line of code the numbers name, or why no book takes it.
ghost use Rattle.std.specs.Prelude.{◌≡◌};
ghost use Rattle.access.specs.Codes.{coded};
ghost use Rattle.access.specs.Lists.{is_account, is_procedure, is_table};
ghost use Rattle.catalogue.specs.Judgements.{judged_line, object_fits, runner_stands, runner_fits};

use crate::tables::{kind_at, stands};
use access::{Action, Entity, Kind, Line, LineNumbers, Object, Refusal, Runner};

// Whether the object can stand in a catalogue with these entities.
fn object_fits(entities: &[Entity], x: Object) -> bool
    ensures { result ≡ object_fits entities.now x }
{
    match x {
        Object::Procedure(n) => kind_at(entities, n) == Some(Kind::Procedure),
        Object::Triggers(n, _) => kind_at(entities, n) == Some(Kind::Table),
        Object::Created(_) => false,
    }
}

fn runner_stands(entities: &[Entity], runner: Runner) -> bool
    ensures { result ≡ runner_stands entities.now runner }
{
    match runner {
        Runner::Caller => true,
        Runner::Account(n) => stands(entities, n),
    }
}

fn runner_fits(entities: &[Entity], runner: Runner) -> bool
    ensures { result ≡ runner_fits entities.now runner }
{
    match runner {
        Runner::Caller => true,
        Runner::Account(n) => kind_at(entities, n) == Some(Kind::Account),
    }
}

// The line that the numbers name, or why a book with these entities does not take it.
pub fn judge_line(entities: &[Entity], numbers: LineNumbers) -> Result<Line, Refusal>
    ensures { coded result ≡ judged_line entities.now numbers.object numbers.runner numbers.called }
{
    let object = Object::try_from(numbers.object)?;
    let called = Object::try_from(numbers.called)?;
    let runner = Runner::from(numbers.runner);
    if !(stands(entities, object.place())
        && runner_stands(entities, runner)
        && stands(entities, called.place()))
    {
        return Err(Refusal::NotListed);
    }
    if !(object_fits(entities, object)
        && runner_fits(entities, runner)
        && object_fits(entities, called))
    {
        return Err(Refusal::WrongKind);
    }
    Ok(Line {
        object,
        runner,
        action: Action::Call(called),
    })
}
