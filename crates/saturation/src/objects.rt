// The objects of an entity.
ghost use Rattle.std.specs.Prelude.{◌≡◌, true};
ghost use Rattle.access.specs.declared.code.Object.{Object};
ghost use Rattle.access.specs.Lists.{◌∈◌};
ghost use Rattle.access.specs.Places.{place_of};
ghost use Rattle.runs.specs.Standing.{IsObject};
ghost use Rattle.session.specs.Models.{lists_of};

use access::{Event, Kind, Object};
use catalogue::kind_at;
use session::Model;

// Whether an entity stands and is of a kind that can have objects.
pub fn has_objects(model: &Model, entity: u8) -> bool
    ensures { (x : Object) → place_of x ≡ entity → IsObject (lists_of model.now) x → result ≡ true }
{
    matches!(
        kind_at(model.entities(), entity),
        Some(Kind::Container | Kind::Table | Kind::Procedure)
    )
}

// The objects that an entity can have, whatever its kind.
pub fn objects_at(entity: u8) -> [Object; 5]
    ensures all { (x : Object) → place_of x ≡ entity → x ∈ result }
    ensures only { (x : Object) → x ∈ result → place_of x ≡ entity }
{
    [
        Object::Procedure(entity),
        Object::Triggers(entity, Event::Inserted),
        Object::Triggers(entity, Event::Updated),
        Object::Triggers(entity, Event::Deleted),
        Object::Created(entity),
    ]
}
