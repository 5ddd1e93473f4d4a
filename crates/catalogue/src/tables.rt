// Tables of records, and the one way to find a record that stands.
ghost use Rattle.std.specs.Prelude.{◌≡◌, Bool};
ghost use Rattle.std.specs.List.{slice_get};
ghost use Rattle.std.specs.Option.{option_map};
ghost use Rattle.access.specs.Lists.{stands as stands_in};
ghost use Rattle.catalogue.specs.Tables.{position};

use access::{Entity, Kind};

// Records that can be told to stand for the same.
pub trait Same {
    ghost alike: { Self → Self → Bool };

    fn same(&self, other: &Self) -> bool
        ensures { result ≡ alike self.now other.now };
}

// The kind of an entity, or none where no entity stands at the number.
pub fn kind_at(entities: &[Entity], n: u8) -> Option<Kind>
    ensures { result ≡ option_map (λ e. e.kind) (slice_get entities.now n) }
{
    entities.get(n as usize).map(|e| e.kind)
}

// Whether an entity stands at the number.
pub fn stands(entities: &[Entity], n: u8) -> bool
    ensures { result ≡ stands_in entities.now n }
{
    kind_at(entities, n).is_some()
}

// The number of the first record that stands for the same as x.
pub fn find<T: Same>(table: &[T], x: &T) -> Option<usize>
    ensures { result ≡ position (λ y. T.alike y x.now) table.now }
{
    table.iter().position(|y| y.same(x))
}
