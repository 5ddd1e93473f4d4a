// How a list of a catalogue is copied, one record at a time.
ghost use Rattle.std.specs.Prelude.{◌≡◌, ◌≤◌, length, vec_capacity};
ghost use Rattle.catalogue.specs.Sound.{Sound};

use catalogue::{Catalogue, Listed};

// Makes a table that has room for it a list of a catalogue.
// Kept: the form of a loop over a catalogue's records is a rule of the project.
#[tactic(auto, using(crate::proofs::Copying::take_found))]
pub(crate) fn load<T: Listed, C: Catalogue>(catalogue: &C, table: &mut Vec<T>)
    requires sound { Sound (C.meaning catalogue.now) }
    requires room { length (T.listed (C.meaning catalogue.now)) ≤ vec_capacity table.old }
    ensures items { table.new.items ≡ T.listed (C.meaning catalogue.now) }
    ensures capacity { vec_capacity table.new ≡ vec_capacity table.old }
{
    table.clear();
    for n in 0..catalogue.count(T::list()) {
        let Some(x) = T::at(catalogue, n) else {
            return;
        };
        table.push_reserved(x);
    }
}
