// What a catalogue holds, printed for people.
#![tactic(auto)]

ghost use Rattle.catalogue.specs.Sound.{Sound};

use access::{Entity, Line, Link, Member, RightRecord};
use catalogue::{Catalogue, Listed};
use std::fmt::Display;

// Prints a list with its name and count, and its records with their numbers.
// Kept: the form of a loop over a catalogue's records is a rule of the project.
fn print_list<T: Listed + Display, C: Catalogue>(
    rt: &impl Print,
    name: &str,
    catalogue: &C,
) -> anyhow::Result<()>
    requires { Sound (C.meaning catalogue.now) }
{
    let count = catalogue.count(T::list());
    println!(rt; "{name}: {count}")?;
    for n in 0..count {
        let Some(record) = T::at(catalogue, n) else {
            break;
        };
        println!(rt; "  {n}: {record}")?;
    }
    Ok(())
}

// Prints the five lists.
pub fn print_catalogue<C: Catalogue>(rt: &impl Print, catalogue: &C) -> anyhow::Result<()>
    requires { Sound (C.meaning catalogue.now) }
{
    print_list::<Entity, C>(rt, "entities", catalogue)?;
    print_list::<Link, C>(rt, "links", catalogue)?;
    print_list::<RightRecord, C>(rt, "rights", catalogue)?;
    print_list::<Member, C>(rt, "members", catalogue)?;
    print_list::<Line, C>(rt, "lines", catalogue)
}
