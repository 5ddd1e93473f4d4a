// Tells of the laboratory example which accounts can come to act as others and by which steps, and what one right changes.
#![tactic(auto)]

mod changes;
mod rooms;

use changes::{laboratory, with_proposal, without_right};
use rooms::{Rooms, print_case};

fn main(rt: HostRuntime) -> anyhow::Result<()> {
    let heap = rt.alloc();
    let mut rooms = Rooms::new(heap)?;
    println!(rt; "in the laboratory")?;
    print_case(&rt, &mut rooms, &laboratory())?;
    println!(rt; "without the right of account 4 to alter table 6")?;
    print_case(&rt, &mut rooms, &without_right())?;
    println!(rt; "without this right in the book, and with it proposed in the layer above")?;
    print_case(&rt, &mut rooms, &with_proposal(heap)?)
}
