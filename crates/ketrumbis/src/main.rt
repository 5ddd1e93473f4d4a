// Reads an image from standard input, and prints the listing of what it holds, or its first fault.
#![tactic(auto)]

use access::RefusalCode;
use book::Book;
use image::read;
use listing::listing;
use session::Workspace;
use std::io::{Read, Write};

// One byte more than the longest image has: longer input has the fault that this many of its bytes have.
const MOST: u64 = 3605;

// The listing of sixteen accounts has as many bytes as this, and that of fewer accounts has fewer.
const ROOM: usize = 400;

fn main(rt: HostRuntime) -> anyhow::Result<()> {
    let heap = rt.alloc();
    let mut bytes = Vec::new(heap);
    rt.stdin().take(MOST).read_to_end(&mut bytes)?;
    let mut scratch = Book::new(heap)?;
    let mut workspace = Workspace::new(heap)?;
    let mut room = [0; ROOM];
    match read(&mut scratch, &bytes) {
        Ok(image) => {
            let length = listing(&mut workspace, &image, &mut room)?;
            rt.stdout().write_all(&room[..length])?;
        }
        Err(refusal) => {
            let code = RefusalCode(refusal);
            println!(rt; "{code}")?;
        }
    }
    Ok(())
}
