// Reads an image from standard input, and prints what it holds, or its first fault.
#![tactic(auto)]

use access::RefusalCode;
use book::Book;
use image::read;
use report::print_catalogue;
use std::io::Read;

// One byte more than the longest image has: longer input has the fault that this many of its bytes have.
const MOST: u64 = 3605;

fn main(rt: HostRuntime) -> anyhow::Result<()> {
    let mut bytes = Vec::new(rt.alloc());
    rt.stdin().take(MOST).read_to_end(&mut bytes)?;
    let mut scratch = Book::new(rt.alloc())?;
    match read(&mut scratch, &bytes) {
        Ok(image) => print_catalogue(&rt, &image)?,
        Err(refusal) => {
            let code = RefusalCode(refusal);
            println!(rt; "{code}")?;
        }
    }
    Ok(())
}
