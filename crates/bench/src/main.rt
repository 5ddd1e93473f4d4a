// Reads an image from standard input, lists it as often as its argument says, and prints the listing once.
#![tactic(auto)]

use anyhow::Context;
use book::Book;
use image::read;
use listing::listing;
use session::Workspace;
use std::env;
use std::io::{Read, Write};
use std::rt::Runtime;

// No image is longer than this, and longer bytes have the fault that this many of them have.
const LONGEST: u64 = 3605;

// The listing of sixteen accounts has as many bytes as this, and that of fewer accounts has fewer.
const ROOM: usize = 400;

// How many times the first argument says; without one, once.
fn times(rt: &impl Runtime) -> anyhow::Result<u32> {
    match env::args(rt)?.nth(1) {
        Some(word) => word.parse::<u32>().context("how often to list"),
        None => Ok(1),
    }
}

fn main(rt: HostRuntime) -> anyhow::Result<()> {
    let heap = rt.alloc();
    let times = times(&rt)?;
    let mut bytes = Vec::new(heap);
    rt.stdin().take(LONGEST).read_to_end(&mut bytes)?;
    let mut scratch = Book::new(heap)?;
    let mut workspace = Workspace::new(heap)?;
    let mut room = [0; ROOM];
    let image = read(&mut scratch, &bytes).context("not an image")?;
    for _ in 1..times {
        listing(&mut workspace, &image, &mut room)?;
    }
    let length = listing(&mut workspace, &image, &mut room)?;
    rt.stdout().write_all(&room[..length])?;
    Ok(())
}
