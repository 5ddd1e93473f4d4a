// Fills a layer over a book with the laboratory example, with proposals and with calls that are refused, and prints what
// happened.
#![tactic(auto)]

use access::{Member, RightNumbers};
use book::{Book, Call, fill};
use examples::{declare, grant, laboratory_calls, link};
use layer::{Change, Layer, Response};
use report::print_catalogue;
use std::alloc::{AllocError, Global};

// A right that stands already gets the option; the others are refused.
fn more_calls() -> [Call; 4] {
    [
        grant(4, 7, 5, 1),
        grant(4, 7, 7, 0),
        declare(1, 0, 2, 0),
        link(2, 1),
    ]
}

// The first account past the sixteenth is refused.
const FIRST_ACCOUNT: u8 = 9;

const LAST_ACCOUNT: u8 = 22;

// Four proposals above the book: two are taken, two refused, and the latest is taken back.
const PROPOSALS: [Change; 5] = [
    Change::ProposeRight(RightNumbers {
        principal: 8,
        entity: 7,
        right: 5,
        option: 0,
    }),
    Change::ProposeMember(Member {
        account: 4,
        role: 2,
    }),
    Change::ProposeMember(Member {
        account: 5,
        role: 2,
    }),
    Change::ProposeRight(RightNumbers {
        principal: 4,
        entity: 9,
        right: 9,
        option: 0,
    }),
    Change::Withdraw,
];

fn gather(heap: Global) -> Result<Vec<Change>, AllocError> {
    let accounts = (FIRST_ACCOUNT..=LAST_ACCOUNT).map(|account| declare(3, 0, account, 0));
    laboratory_calls()
        .into_iter()
        .chain(more_calls())
        .chain(accounts)
        .map(Change::Build)
        .chain(PROPOSALS)
        .collect(heap)
}

fn print_responses(
    rt: &impl Print,
    changes: &[Change],
    responses: &[Response],
) -> anyhow::Result<()> {
    for (change, response) in changes.iter().zip(responses) {
        println!(rt; "{change} -> {response}")?;
    }
    Ok(())
}

fn main(rt: HostRuntime) -> anyhow::Result<()> {
    let heap = rt.alloc();
    let changes = gather(heap)?;
    let mut responses = vec![in heap; Response::Withdrawn(false); changes.len()]?;
    let mut layer = Layer::new(heap, Book::new(heap)?)?;
    fill(&mut layer, &changes, &mut responses)?;
    print_responses(&rt, &changes, &responses)?;
    println!(rt; "\nthe layer over the book holds")?;
    print_catalogue(&rt, &layer)
}
