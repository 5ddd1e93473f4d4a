// The contents of an image: where each body starts, and how many records it has.
ghost use Rattle.std.specs.Prelude.{◌≡◌, ◌+◌, ◌*◌, ◌<◌, ◌≤◌, length, MatchResult, Ok, Err};
ghost use Rattle.access.specs.Codes.{code, coded};
ghost use Rattle.image.specs.Reading.{pair, start_at, count_at, entry_end, contents_end, body_in, AllLaid};

use crate::tables::{IN_ORDER, index_of, least_of, most_of, width_of};
use access::Refusal;
use catalogue::ListName;

// What the contents say of a list.
#[derive(Clone, Copy)]
struct Entry {
    start: u16,
    count: u16,
}

// Two bytes as a number, high byte first.
fn pair_at(bytes: &[u8], i: usize) -> u16
    requires { i + 1 < length bytes.now }
    ensures { result ≡ pair bytes.now i }
{
    u16::from_be_bytes([bytes[i], bytes[i + 1]])
}

fn entry_at(bytes: &[u8], list: ListName) -> Entry
    requires { 20 ≤ length bytes.now }
    ensures start { result.start ≡ start_at bytes.now list }
    ensures count { result.count ≡ count_at bytes.now list }
{
    let at = index_of(list) * 4;
    Entry {
        start: pair_at(bytes, at),
        count: pair_at(bytes, at + 2),
    }
}

// Where the body of a list ends, unless its entry is wrong.
fn entry_end(bytes: &[u8], list: ListName, at: usize) -> Result<usize, Refusal>
    requires { 20 ≤ length bytes.now }
    ensures { coded result ≡ entry_end bytes.now list at }
{
    let Entry { start, count } = entry_at(bytes, list);
    let count = count as usize;
    if start as usize == at && least_of(list) <= count && count <= most_of(list) {
        Ok(at + count * width_of(list))
    } else {
        Err(Refusal::Unreadable {
            part: 0,
            record: index_of(list) as u16,
        })
    }
}

// Where the last body ends, unless the contents are wrong.
fn contents_end(bytes: &[u8]) -> Result<usize, Refusal>
    ensures { coded result ≡ contents_end bytes.now }
{
    if bytes.len() < 20 {
        return Err(Refusal::Unreadable { part: 0, record: 5 });
    }
    let mut end = 20;
    // Kept: a loop with `?`; a `try_fold` over the lists is no plainer.
    for list in IN_ORDER {
        end = entry_end(bytes, list, end)?;
    }
    if bytes.len() != end {
        return Err(Refusal::Unreadable { part: 0, record: 5 });
    }
    Ok(end)
}

// Bytes whose contents are right.
#[derive(Clone, Copy)]
pub(crate) struct Contents<'a> {
    pub(crate) bytes: &'a [u8],
    ghost laid: { AllLaid bytes.now },
}

impl<'a> Contents<'a> {
    pub(crate) fn read(bytes: &'a [u8]) -> Result<Contents<'a>, Refusal>
        ensures { MatchResult result (λ c. (c.bytes.now ≡ bytes.now) × (contents_end bytes.now ≡ Ok (length bytes.now))) (λ r. contents_end bytes.now ≡ Err (code r)) }
    {
        contents_end(bytes)?;
        Ok(Contents { bytes })
    }

    // How many records a list has.
    pub(crate) fn count(&self, list: ListName) -> usize
        ensures { result ≡ count_at self.now.bytes.now list }
    {
        entry_at(self.bytes, list).count as usize
    }

    // The bytes of a list's records.
    pub(crate) fn body(&self, list: ListName) -> &'a [u8]
        ensures { result.now ≡ body_in list self.now.bytes.now }
    {
        let Entry { start, count } = entry_at(self.bytes, list);
        let start = start as usize;
        &self.bytes[start..start + count as usize * width_of(list)]
    }
}
