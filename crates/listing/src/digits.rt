// How digits are written.
ghost use Rattle.std.specs.Prelude.{◌≡◌, ◌+◌, ◌≤◌, ◌<◌, [], ◌∷◌, length};
ghost use Rattle.listing.specs.Puts.{Puts};
ghost use Rattle.listing.specs.Listings.{digit, two_digits, four_digits};

// Writes a byte at a place, and gives the place after it.
pub(crate) fn put(room: &mut [u8], at: usize, byte: u8) -> usize
    requires { at < length room.old }
    ensures { Puts at (byte ∷ []) room.old room.new result }
{
    room[at] = byte;
    at + 1
}

// Writes the digit of a number for tens, hundreds and so on.
fn put_digit(room: &mut [u8], at: usize, n: u16, place: u16) -> usize
    requires place { 0 < place }
    requires room { at < length room.old }
    ensures { Puts at (digit place n ∷ []) room.old room.new result }
{
    put(room, at, b'0' + (n / place % 10) as u8)
}

pub(crate) fn put_two(room: &mut [u8], at: usize, n: u16) -> usize
    requires { at + 2 ≤ length room.old }
    ensures { Puts at (two_digits n) room.old room.new result }
{
    let second = put_digit(room, at, n, 10);
    put_digit(room, second, n, 1)
}

pub(crate) fn put_four(room: &mut [u8], at: usize, n: u16) -> usize
    requires { at + 4 ≤ length room.old }
    ensures { Puts at (four_digits n) room.old room.new result }
{
    let second = put_digit(room, at, n, 1000);
    let third = put_digit(room, second, n, 100);
    put_two(room, third, n)
}
