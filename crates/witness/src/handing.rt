// How a list of steps is written to the caller's room.
ghost use Rattle.std.specs.Prelude.{◌≡◌, ◌≤◌, length, take, drop};

use runs::Step;
use session::StepList;

// Puts a list at the head of the caller's room, and returns how many steps it has.
pub fn put(list: &StepList, room: &mut [Step]) -> usize
    requires { length list.now.items.items ≤ length room.old }
    ensures count { result ≡ length list.now.items.items }
    ensures list { take result room.new ≡ list.now.items.items }
    ensures rest { drop result room.new ≡ drop result room.old }
    ensures length { length room.new ≡ length room.old }
{
    let count = list.items.len();
    room[..count].copy_from_slice(&list.items);
    count
}
