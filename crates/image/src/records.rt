// A record's bytes, one for each field.
ghost use Rattle.std.specs.Prelude.{◌≡◌, ℕ, ◌+◌, ◌≤◌, List, length, Some, refl};
ghost use Rattle.std.specs.List.{slice_get};
ghost use Rattle.access.specs.Lists.{Lists};
ghost use Rattle.catalogue.specs.Sound.{Sound};
ghost use Rattle.image.specs.Layout.{width_of};
ghost use Rattle.image.specs.Bytes.{entity_bytes, link_bytes, right_bytes, member_bytes, line_bytes, numbers_of, called_by, bytes_or, record_at};
ghost use Rattle.image.specs.Decoding.{entity_of, link_of, right_of, member_of, object_of, line_of};
ghost use Rattle.image.specs.Reading.{numbers_at};
ghost use Rattle.image.specs.Decoded.{entity_decoded, link_decoded, right_decoded, member_decoded, line_decoded};

use access::{
    Action, Entity, Kind, Line, Link, Member, Mode, Object, ObjectNumbers, Right, RightRecord,
    Runner, option_listed,
};
use catalogue::Listed;

// A record that stands in an image as bytes.
pub(crate) trait Coded: Listed {
    ghost encoded: { Self → List ℕ };

    ghost decoded: { List ℕ → Self };

    // Fills a room with the record's bytes.
    fn put(&self, room: &mut [u8])
        requires { length room.old ≡ width_of Self.named }
        ensures { room.new ≡ encoded self.now };

    // The record that bytes are.
    fn from_bytes(bytes: &[u8]) -> Self
        requires { length bytes.now ≡ width_of Self.named }
        ensures { result ≡ decoded bytes.now };

    ghost wide: { (x : Self) → length (encoded x) ≡ width_of Self.named };

    // The bytes of record n of its list.
    ghost stands: { (l : Lists) (n : ℕ) → record_at l Self.named n ≡ bytes_or encoded (slice_get (Self.listed l) n) };

    // A record of a catalogue is the one that its bytes are.
    ghost back: { (l : Lists) (n : ℕ) (x : Self) → Sound l → slice_get (Self.listed l) n ≡ Some x → decoded (encoded x) ≡ x };
}

impl Coded for Entity {
    ghost encoded = { entity_bytes };

    ghost decoded = { entity_of };

    ghost wide = { λ x. refl };

    ghost stands = { λ l n. refl };

    ghost back = { entity_decoded };

    fn put(&self, room: &mut [u8]) {
        room.copy_from_slice(&[
            u8::from(self.kind),
            self.parent,
            self.owner,
            u8::from(self.mode),
        ]);
    }

    fn from_bytes(bytes: &[u8]) -> Entity {
        Entity {
            kind: Kind::try_from(bytes[0]).unwrap_or(Kind::Container),
            parent: bytes[1],
            owner: bytes[2],
            mode: Mode::try_from(bytes[3]).unwrap_or(Mode::Creator),
        }
    }
}

impl Coded for Link {
    ghost encoded = { link_bytes };

    ghost decoded = { link_of };

    ghost wide = { λ x. refl };

    ghost stands = { λ l n. refl };

    ghost back = { link_decoded };

    fn put(&self, room: &mut [u8]) {
        room.copy_from_slice(&[self.lower, self.upper]);
    }

    fn from_bytes(bytes: &[u8]) -> Link {
        Link {
            lower: bytes[0],
            upper: bytes[1],
        }
    }
}

impl Coded for RightRecord {
    ghost encoded = { right_bytes };

    ghost decoded = { right_of };

    ghost wide = { λ x. refl };

    ghost stands = { λ l n. refl };

    ghost back = { right_decoded };

    fn put(&self, room: &mut [u8]) {
        room.copy_from_slice(&[
            self.principal,
            self.entity,
            u8::from(self.right),
            u8::from(self.option),
        ]);
    }

    fn from_bytes(bytes: &[u8]) -> RightRecord {
        RightRecord {
            principal: bytes[0],
            entity: bytes[1],
            right: Right::try_from(bytes[2]).unwrap_or(Right::Select),
            option: option_listed(bytes[3]).unwrap_or(false),
        }
    }
}

impl Coded for Member {
    ghost encoded = { member_bytes };

    ghost decoded = { member_of };

    ghost wide = { λ x. refl };

    ghost stands = { λ l n. refl };

    ghost back = { member_decoded };

    fn put(&self, room: &mut [u8]) {
        room.copy_from_slice(&[self.account, self.role]);
    }

    fn from_bytes(bytes: &[u8]) -> Member {
        Member {
            account: bytes[0],
            role: bytes[1],
        }
    }
}

// The three bytes at a place, as an object's numbers.
pub(crate) fn numbers_at(bytes: &[u8], i: usize) -> ObjectNumbers
    requires { i + 3 ≤ length bytes.now }
    ensures { result ≡ numbers_at bytes.now i }
{
    ObjectNumbers {
        kind: bytes[i],
        entity: bytes[i + 1],
        right: bytes[i + 2],
    }
}

fn numbers_of(x: Object) -> ObjectNumbers
    ensures { result ≡ numbers_of x }
{
    x.numbers().unwrap_or(ObjectNumbers {
        kind: 0,
        entity: 0,
        right: 0,
    })
}

fn object_of(n: ObjectNumbers) -> Object
    ensures { result ≡ object_of n }
{
    Object::try_from(n).unwrap_or(Object::Procedure(0))
}

// The object that a line calls; no other action stands in a catalogue.
fn called_by(action: Action) -> Object
    ensures { result ≡ called_by action }
{
    match action {
        Action::Call(x) => x,
        _ => Object::Procedure(0),
    }
}

impl Coded for Line {
    ghost encoded = { line_bytes };

    ghost decoded = { line_of };

    ghost wide = { λ x. refl };

    ghost stands = { λ l n. refl };

    ghost back = { line_decoded };

    fn put(&self, room: &mut [u8]) {
        let object = numbers_of(self.object);
        let called = numbers_of(called_by(self.action));
        room.copy_from_slice(&[
            object.kind,
            object.entity,
            object.right,
            u8::from(self.runner),
            called.kind,
            called.entity,
            called.right,
        ]);
    }

    fn from_bytes(bytes: &[u8]) -> Line {
        Line {
            object: object_of(numbers_at(bytes, 0)),
            runner: Runner::from(bytes[3]),
            action: Action::Call(object_of(numbers_at(bytes, 4))),
        }
    }
}
