// Any list of calls, made one after another on what was made new again.
ghost use Rattle.std.specs.Prelude.{◌≡◌, ◌<◌, ◌≤◌, List, [], ◌∷◌, ◌++◌, length, drop, if◌then◌else◌, Ok, Err, nat_lt};
ghost use Rattle.access.specs.Codes.{code, coded};
ghost use Rattle.access.specs.declared.refusals.Refusal.TheVariants.{NoRoom};
ghost use Rattle.book.specs.Turns.{EachTurn};

use access::Refusal;

// What calls are made on.
pub trait Gathers {
    type Call: Copy;

    type Answer: Copy;

    // It holds what a list of calls puts together, from new on.
    ghost holds: { Self → List Self.Call → Type 0 };

    // What a call returns after a list of calls.
    ghost returns: { List Self.Call → Self.Call → Self.Answer → Type 0 };

    fn renew(&mut self)
        ensures { holds self.new [] };

    fn perform(&mut self, call: Self::Call) -> Self::Answer
        requires { (before : List Self.Call) × holds self.old before }
        ensures answer { (before : List Self.Call) → holds self.old before → returns before call result }
        ensures holds { (before : List Self.Call) → holds self.old before → holds self.new (before ++ call ∷ []) };
}

// Makes it new again and makes each call on it in turn; the answers go into the room that is lent for them.
pub fn fill<T: Gathers>(
    on: &mut T,
    calls: &[T::Call],
    answers: &mut [T::Answer],
) -> Result<usize, Refusal>
    ensures count { coded result ≡ (if nat_lt (length answers.old) (length calls.now) then Err (code NoRoom) else Ok (length calls.now)) }
    ensures refused { length answers.old < length calls.now → (on.new ≡ on.old) × (answers.new ≡ answers.old) }
    ensures holds { length calls.now ≤ length answers.old → T.Gathers.holds on.new calls.now }
    ensures answers { length calls.now ≤ length answers.old → EachTurn T.Gathers.returns calls.now answers.new }
    ensures rest { drop (length calls.now) answers.new ≡ drop (length calls.now) answers.old }
{
    if answers.len() < calls.len() {
        return Err(Refusal::NoRoom);
    }
    on.renew();
    // Kept: answers by their numbers, since of places that `zip` over `iter_mut` lends a proof knows nothing.
    for (i, call) in calls.iter().enumerate() {
        answers[i] = on.perform(*call);
    }
    Ok(calls.len())
}
