// Sets of numbers below 128 as bits.
ghost use Rattle.std.specs.Prelude.{◌≡◌, ℕ, not, ◌&&◌, ◌||◌};
ghost use Rattle.access.specs.Bits.{bit};

// The numbers that are in one of two sets.
pub fn either(first: u128, second: u128) -> u128
    ensures { (v : ℕ) → bit result v ≡ (bit first v || bit second v) }
{
    first | second
}

// The numbers that are in both sets.
pub fn both(first: u128, second: u128) -> u128
    ensures { (v : ℕ) → bit result v ≡ (bit first v && bit second v) }
{
    first & second
}

// The numbers of one set that are not in another.
pub fn without(set: u128, other: u128) -> u128
    ensures { (v : ℕ) → bit result v ≡ (bit set v && not (bit other v)) }
{
    set & !other
}
