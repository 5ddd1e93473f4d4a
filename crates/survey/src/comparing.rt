// Whether rows contain one another.
ghost use Rattle.std.specs.Prelude.{◌≡◌, ℕ, bit_or, ◌==◌};
ghost use Rattle.std.specs.List.{list_all, zip};
ghost use Rattle.access.specs.Lists.{Lists};
ghost use Rattle.access.specs.declared.entities.Kind.TheVariants.{Account};
ghost use Rattle.catalogue.specs.Sound.{Sound};
ghost use Rattle.runs.specs.Standing.{Is};
ghost use Rattle.survey.specs.Used.{IsRow, Compared};

// Whether each of two rows contains the other.
#[derive(Clone, Copy, Debug, PartialEq, Eq)]
pub struct Comparison {
    pub first_contains: bool,
    pub second_contains: bool,
}

// Whether the first row is its union with the second.
fn contains(first: &[u8], second: &[u8]) -> bool
    ensures { result ≡ list_all (λ p. bit_or p.0 p.1 == p.0) (zip first.now second.now) }
{
    first.iter().zip(second).all(|(x, y)| x | y == *x)
}

// Compares the rows of two accounts: which of them can come to act as the other.
pub(crate) fn compare_rows(first: &[u8], second: &[u8]) -> Comparison
    ensures { (L : Lists) (a b : ℕ) → Sound L → Is L Account a → Is L Account b → IsRow L a first.now → IsRow L b second.now → Compared L a b result }
{
    Comparison {
        first_contains: contains(first, second),
        second_contains: contains(second, first),
    }
}
