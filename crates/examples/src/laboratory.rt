// The calls that build the laboratory, all and without one.
ghost use Rattle.std.specs.Prelude.{◌≡◌};
ghost use Rattle.book.specs.Gathered.{lists_after};
ghost use Rattle.runs.specs.Laboratory.{lab};
ghost use Rattle.examples.specs.Calls.{laboratory, without_alter};

use crate::calls::{declare, grant, line, procedure, triggers};
use book::Call;

// Accounts 3 and 4, a container of account 3 with a table and a procedure, account 8, a line of code, and three rights.
pub fn laboratory_calls() -> [Call; 10]
    ensures calls { result ≡ laboratory }
    ensures built { lists_after result ≡ lab }
{
    [
        declare(3, 0, 3, 0),
        declare(3, 0, 4, 0),
        declare(0, 0, 3, 1),
        declare(1, 5, 3, 0),
        declare(2, 5, 3, 0),
        declare(3, 0, 8, 0),
        line(procedure(7), 3, triggers(6, 1)),
        grant(4, 7, 5, 0),
        grant(4, 6, 4, 0),
        grant(8, 4, 6, 0),
    ]
}

// The same without the right of account 4 to alter the table.
pub fn without_alter() -> [Call; 9]
    ensures { result ≡ without_alter }
{
    let [a, b, c, d, e, f, g, h, _alters, i] = laboratory_calls();
    [a, b, c, d, e, f, g, h, i]
}
