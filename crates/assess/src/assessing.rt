// What two accounts can come to after any list of changes.
ghost use Rattle.std.specs.Prelude.{◌≡◌, ◌<◌, ◌≤◌, length, drop, Ok, Err, OnOk, OnErr, IfOk, MatchResult};
ghost use Rattle.access.specs.Codes.{code};
ghost use Rattle.access.specs.declared.refusals.Refusal.TheVariants.{NoRoom};
ghost use Rattle.catalogue.specs.Sound.{Sound};
ghost use Rattle.layer.specs.Stands.{stand_of, meant};
ghost use Rattle.layer.specs.Changes.{stand_after};
ghost use Rattle.survey.specs.Laws.{OneRow, RowsTellActing};
ghost use Rattle.assess.specs.Judged.{judged_in};
ghost use Rattle.assess.specs.Assessed.{Made, Assessed};

use access::Refusal;
use book::{Book, fill};
use layer::{Change, Layer, Response};
use session::Workspace;
use survey::{Pair, compare, laws_stand};

// The rows of two accounts with the proposals of a layer, and without them.
#[derive(Clone, Copy, Debug, PartialEq, Eq)]
pub struct Assessment {
    pub through_layer: Pair,
    pub through_book: Pair,
}

// Compares two accounts through a layer and through the book below it.
fn compare_both(
    workspace: &mut Workspace,
    layer: &Layer<Book>,
    first: u8,
    second: u8,
) -> Result<Assessment, Refusal>
    requires { Sound (meant (stand_of layer.now)) }
    ensures { MatchResult result (λ found. (judged_in (stand_of layer.now) first second ≡ Ok tt) × Assessed (stand_of layer.now) first second found) (λ refusal. judged_in (stand_of layer.now) first second ≡ Err (code refusal)) }
{
    let through_layer = compare(workspace, layer, first, second)?;
    let book = layer.below();
    book.sound();
    let through_book = compare(workspace, book, first, second)?;
    Ok(Assessment {
        through_layer,
        through_book,
    })
}

// Makes the layer and its book new and makes each change in turn, and then compares two accounts through both. Too little room
// for the responses is refused, and changes nothing; numbers that are of no accounts then are what the comparison returns.
pub fn assess(
    workspace: &mut Workspace,
    layer: &mut Layer<Book>,
    changes: &[Change],
    responses: &mut [Response],
    first: u8,
    second: u8,
) -> Result<Result<Assessment, Refusal>, Refusal>
    ensures room { MatchResult result (λ _. length changes.now ≤ length responses.old) (λ refusal. (code refusal ≡ code NoRoom) × (length responses.old < length changes.now)) }
    ensures refused { OnErr result ((layer.new ≡ layer.old) × (responses.new ≡ responses.old)) }
    ensures made { OnOk result (Made changes.now layer.new responses.new) }
    ensures sound { OnOk result (Sound (meant (stand_of layer.new))) }
    ensures rest { drop (length changes.now) responses.new ≡ drop (length changes.now) responses.old }
    ensures compared { IfOk result (λ compared. MatchResult compared (λ found. (judged_in (stand_after changes.now) first second ≡ Ok tt) × Assessed (stand_after changes.now) first second found) (λ refusal. judged_in (stand_after changes.now) first second ≡ Err (code refusal))) }
    ensures one_row { OneRow }
    ensures acting { RowsTellActing }
{
    laws_stand();
    fill(layer, changes, responses)?;
    Ok(compare_both(workspace, layer, first, second))
}
