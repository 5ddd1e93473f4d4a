// Which link a book takes.
ghost use Rattle.std.specs.Prelude.{◌≡◌, ◌≤◌, length};
ghost use Rattle.access.specs.Codes.{coded};
ghost use Rattle.access.specs.Lists.{fits, is_role};
ghost use Rattle.access.specs.Orders.{Linked};
ghost use Rattle.catalogue.specs.Judgements.{judged_link};

use crate::tables::kind_at;
use access::{Entity, Kind, Link, Refusal};
use order::{Order, RoleOrder};

// The link, or why a book with these entities and links does not take it.
// Kept: that there are few is a clause, since a slice of the caller's carries no fact, and a wrapper round it is no plainer.
pub fn judge_link(entities: &[Entity], links: &[Link], link: Link) -> Result<Link, Refusal>
    requires few { length entities.now ≤ 96 }
    requires linked { Linked entities.now links.now }
    ensures { coded result ≡ judged_link entities.now links.now link.lower link.upper }
{
    let (Some(lower), Some(upper)) = (kind_at(entities, link.lower), kind_at(entities, link.upper))
    else {
        return Err(Refusal::NotListed);
    };
    if lower != Kind::Role || upper != Kind::Role {
        return Err(Refusal::WrongKind);
    }
    let order = RoleOrder::build(entities, links);
    if link.lower == link.upper || order.at_or_below(link.upper as usize, link.lower as usize) {
        return Err(Refusal::Circular);
    }
    Ok(link)
}
