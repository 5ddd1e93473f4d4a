// Records by the list that they stand in.
ghost use Rattle.std.specs.Prelude.{◌≡◌, List, length, refl};
ghost use Rattle.std.specs.List.{slice_get};
ghost use Rattle.access.specs.Lists.{Lists};
ghost use Rattle.catalogue.specs.Counts.{count_of};
ghost use Rattle.catalogue.specs.Sound.{Sound};
ghost use Rattle.catalogue.specs.declared.names.ListName.{ListName};
ghost use Rattle.catalogue.specs.declared.names.ListName.TheVariants.{Entities, Links, Rights, Members, Lines};
ghost use Rattle.catalogue.specs.Listing.{entities_of, links_of, rights_of, members_of, lines_of};

use crate::catalogues::Catalogue;
use crate::names::ListName;
use access::{Entity, Line, Link, Member, RightRecord};

// A kind of record, with the list of a catalogue that holds such records.
pub trait Listed: Copy {
    ghost listed: { Lists → List Self };

    ghost named: { ListName };

    fn list() -> ListName
        ensures { result ≡ named };

    // The record of a number in its list, or none past the end.
    fn at<C: Catalogue>(catalogue: &C, n: usize) -> Option<Self>
        requires { Sound (C.meaning catalogue.now) }
        ensures { result ≡ slice_get (listed (C.meaning catalogue.now)) n };

    ghost counted: { (l : Lists) → count_of l named ≡ length (listed l) };
}

impl Listed for Entity {
    ghost listed = { entities_of };

    ghost named = { Entities };

    ghost counted = { λ l. refl };

    fn list() -> ListName {
        ListName::Entities
    }

    fn at<C: Catalogue>(catalogue: &C, n: usize) -> Option<Entity> {
        catalogue.entity_at(n)
    }
}

impl Listed for Link {
    ghost listed = { links_of };

    ghost named = { Links };

    ghost counted = { λ l. refl };

    fn list() -> ListName {
        ListName::Links
    }

    fn at<C: Catalogue>(catalogue: &C, n: usize) -> Option<Link> {
        catalogue.link_at(n)
    }
}

impl Listed for RightRecord {
    ghost listed = { rights_of };

    ghost named = { Rights };

    ghost counted = { λ l. refl };

    fn list() -> ListName {
        ListName::Rights
    }

    fn at<C: Catalogue>(catalogue: &C, n: usize) -> Option<RightRecord> {
        catalogue.right_at(n)
    }
}

impl Listed for Member {
    ghost listed = { members_of };

    ghost named = { Members };

    ghost counted = { λ l. refl };

    fn list() -> ListName {
        ListName::Members
    }

    fn at<C: Catalogue>(catalogue: &C, n: usize) -> Option<Member> {
        catalogue.member_at(n)
    }
}

impl Listed for Line {
    ghost listed = { lines_of };

    ghost named = { Lines };

    ghost counted = { λ l. refl };

    fn list() -> ListName {
        ListName::Lines
    }

    fn at<C: Catalogue>(catalogue: &C, n: usize) -> Option<Line> {
        catalogue.line_at(n)
    }
}
