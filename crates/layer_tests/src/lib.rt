// Examples of layers over a book and over layers.
#![tactic(auto)]

mod examples;

#[cfg(test)]
mod tests {
    use crate::examples::{
        ACCOUNT, GRANT, MEMBER, ROLE, crowd, gather, right_of, right_to, rights_are,
    };
    use access::Refusal::{Full, NoRoom, NotListed, WrongKind};
    use book::{Book, fill};
    use catalogue::{Catalogue, ListName};
    use layer::Response::{Answered, Withdrawn};
    use layer::{Change, Layer};
    use std::test::Fail;

    #[test]
    fn latest_is_taken_back(rt: HostRuntime) -> Result<(), Fail> {
        let mut layer = Layer::new(rt.alloc(), Book::new(rt.alloc())?)?;
        let changes = [
            ACCOUNT,
            ROLE,
            right_to(3, 1),
            MEMBER,
            right_to(4, 0),
            Change::Withdraw,
        ];
        let mut responses = [Withdrawn(true); 6];
        gather(&mut layer, &changes, &mut responses)?;
        assert!(rt;
            responses
                == [
                    Answered(Ok(3)),
                    Answered(Ok(4)),
                    Answered(Ok(0)),
                    Answered(Ok(1)),
                    Answered(Ok(2)),
                    Withdrawn(true),
                ]
        );
        assert_eq!(rt; layer.count(ListName::Members), 1);
        assert!(rt; rights_are(&layer, &[(3, true)]));
        Ok(())
    }

    #[test]
    fn place_of_its_own(rt: HostRuntime) -> Result<(), Fail> {
        let mut layer = Layer::new(rt.alloc(), Book::new(rt.alloc())?)?;
        let changes = [ACCOUNT, ROLE, GRANT, right_to(3, 1), right_to(3, 1)];
        let mut responses = [Withdrawn(true); 5];
        gather(&mut layer, &changes, &mut responses)?;
        assert!(rt; responses == [3, 4, 0, 0, 1].map(|n| Answered(Ok(n))));
        assert!(rt; rights_are(&layer, &[(3, false), (3, true), (3, true)]));
        Ok(())
    }

    #[test]
    fn refused(rt: HostRuntime) -> Result<(), Fail> {
        let mut layer = Layer::new(rt.alloc(), Book::new(rt.alloc())?)?;
        let changes = [
            ACCOUNT,
            right_to(3, 2),
            right_to(4, 0),
            right_to(0, 0),
            MEMBER,
            Change::Withdraw,
        ];
        let mut responses = [Withdrawn(true); 7];
        assert_eq!(rt;
            fill(&mut layer, &changes, &mut responses[..5]),
            Err(NoRoom)
        );
        assert_eq!(rt; fill(&mut layer, &changes, &mut responses), Ok(6));
        assert!(rt;
            responses
                == [
                    Answered(Ok(3)),
                    Answered(Err(NotListed)),
                    Answered(Err(NotListed)),
                    Answered(Err(WrongKind)),
                    Answered(Err(NotListed)),
                    Withdrawn(false),
                    Withdrawn(true),
                ]
        );
        Ok(())
    }

    // At sixteen proposals a change is still judged by its numbers first.
    #[test]
    fn sixteen(rt: HostRuntime) -> Result<(), Fail> {
        let mut layer = Layer::new(rt.alloc(), Book::new(rt.alloc())?)?;
        let mut changes = [MEMBER; 23];
        changes[0] = ACCOUNT;
        changes[1] = ROLE;
        changes[18] = right_to(3, 0);
        changes[19] = right_to(0, 0);
        changes[20] = right_to(5, 0);
        changes[21] = Change::Withdraw;
        let mut responses = [Withdrawn(true); 23];
        assert_eq!(rt; fill(&mut layer, &changes, &mut responses), Ok(23));
        assert!(rt;
            responses.ends_with(&[
                Answered(Ok(15)),
                Answered(Err(Full)),
                Answered(Err(WrongKind)),
                Answered(Err(NotListed)),
                Withdrawn(true),
                Answered(Ok(15)),
            ])
        );
        Ok(())
    }

    #[test]
    fn layer_over_layer(rt: HostRuntime) -> Result<(), Fail> {
        let mut lower = Layer::new(rt.alloc(), Book::new(rt.alloc())?)?;
        let changes = [ACCOUNT, ROLE, GRANT, right_to(4, 0)];
        let mut responses = [Withdrawn(true); 4];
        gather(&mut lower, &changes, &mut responses)?;
        let mut upper = Layer::new(rt.alloc(), lower)?;
        assert_eq!(rt; upper.propose_right(right_of(4, 1)), Ok(0));
        assert!(rt; rights_are(&upper, &[(3, false), (4, false), (4, true)]));
        assert_eq!(rt; crowd(&mut upper, 16), Err(Full));
        assert_eq!(rt; upper.count(ListName::Members), 15);
        let mut top = Layer::new(rt.alloc(), upper)?;
        assert_eq!(rt; crowd(&mut top, 16), Ok(15));
        assert_eq!(rt; top.count(ListName::Members), 31);
        Ok(())
    }
}
