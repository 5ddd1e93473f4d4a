// What calls take by numbers, read from words.
use crate::words::Words;
use access::{
    EntityNumbers, LineNumbers, Link, Member, ObjectNumbers, QuestionNumbers, RightNumbers,
};

pub fn read_entity(words: &mut Words<'_>) -> Option<EntityNumbers> {
    let [kind, parent, owner, mode] = words.numbers::<4>()?;
    Some(EntityNumbers {
        kind,
        parent,
        owner,
        mode,
    })
}

pub fn read_link(words: &mut Words<'_>) -> Option<Link> {
    let [lower, upper] = words.numbers::<2>()?;
    Some(Link { lower, upper })
}

pub fn read_right(words: &mut Words<'_>) -> Option<RightNumbers> {
    let [principal, entity, right, option] = words.numbers::<4>()?;
    Some(RightNumbers {
        principal,
        entity,
        right,
        option,
    })
}

pub fn read_member(words: &mut Words<'_>) -> Option<Member> {
    let [account, role] = words.numbers::<2>()?;
    Some(Member { account, role })
}

pub fn read_object(words: &mut Words<'_>) -> Option<ObjectNumbers> {
    let [kind, entity, right] = words.numbers::<3>()?;
    Some(ObjectNumbers {
        kind,
        entity,
        right,
    })
}

pub fn read_line(words: &mut Words<'_>) -> Option<LineNumbers> {
    Some(LineNumbers {
        object: read_object(words)?,
        runner: words.number()?,
        called: read_object(words)?,
    })
}

pub fn read_question(words: &mut Words<'_>) -> Option<QuestionNumbers> {
    let [account, sense, entity, right] = words.numbers::<4>()?;
    Some(QuestionNumbers {
        account,
        sense,
        entity,
        right,
    })
}
