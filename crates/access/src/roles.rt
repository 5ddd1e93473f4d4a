// How accounts and roles belong together.

// The lower role is below the upper one: who is in the upper is in the lower.
#[derive(Clone, Copy, PartialEq, Eq)]
pub struct Link {
    pub lower: u8,
    pub upper: u8,
}

// An account is in a role.
#[derive(Clone, Copy, PartialEq, Eq)]
pub struct Member {
    pub account: u8,
    pub role: u8,
}
