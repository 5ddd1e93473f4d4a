// What members of roles do by them, and what accounts hold and may grant.
ghost use Rattle.std.specs.Prelude.{◌≡◌, ℕ, ◌<◌, ◌&&◌, ◌||◌, length, nat_lt, Decides};
ghost use Rattle.std.specs.List.{list_any};
ghost use Rattle.access.specs.Bits.{bit};
ghost use Rattle.access.specs.Lists.{public};
ghost use Rattle.session.specs.Models.{lists_of};
ghost use Rattle.holdings.specs.Giving.{joined_has, same_one, Lent};
ghost use Rattle.holdings.specs.Rows.{has, can};

use crate::PUBLIC;
use crate::powers::Powers;
use access::Member;
use order::Bits;
use session::Model;

// Gives each of the principals `to` what x has by `own`.
fn lend(all: &mut Powers, own: &Powers, to: u128, x: u8)
    ensures holds { (p k e : ℕ) → k < 7 → has all.new p k e ≡ (has all.old p k e || (bit to p && (nat_lt p 96 && has own.now x k e))) }
    ensures grants { (p k e : ℕ) → k < 7 → can all.new p k e ≡ (can all.old p k e || (bit to p && (nat_lt p 96 && can own.now x k e))) }
{
    for p in Bits(to) {
        all.take(p as u8, own, x);
    }
}

// What members of each role do by it: what it and the roles below it have by themselves.
pub fn of_roles(model: &Model, own: &Powers) -> Powers
    ensures holds { (q k e : ℕ) → k < 7 → Decides (has result q k e) (Lent (lists_of model.now) (has own.now) (length (lists_of model.now).entities) q k e) }
    ensures grants { (q k e : ℕ) → k < 7 → Decides (can result q k e) (Lent (lists_of model.now) (can own.now) (length (lists_of model.now).entities) q k e) }
{
    let mut all = Powers::none();
    for x in 0..model.entities().len() {
        lend(&mut all, own, model.above_role(x), x as u8);
    }
    all
}

// Gives an account what it has by itself, and what everyone does by their role.
fn note_account(all: &mut Powers, own: &Powers, roles: &Powers, a: u8)
    ensures holds { (p k e : ℕ) → k < 7 → has all.new p k e ≡ (has all.old p k e || (same_one p a && (has own.now p k e || has roles.now public k e))) }
    ensures grants { (p k e : ℕ) → k < 7 → can all.new p k e ≡ (can all.old p k e || (same_one p a && (can own.now p k e || can roles.now public k e))) }
{
    all.take(a, own, a);
    all.take(a, roles, PUBLIC);
}

// Gives accounts what they have by themselves, and what everyone does by their role.
fn note_accounts(all: &mut Powers, own: &Powers, roles: &Powers, accounts: u128)
    ensures holds { (p k e : ℕ) → k < 7 → has all.new p k e ≡ (has all.old p k e || (bit accounts p && (nat_lt p 96 && (has own.now p k e || has roles.now public k e)))) }
    ensures grants { (p k e : ℕ) → k < 7 → can all.new p k e ≡ (can all.old p k e || (bit accounts p && (nat_lt p 96 && (can own.now p k e || can roles.now public k e)))) }
{
    for a in Bits(accounts) {
        note_account(all, own, roles, a as u8);
    }
}

// Gives the accounts of member records what they do by the roles.
fn note_members(all: &mut Powers, roles: &Powers, members: &[Member])
    ensures holds { (p k e : ℕ) → k < 7 → has all.new p k e ≡ (has all.old p k e || list_any (joined_has (has roles.now) p k e) members.now) }
    ensures grants { (p k e : ℕ) → k < 7 → can all.new p k e ≡ (can all.old p k e || list_any (joined_has (can roles.now) p k e) members.now) }
{
    for m in members {
        all.take(m.account, roles, m.role);
    }
}

// What accounts hold and may grant.
pub fn of_accounts(own: &Powers, roles: &Powers, accounts: u128, members: &[Member]) -> Powers
    ensures holds { (p k e : ℕ) → k < 7 → has result p k e ≡ ((bit accounts p && (nat_lt p 96 && (has own.now p k e || has roles.now public k e))) || list_any (joined_has (has roles.now) p k e) members.now) }
    ensures grants { (p k e : ℕ) → k < 7 → can result p k e ≡ ((bit accounts p && (nat_lt p 96 && (can own.now p k e || can roles.now public k e))) || list_any (joined_has (can roles.now) p k e) members.now) }
{
    let mut all = Powers::none();
    note_accounts(&mut all, own, roles, accounts);
    note_members(&mut all, roles, members);
    all
}
