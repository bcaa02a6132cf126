ghost use Rattle.std.specs.Prelude.{◌≡◌, Decides};
ghost use Rattle.plan.specs.Yield.{IntegerRule, yield_rule};

// Does every choice of a block win back its yield? `held` is the most tokens that can be out then.
// Five numbers by position: the rule is over five integers, and others than a frame ask it.
// A need beyond 128 bits is beyond any room that 64-bit numbers make.
pub fn yield_rule(blocks: u64, pages: u64, offered: u64, held: u64, alpha: u64) -> bool
    ensures answer { result ≡ yield_rule blocks pages offered held alpha }
    ensures integers { Decides result (IntegerRule blocks pages offered held alpha) }
{
    let room = u128::from(blocks) * (u128::from(pages) + 1) + 1;
    let tokens = u128::from(offered) + u128::from(held);
    (u128::from(alpha) * (u128::from(blocks) + 1))
        .checked_add(tokens)
        .is_some_and(|need| need < room)
}
