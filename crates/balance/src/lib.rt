// The balanced limit (document 01, "Sheet, balance, tally").
#![tactic(auto)]

ghost use Rattle.std.specs.Prelude.{false, ◌≡◌, IfErr, MatchResult};
ghost use Rattle.rule.specs.declared.Refusal.TheVariants.{Done};
ghost use Rattle.rule.specs.Refusals.{is_done};
ghost use Rattle.rule.specs.Balance.{balance_refusal, balanced_limit, balance};
ghost use Rattle.balance.specs.Promise.{InRange, Balances, balanced_of};

const MOST_SHARE: u32 = 1000;

const MOST_TABLETS: u32 = ring::MOST_TABLETS as u32;

const MOST_RELAYS: u32 = ring::MOST_RELAYS as u32;

// The limit of every relay, with balance p/q, or why there is none.
pub fn balance(p: u32, q: u32, tablets: u32, relays: u32) -> Result<u32, rule::Refusal>
    ensures limit { Balances (balance p q tablets relays) (balanced_of result) }
    ensures refused { IfErr result (λ why. is_done why ≡ false) }
{
    check(p, q, tablets, relays)?;
    Ok(limit_for(p, q, tablets, relays))
}

// Can a balance work with these numbers? If not, why not?
#[tactic(auto, unfolding(rule::specs::Balance::balance_refusal, rule::specs::Refusals::first_bar, rule::specs::Refusals::is_done))]
fn check(p: u32, q: u32, tablets: u32, relays: u32) -> Result<(), rule::Refusal>
    ensures { MatchResult result (λ _. balance_refusal p q tablets relays ≡ Done)
        (λ why. (balance_refusal p q tablets relays ≡ why) × (is_done why ≡ false)) }
{
    if p == 0 || q == 0 || relays == 0 {
        return Err(rule::Refusal::NumberZero);
    }
    if p > MOST_SHARE || q > MOST_SHARE || p < q || tablets > MOST_TABLETS || relays > MOST_RELAYS {
        return Err(rule::Refusal::TooLarge);
    }
    Ok(())
}

#[tactic(auto, using(crate::proofs::Ranges::rounded, crate::proofs::Ranges::parts_some), unfolding(rule::specs::Balance::balanced_limit))]
fn limit_for(p: u32, q: u32, tablets: u32, relays: u32) -> u32
    requires { InRange p q tablets relays }
    ensures { result ≡ balanced_limit p q tablets relays }
{
    let share = (p * tablets).div_ceil(q * relays);
    share.min(ring::MOST_LIMIT)
}
