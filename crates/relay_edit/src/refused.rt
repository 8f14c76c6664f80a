// The refusals 3 to 7 of the calls about a relay, by rising number (document 01, "Replies").
ghost use Rattle.std.specs.Prelude.{◌≡◌, false, MatchResult, ◌^◌, ◌<◌, ltb};
ghost use Rattle.ring.specs.Most.{most_limit};
ghost use Rattle.rule.specs.declared.Refusal.TheVariants.{Done};
ghost use Rattle.rule.specs.Refusals.{is_done};
ghost use Rattle.lookup.specs.Spot.{missing};
ghost use Rattle.relay_edit.specs.Refused.{numbers_refusal, add_refusal, set_refusal};

fn too_large(limit: u32) -> bool
    ensures { result ≡ ltb most_limit limit }
{
    ring::MOST_LIMIT < limit
}

// The refusals 3 and 4, which both begin with.
fn numbers_refusal(r: ring::RelayNumber, limit: u32) -> Result<(), rule::Refusal>
    ensures { MatchResult result
        (λ _. (numbers_refusal r.0 limit ≡ Done) × (r.0 < 2 ^ 32))
        (λ why. (numbers_refusal r.0 limit ≡ why) × (is_done why ≡ false)) }
{
    if r.0 == 0 {
        return Err(rule::Refusal::NumberZero);
    }
    if too_large(limit) {
        return Err(rule::Refusal::TooLarge);
    }
    Ok(())
}

pub(crate) fn add_refusal(
    r: ring::RelayNumber,
    limit: u32,
    there: bool,
    full: bool,
) -> Result<(), rule::Refusal>
    ensures { MatchResult result
        (λ _. (add_refusal r.0 limit there full ≡ Done) × (r.0 < 2 ^ 32))
        (λ why. (add_refusal r.0 limit there full ≡ why) × (is_done why ≡ false)) }
{
    numbers_refusal(r, limit)?;
    if there {
        return Err(rule::Refusal::ThereAlready);
    }
    if full {
        return Err(rule::Refusal::NoUnusedPlace);
    }
    Ok(())
}

pub(crate) fn set_refusal(
    r: ring::RelayNumber,
    limit: u32,
    there: bool,
) -> Result<(), rule::Refusal>
    ensures { MatchResult result
        (λ _. set_refusal r.0 limit there ≡ Done)
        (λ why. (set_refusal r.0 limit there ≡ why) × (is_done why ≡ false)) }
{
    numbers_refusal(r, limit)?;
    if !there {
        return Err(rule::Refusal::NotThere);
    }
    Ok(())
}

pub(crate) fn remove_refusal(r: ring::RelayNumber, there: bool) -> Result<(), rule::Refusal>
    ensures { MatchResult result
        (λ _. missing r.0 there ≡ Done)
        (λ why. (missing r.0 there ≡ why) × (is_done why ≡ false)) }
{
    if r.0 == 0 {
        return Err(rule::Refusal::NumberZero);
    }
    if !there {
        return Err(rule::Refusal::NotThere);
    }
    Ok(())
}
