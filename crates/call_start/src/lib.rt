// What every call starts from: is the scheme known, are the lent tables right, and what did the check learn?
#![tactic(auto)]

ghost use Rattle.std.specs.Prelude.{◌≡◌, false, MatchResult};
ghost use Rattle.rule.specs.declared.Refusal.TheVariants.{Done};
ghost use Rattle.rule.specs.Refusals.{is_done};
ghost use Rattle.meaning.specs.Meaning.{tables_refusal};
ghost use Rattle.call_start.specs.Start.{NotBarred, Start};

// What is refused before the placement is looked at, or how many relays and tablets there are to look over.
fn first_look(
    scheme: u32,
    relays: &[u32],
    tablets: &[u32],
) -> Result<entries::Counts, rule::Refusal>
    ensures { MatchResult result
        (λ counts. NotBarred scheme relays.now tablets.now counts.n counts.m)
        (λ why. (tables_refusal scheme relays.now tablets.now ≡ why) × (is_done why ≡ false)) }
{
    if !ring::scheme_known(scheme) {
        return Err(rule::Refusal::SchemeUnknown);
    }
    entries::shapes(relays, tablets).ok_or(rule::Refusal::TablesNotRight)
}

// What a look at right tables learns, into a survey that is lent; or which of the first two refusals applies, and then nobody may ask what the
// survey holds.
pub fn look_into(
    scheme: u32,
    relays: &[u32],
    tablets: &[u32],
    survey: &mut survey::Survey,
) -> Result<(), rule::Refusal>
    ensures { MatchResult result
        (λ _. (tables_refusal scheme relays.now tablets.now ≡ Done)
        × Start scheme relays.now tablets.now survey.new.n survey.new.m survey.new)
        (λ why. (tables_refusal scheme relays.now tablets.now ≡ why) × (is_done why ≡ false)) }
{
    let counts = first_look(scheme, relays, tablets)?;
    survey.learn(scheme, relays, tablets, counts.n, counts.m)
}

// The same, as a survey of its own.
pub fn look(scheme: u32, relays: &[u32], tablets: &[u32]) -> Result<survey::Survey, rule::Refusal>
    ensures { MatchResult result
        (λ s. (tables_refusal scheme relays.now tablets.now ≡ Done)
        × Start scheme relays.now tablets.now s.n s.m s)
        (λ why. (tables_refusal scheme relays.now tablets.now ≡ why) × (is_done why ≡ false)) }
{
    let counts = first_look(scheme, relays, tablets)?;
    survey::look_over(scheme, relays, tablets, counts.n, counts.m)
}

// What a look refuses, for whoever asks nothing else: nothing that was learnt is handed on.
pub fn check(scheme: u32, relays: &[u32], tablets: &[u32]) -> rule::Refusal
    ensures { result ≡ tables_refusal scheme relays.now tablets.now }
{
    let mut survey = survey::Survey::new();
    match look_into(scheme, relays, tablets, &mut survey) {
        Ok(()) => rule::Refusal::Done,
        Err(why) => why,
    }
}
