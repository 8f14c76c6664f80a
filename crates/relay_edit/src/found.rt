// The relay that a call is about (document 01, "Replies"): the refusals 1 and 2, and past them where it stands.
ghost use Rattle.std.specs.Prelude.{◌≡◌, false, MatchResult};
ghost use Rattle.rule.specs.Refusals.{is_done};
ghost use Rattle.meaning.specs.Meaning.{tables_refusal};
ghost use Rattle.relay_edit.specs.Found.{Stands};

// How many relays and tablets there are, the relay's place, whether it is there, and the relays in ring order with the tablets' homes.
#[derive(Drop)]
pub struct Found {
    pub n: usize,
    pub m: usize,
    pub at: usize,
    pub there: bool,
    pub around: ring_edit::Around,
}

pub(crate) fn find_relay(
    scheme: u32,
    relays: &[u32],
    tablets: &[u32],
    r: ring::RelayNumber,
) -> Result<Found, rule::Refusal>
    ensures { MatchResult result
        (λ f. Stands scheme relays.now tablets.now r.0 f)
        (λ why. (tables_refusal scheme relays.now tablets.now ≡ why) × (is_done why ≡ false)) }
{
    let mut survey = survey::Survey::new();
    call_start::look_into(scheme, relays, tablets, &mut survey)?;
    let survey::Survey {
        n,
        m,
        keys,
        home,
        ..
    } = survey;
    // The place is handed on either way: a number is refused before a relay that is there already.
    let (at, there) = match lookup::spot(relays, n, r.0) {
        Ok(at) => (at, true),
        Err(at) => (at, false),
    };
    Ok(Found {
        n,
        m,
        at,
        there,
        around: ring_edit::Around { keys, home },
    })
}
