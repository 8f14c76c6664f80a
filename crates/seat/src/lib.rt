// A tablet's seat (document 01, "Replies"): its place in the table, its relay, and how many relays come before that in its clockwise
// order, which are the steps from its home to its relay's slot.
#![tactic(auto)]

ghost use Rattle.std.specs.Prelude.{◌≡◌, ◌≤◌, false, MatchResult};
ghost use Rattle.ring.specs.Most.{most_relays};
ghost use Rattle.rule.specs.declared.Refusal.TheVariants.{Done};
ghost use Rattle.rule.specs.Refusals.{is_done};
ghost use Rattle.slots.specs.Slots.{steps_to};
ghost use Rattle.seat.specs.Seat.{Slotted, Found, seat_refusal};

// How many steps clockwise slot k is from slot h, of n.
pub fn steps_to(n: usize, h: u8, k: u8) -> usize
    requires { (n ≤ most_relays) × (h ≤ n) }
    ensures { result ≡ steps_to n h k }
{
    let from = usize::from(h);
    let to = usize::from(k);
    if from <= to { to - from } else { to + n - from }
}

// The seat of a tablet.
#[derive(Drop)]
pub struct Seat {
    pub at: usize,
    pub relay: ring::RelayNumber,
    pub passed: u32,
}

// The seat of tablet t among those of a survey, or why there is none.
pub fn seat_of(
    tablets: &[u32],
    survey: &survey::Survey,
    t: ring::TabletNumber,
) -> Result<Seat, rule::Refusal>
    requires { Slotted tablets.now survey.now }
    ensures { MatchResult result
        (λ seat. (seat_refusal tablets.now survey.now t.0 ≡ Done)
        × Found tablets.now survey.now t.0 seat)
        (λ why. (seat_refusal tablets.now survey.now t.0 ≡ why) × (is_done why ≡ false)) }
{
    let at = lookup::found(tablets, survey.m, t.0)?;
    let passed = steps_to(survey.n, survey.home[at], survey.slot[at]);
    Ok(Seat {
        at,
        relay: tables::tablet_relay(tablets, at),
        passed: passed as u32,
    })
}
