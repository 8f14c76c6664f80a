// What enrolling a newcomer comes to (document 01, "Replies"): a refusal, or its place in the table and everybody who sits down. Nothing
// lent is written here.
#![tactic(auto)]

ghost use Rattle.std.specs.Prelude.{◌≡◌, false, List, ℕ, ◌/◌, ◌<◌, ◌≤◌, length, MatchOption, MatchResult};
ghost use Rattle.ring.specs.Most.{most_relays};
ghost use Rattle.ring.specs.Scheme.{positions};
ghost use Rattle.rule.specs.declared.Refusal.TheVariants.{Done};
ghost use Rattle.rule.specs.Refusals.{is_done};
ghost use Rattle.tables.specs.Table.{tablet_places, tablet_number};
ghost use Rattle.row.specs.Row.{Row, slot_room};
ghost use Rattle.meaning.specs.Ascending.{Ascending};
ghost use Rattle.lookup.specs.Spot.{Sought, there_in};
ghost use Rattle.newcomer.specs.Newcomer.{newcomer_refusal, Seeks, Prepared};

// The place that a newcomer would have among the m tablets, or which of the refusals 3, 6 and 7 applies.
fn free_place(tablets: &[u32], m: usize, t: ring::TabletNumber) -> Result<usize, rule::Refusal>
    requires { (m ≤ tablet_places tablets.now) × Ascending (tablet_number tablets.now) m }
    ensures { MatchResult result
        (λ at. (newcomer_refusal t.0 (there_in tablets.now m t.0) (tablet_places tablets.now) m ≡ Done)
        × Sought tablets.now m t.0 false at)
        (λ why. (newcomer_refusal t.0 (there_in tablets.now m t.0) (tablet_places tablets.now) m ≡ why)
        × (is_done why ≡ false)) }
{
    if t.0 == 0 {
        return Err(rule::Refusal::NumberZero);
    }
    let Err(at) = lookup::spot(tablets, m, t.0) else {
        return Err(rule::Refusal::ThereAlready);
    };
    if tables::places(tablets) <= m {
        return Err(rule::Refusal::NoUnusedPlace);
    }
    Ok(at)
}

// ---- where the walk begins and ends

// The slot of the newcomer's home, and the first slot with room from there.
#[derive(Drop)]
struct Walk {
    home: usize,
    stop: usize,
}

// The newcomer's walk, if any relay has room.
fn seek(scheme: u32, survey: &survey::Survey, t: ring::TabletNumber) -> Option<Walk>
    requires { (survey.now.n ≤ most_relays) × Row survey.now.keys survey.now.room survey.now.n 0 survey.now.next }
    ensures { MatchOption result
        ((k : ℕ) → k < survey.now.n → slot_room survey.now.keys survey.now.room k ≡ 0)
        (λ w. Seeks (positions scheme) survey.now t.0 w.home w.stop) }
{
    let p = ring::tablet_at(scheme, t);
    let home = nearest::home(&survey.keys, survey.n, p);
    let stop = row::led_to(&survey.next, home);
    let i = order::slot_relay(&survey.keys, stop);
    if 0 < survey.n && 0 < survey.room[i] {
        Some(Walk { home, stop })
    } else {
        None
    }
}

// ---- what the enrolment comes to

// How many tablets there are, the newcomer's place among them, and everybody who sits down.
#[derive(Drop)]
pub struct Enrolment {
    pub m: usize,
    pub at: usize,
    pub chain: chain::Chain,
}

// The enrolment or its refusal, for a move list of so many places.
pub fn prepare(
    scheme: u32,
    relays: &[u32],
    tablets: &[u32],
    places: usize,
    t: ring::TabletNumber,
) -> Result<Enrolment, rule::Refusal>
    ensures { (ms : List ℕ) → places ≡ length ms / 3
        → Prepared scheme relays.now tablets.now ms t result }
{
    let mut survey = survey::Survey::new();
    call_start::look_into(scheme, relays, tablets, &mut survey)?;
    let m = survey.m;
    let at = free_place(tablets, m, t)?;
    let Some(walk) = seek(scheme, &survey, t) else {
        return Err(rule::Refusal::LimitsTooSmall);
    };
    let chain = chain::turn(relays, tablets, &survey, walk.home, walk.stop, t);
    if places < chain.others {
        return Err(rule::Refusal::MoveListTooShort);
    }
    Ok(Enrolment { m, at, chain })
}
