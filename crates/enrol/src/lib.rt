// Enrolling a tablet (document 01, "The rule of placement"). What it comes to is worked out first, in `newcomer`; nothing lent is written
// before the last refusal is decided.
#![tactic(auto)]

ghost use Rattle.std.specs.Prelude.{ℕ, ◌+◌, ◌*◌, ◌<◌, ◌≤◌, length};
ghost use Rattle.rule.specs.declared.Call.TheVariants.{Enrol};
ghost use Rattle.tables.specs.Table.{relay_places, tablet_places, tablet_number};
ghost use Rattle.write.specs.Wrote.{Climbs};
ghost use Rattle.promise.specs.Promise.{Answers};
ghost use Rattle.call_start.specs.Promise.{lists, after, Ends};
ghost use Rattle.newcomer.specs.Newcomer.{Seatable};
ghost use Rattle.enrol.specs.Enrol.{OneSeated, OthersSeated};

// ---- those who gave way

// The c-th of those who gave way sits down: it is listed, and its new relay written.
fn seat_one(
    relays: &[u32],
    tablets: &mut [u32],
    moves: &mut [u32],
    m: usize,
    c: usize,
    j: usize,
    old: usize,
    new: usize,
)
    requires { (j < m) × (m ≤ tablet_places tablets.old) × Climbs (tablet_number tablets.old) m
        × (old < relay_places relays.now) × (new < relay_places relays.now) × (3 * (c + 1) ≤ length moves.old) }
    ensures { OneSeated relays.now tablets.old tablets.new
        moves.old moves.new m c j old new }
{
    let t = tables::tablet_number(tablets, j);
    let from = tables::relay_number(relays, old);
    let to = tables::relay_number(relays, new);
    place::list_move(moves, c, t, from, to);
    write::change(tablets, m, j, to.0);
}

// All who gave way sit down.
fn seat_others(
    relays: &[u32],
    tablets: &mut [u32],
    moves: &mut [u32],
    m: usize,
    chain: &chain::Chain,
)
    requires { Seatable relays.now tablets.old moves.old m chain.now }
    ensures { (x : ℕ) → OthersSeated x relays.now tablets.old moves.old chain.now tablets.new moves.new m
        chain.now.others }
{
    for c in 0..chain.others {
        let j = usize::from(chain.place[c + 1]);
        let old = usize::from(chain.seat[c]);
        let new = usize::from(chain.seat[c + 1]);
        seat_one(relays, tablets, moves, m, c, j, old, new);
    }
}

// ---- the call

// What the call replies once all is written; or why it is refused, and nothing is.
fn enrolled(
    scheme: u32,
    relays: &[u32],
    tablets: &mut [u32],
    moves: &mut [u32],
    t: ring::TabletNumber,
) -> Result<rule::Reply, rule::Refusal>
    ensures { Ends (after scheme relays.now tablets.old moves.old (Enrol t)) result
        (lists relays.now tablets.new moves.new) }
{
    let e = newcomer::prepare(scheme, relays, tablets, moves.len() / 3, t)?;
    let relay = tables::relay_number(relays, usize::from(e.chain.seat[0]));
    seat_others(relays, tablets, moves, e.m, &e.chain);
    write::insert(tablets, e.m, e.at, t.0, relay.0);
    Ok(rule::Reply {
        refusal: rule::Refusal::Done,
        relay,
        passed: e.chain.steps as u32,
        moves: e.chain.others as u32,
    })
}

pub fn enrol(
    scheme: u32,
    relays: &[u32],
    tablets: &mut [u32],
    moves: &mut [u32],
    t: ring::TabletNumber,
) -> rule::Reply
    ensures { Answers (after scheme relays.now tablets.old moves.old
        (Enrol t))
        result (lists relays.now tablets.new moves.new) }
{
    enrolled(scheme, relays, tablets, moves, t).unwrap_or_else(rule::bare_reply)
}
