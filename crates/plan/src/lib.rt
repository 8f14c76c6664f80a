// What another relay table does to the tablets (document 01, "The rule of placement"): which of them move, whether that is refused, and the
// writing of it. A plan is made before anything is written.
#![tactic(auto)]

ghost use Rattle.std.specs.Prelude.{not, ◌≡◌, ◌<◌, eqb, leb, length, get_or};
ghost use Rattle.ring.specs.Most.{most_tablets};
ghost use Rattle.ring.specs.Scheme.{Positions};
ghost use Rattle.rule.specs.Entry.{total};
ghost use Rattle.tables.specs.Table.{relay_places, tablet_places, tablet_relay};
ghost use Rattle.meaning.specs.Meaning.{relays_in};
ghost use Rattle.ring_edit.specs.Homes.{Homes};
ghost use Rattle.plan.specs.Changes.{new_relay, changes_to};
ghost use Rattle.plan.specs.Plan.{Limited, Plans, Assigned, Planned};
ghost use Rattle.plan.specs.Carried.{MovesOne, MovedOne, Carries, Carried};

// ---- whether the limits suffice

// The limits of the n relays together.
fn limit_sum(relays: &[u32], n: usize) -> usize
    requires { Limited relays.now n }
    ensures { result ≡ total (relays_in relays.now n) }
{
    let mut sum = 0;
    for i in 0..n {
        sum += tables::relay_limit(relays, i) as usize;
    }
    sum
}

// ---- how many move

// Is tablet j to have another relay than is written beside it?
#[tactic(auto, unfolding(crate::specs::Changes::new_relay))]
fn moves(relays: &[u32], relay: &[u8; ring::MOST_TABLETS], tablets: &[u32], j: usize) -> bool
    requires { (j < most_tablets) × (j < tablet_places tablets.now)
        × (get_or relay.now j 0 < relay_places relays.now) }
    ensures { result ≡ not (eqb (tablet_relay tablets.now j) (new_relay relays.now relay.now j)) }
{
    tables::tablet_relay(tablets, j) != tables::relay_number(relays, usize::from(relay[j]))
}

fn count_moves(relays: &[u32], relay: &[u8; ring::MOST_TABLETS], tablets: &[u32], m: usize) -> usize
    requires { Assigned relays.now relay.now tablets.now m }
    ensures { result ≡ length (changes_to relays.now relay.now tablets.now m) }
{
    let mut c = 0;
    for j in 0..m {
        if moves(relays, relay, tablets, j) {
            c += 1;
        }
    }
    c
}

// Is there room for the moves in a list of so many places? No more tablets move than there are.
fn moves_fit(
    relays: &[u32],
    relay: &[u8; ring::MOST_TABLETS],
    tablets: &[u32],
    m: usize,
    places: usize,
) -> bool
    requires { Assigned relays.now relay.now tablets.now m }
    ensures { result ≡ leb (length (changes_to relays.now relay.now tablets.now m))
        places }
{
    let enough = m <= places;
    enough || count_moves(relays, relay, tablets, m) <= places
}

// ---- the plan

// For each of the m tablets the place of its relay among the n relays, from the relays in ring order and the tablets' homes; or the refusal,
// for a move list of so many places.
pub fn work_out(
    relays: &[u32],
    tablets: &[u32],
    around: &ring_edit::Around,
    n: usize,
    m: usize,
    places: usize,
) -> Result<[u8; ring::MOST_TABLETS], rule::Refusal>
    requires { Plans relays.now tablets.now n m around.now }
    ensures { (p : Positions) → Homes p relays.now tablets.now n m around.now.keys around.now.home
        → Planned p relays.now tablets.now n m places result }
{
    if limit_sum(relays, n) < m {
        return Err(rule::Refusal::LimitsTooSmall);
    }
    let relay = refill::refill(relays, &around.keys, &around.home, n, m);
    if !moves_fit(relays, &relay, tablets, m, places) {
        return Err(rule::Refusal::MoveListTooShort);
    }
    Ok(relay)
}

// ---- the writing

// Tablet j gets the relay at place i. Where that is another than it had, the move is listed as the c-th; the answer is where the next one goes.
fn move_one(
    relays: &[u32],
    tablets: &mut [u32],
    moves: &mut [u32],
    i: usize,
    j: usize,
    c: usize,
) -> usize
    requires { MovesOne relays.now tablets.old moves.old i j c }
    ensures { MovedOne relays.now tablets.old tablets.new moves.old
        moves.new i j c result }
{
    let old = tables::tablet_relay(tablets, j);
    let new = tables::relay_number(relays, i);
    if old == new {
        return c;
    }
    let t = tables::tablet_number(tablets, j);
    place::list_move(moves, c, t, old, new);
    place::set_beside(tablets, j, new.0);
    c + 1
}

// Every tablet gets the relay that the array gives the place of, and the moves are listed; the answer is how many.
pub fn carry_out(
    relays: &[u32],
    relay: &[u8; ring::MOST_TABLETS],
    tablets: &mut [u32],
    moves: &mut [u32],
    m: usize,
) -> usize
    requires { Carries relays.now relay.now tablets.old moves.old m }
    ensures { Carried relays.now relay.now tablets.old tablets.new
        moves.old moves.new m result }
{
    let mut c = 0;
    for j in 0..m {
        c = move_one(relays, tablets, moves, usize::from(relay[j]), j, c);
    }
    c
}
