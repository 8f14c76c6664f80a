// The holes of a withdrawal (document 01, "The rule of placement"): who takes the hole at a relay, and so on from hole to hole, and
// how they sit down.
#![tactic(auto)]

ghost use Rattle.std.specs.Prelude.{◌≡◌, ◌<◌, ◌≤◌, nat_lt};
ghost use Rattle.ring.specs.Most.{most_tablets};
ghost use Rattle.tables.specs.Table.{tablet_relay};
ghost use Rattle.write.specs.Tables.{listed};
ghost use Rattle.holes.specs.Holes.{around, Next, Sweeps, Climbing, MoversAre};
ghost use Rattle.holes.specs.Filled.{moves_of, Fillers, MovedUp, Filled};

// ---- who moves

// The places of those who move, by rising number: the first so many. No Vec, since there is no heap; `withdraw` hands on the slice.
#[derive(Drop)]
pub struct Movers {
    pub count: usize,
    pub places: [u16; ring::MOST_RELAYS],
}

// Had a tablet with its home at slot h and its relay at slot k passed the relay at another slot? It is the same on a ring of 256 slots,
// used or not.
fn had_passed(h: u8, k: u8, other: u8) -> bool
    ensures { result ≡ nat_lt (around h other) (around h k) }
{
    other.wrapping_sub(h) < k.wrapping_sub(h)
}

// The first place behind place i whose tablet had passed the relay of the tablet there; the number of tablets where none had.
fn next_passed(survey: &survey::Survey, i: usize) -> usize
    requires { (survey.now.m ≤ most_tablets) × (i < survey.now.m) }
    ensures { Next survey.now i result }
{
    let hole = survey.slot[i];
    for j in i + 1..survey.m {
        if had_passed(survey.home[j], survey.slot[j], hole) {
            return j;
        }
    }
    survey.m
}

// The same, at once where that relay has room: nobody had passed it.
fn next_mover(survey: &survey::Survey, i: usize) -> usize
    requires { Sweeps survey.now × (i < survey.now.m) }
    ensures { Next survey.now i result }
{
    let relay = order::slot_relay(&survey.keys, usize::from(survey.slot[i]));
    let roomy = 0 < survey.room[relay];
    if roomy {
        survey.m
    } else {
        next_passed(survey, i)
    }
}

// Those who move when the tablet at place `at` leaves its relay.
pub fn holes(survey: &survey::Survey, at: usize) -> Movers
    requires { Sweeps survey.now × (at < survey.now.m) }
    ensures { MoversAre survey.now at result }
{
    let mut places = [0u16; ring::MOST_RELAYS];
    let mut count: usize = 0;
    // No `for`: each step goes to the next who moves, past all between.
    let mut j = next_mover(survey, at);
    while j < survey.m {
        places[count] = j as u16;
        count += 1;
        j = next_mover(survey, j);
    }
    Movers { count, places }
}

// ---- they sit down

// Those at these places sit down, the first at relay r, each other where the one before left, and are listed.
fn sit_down(tablets: &mut [u32], moves: &mut [u32], m: usize, places: &[u16], r: ring::RelayNumber)
    requires { Fillers tablets.old moves.old m places.now }
    ensures { MovedUp tablets.old tablets.new m (moves_of tablets.old r.0 places.now)
        × (moves.new ≡ listed (moves_of tablets.old r.0 places.now) moves.old) }
{
    let mut new = r;
    for (c, at) in places.iter().enumerate() {
        let j = usize::from(*at);
        let t = tables::tablet_number(tablets, j);
        let old = tables::tablet_relay(tablets, j);
        place::list_move(moves, c, t, old, new);
        write::change(tablets, m, j, new.0);
        new = old;
    }
}

// The tablet at place `at` leaves, and those of its chain sit down.
pub fn fill(tablets: &mut [u32], moves: &mut [u32], m: usize, at: usize, places: &[u16])
    requires { Fillers tablets.old moves.old m places.now × (at < m) × Climbing places.now at m }
    ensures { Filled tablets.old tablets.new m at
        (moves_of tablets.old (tablet_relay tablets.old at) places.now)
        × (moves.new ≡ listed (moves_of tablets.old (tablet_relay tablets.old at) places.now)
        moves.old) }
{
    let r = tables::tablet_relay(tablets, at);
    sit_down(tablets, moves, m, places, r);
    write::delete(tablets, m, at);
}
