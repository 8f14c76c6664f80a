// The home of a position among the relays in ring order (document 01, "The ring").
#![tactic(auto)]

ghost use Rattle.std.specs.Prelude.{◌≡◌, ◌&&◌, ◌/◌, ◌<◌, ◌≤◌, eqb, leb, length};
ghost use Rattle.ring.specs.Most.{most_relays};
ghost use Rattle.order.specs.Keys.{KeysRise};
ghost use Rattle.home.specs.Home.{key_at, Begins, Home, arcs, arc, Starts, Marked};

const ARCS: usize = 1024;

const ARC: u64 = ring::NUMBERS / 1024;

// The slot where a walk from slot h to the key x ends.
pub fn advance(keys: &[u64; ring::MOST_RELAYS], n: usize, h: usize, x: u64) -> usize
    requires { (n ≤ most_relays) × KeysRise n keys.now × Begins keys.now n x h }
    ensures { Home keys.now n x result }
{
    for k in h..n {
        if x <= keys[k] {
            return k;
        }
    }
    n
}

// The arc that a key lies in.
fn arc_of(key: u64) -> usize
    ensures { (result ≡ key / key_at arc) × (result < arcs) }
{
    (key / (ARC * ring::NUMBERS)) as usize
}

// A walk to the arcs from `from` to `top` begins at slot k. Answers with the first arc past them.
fn mark(start: &mut [u16; ARCS], from: usize, top: usize, k: u16) -> usize
    requires { (from ≤ arcs) × (top < arcs) }
    ensures { Marked from top k start.old start.new result }
{
    let past = from.max(top + 1);
    start[from..past].fill(k);
    past
}

// Do the positions of rising numbers rise in this scheme? Nothing but the length of a walk rests on the answer.
pub fn in_turn(scheme: u32) -> bool
    ensures { result ≡ eqb scheme 0 }
{
    scheme == 0
}

// For each arc of the ring the slot where a walk to its positions may begin: the first where positions come in turn, since then none does.
pub fn arc_starts(keys: &[u64; ring::MOST_RELAYS], n: usize, in_turn: bool) -> [u16; ARCS]
    requires { (n ≤ most_relays) × KeysRise n keys.now }
    ensures { Starts keys.now n arcs result }
{
    let mut start = [0u16; ARCS];
    if in_turn {
        return start;
    }
    let mut b: usize = 0;
    for (k, key) in keys[..n].iter().enumerate() {
        b = mark(&mut start, b, arc_of(*key), k as u16);
    }
    mark(&mut start, b, ARCS - 1, n as u16);
    start
}

// May a walk to p go on from the home of the last position?
fn goes_on(in_turn: bool, last: ring::Position, p: ring::Position) -> bool
    ensures { result ≡ (in_turn && leb last.0 p.0) }
{
    in_turn && last <= p
}

// The home of position p. Where positions come in turn, the walk begins at h, the home of the last position, if p is not before that;
// else by its arc.
pub fn home_of(
    keys: &[u64; ring::MOST_RELAYS],
    start: &[u16; ARCS],
    n: usize,
    in_turn: bool,
    h: usize,
    last: ring::Position,
    p: ring::Position,
) -> usize
    requires { (n ≤ most_relays) × KeysRise n keys.now × Starts keys.now n arcs start.now
        × Begins keys.now n (key_at last.0) h }
    ensures { Home keys.now n (key_at p.0) result }
{
    let at = u64::from(p.0);
    let from = if goes_on(in_turn, last, p) {
        h
    } else {
        usize::from(start[(at / ARC) as usize])
    };
    advance(keys, n, from, at * ring::NUMBERS)
}
