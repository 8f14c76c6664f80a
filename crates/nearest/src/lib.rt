// Which of the relays in ring order a position comes to first (document 01, "The ring"): by distance clockwise, past the top of the ring too,
// and equal distances by slot, which is by relay number.
#![tactic(auto)]

ghost use Rattle.std.specs.Prelude.{◌≡◌, ◌/◌, ◌^◌, ◌<◌, ◌≤◌};
ghost use Rattle.ring.specs.Most.{most_relays};
ghost use Rattle.ring.specs.Clockwise.{distance, sooner};
ghost use Rattle.nearest.specs.Nearest.{in_slots, Nearest};

fn position_of(key: u64) -> ring::Position
    ensures { result.0 ≡ key / 2 ^ 32 }
{
    ring::Position((key / ring::NUMBERS) as u32)
}

// How far clockwise the relay at slot k is from position p.
#[tactic(auto, unfolding(ring::specs::Clockwise::distance))]
fn away(keys: &[u64; ring::MOST_RELAYS], k: usize, p: ring::Position) -> u32
    requires { k < most_relays }
    ensures { result ≡ distance (in_slots keys.now) p.0 k }
{
    ring::clockwise(p, position_of(keys[k]))
}

// Does p come to slot k ahead of slot l?
#[tactic(auto, unfolding(ring::specs::Clockwise::sooner))]
pub fn sooner(keys: &[u64; ring::MOST_RELAYS], k: usize, l: usize, p: ring::Position) -> bool
    requires { (k < most_relays) × (l < most_relays) }
    ensures { result ≡ sooner (in_slots keys.now) p.0 k l }
{
    (away(keys, k, p), k) < (away(keys, l, p), l)
}

// The home of p: of n slots the one that it comes to first, and 0 where there is none.
pub fn home(keys: &[u64; ring::MOST_RELAYS], n: usize, p: ring::Position) -> usize
    requires { n ≤ most_relays }
    ensures { Nearest keys.now n p.0 result }
{
    let mut first: usize = 0;
    let mut least = away(keys, 0, p);
    for k in 1..n {
        let d = away(keys, k, p);
        if d < least {
            first = k;
            least = d;
        }
    }
    first
}
