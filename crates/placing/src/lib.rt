// What the rule of placement (document 01, "The rule of placement") asks of relays: where each stands, and how many it may hold.
#![tactic(auto)]

ghost use Rattle.std.specs.Prelude.{◌≡◌};
ghost use Rattle.ring.specs.Scheme.{positions};
ghost use Rattle.tables.specs.Table.{RelaysIn};
ghost use Rattle.tables.specs.Placement.{relay_positions, relay_limits};

// The two loops differ in what they load. One function of a closure is no plainer: its contract has to say which array of `Placement` comes of what
// each call gives, and each caller proves that again.

// Where the n relays in use stand on the ring.
pub fn relay_positions(scheme: u32, relays: &[u32], n: usize) -> [u32; ring::MOST_RELAYS]
    requires { RelaysIn relays.now n }
    ensures { result ≡ relay_positions (positions scheme) relays.now n }
{
    let mut position = [0u32; ring::MOST_RELAYS];
    for i in 0..n {
        let p = ring::relay_at(scheme, tables::relay_number(relays, i));
        position[i] = p.0;
    }
    position
}

pub fn relay_limits(relays: &[u32], n: usize) -> [u32; ring::MOST_RELAYS]
    requires { RelaysIn relays.now n }
    ensures { result ≡ relay_limits relays.now n }
{
    let mut limit = [0u32; ring::MOST_RELAYS];
    for i in 0..n {
        limit[i] = tables::relay_limit(relays, i);
    }
    limit
}
