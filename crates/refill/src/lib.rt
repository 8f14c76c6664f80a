// Every tablet placed afresh (document 01, "The rule of placement"): the relay that the rule gives each, whatever relay is written beside it.
#![tactic(auto)]

ghost use Rattle.std.specs.Prelude.{List, ℕ, ◌<◌};
ghost use Rattle.ring.specs.Scheme.{Positions};
ghost use Rattle.ring_edit.specs.Homes.{Homes};
ghost use Rattle.refill.specs.Refilled.{Refills, Refilled};

// For each of the m tablets the place of its relay among the n relays, from the relays in ring order and the tablets' homes.
pub fn refill(
    relays: &[u32],
    keys: &[u64; ring::MOST_RELAYS],
    home: &[u8; ring::MOST_TABLETS],
    n: usize,
    m: usize,
) -> [u8; ring::MOST_TABLETS]
    requires { Refills relays.now n m keys.now home.now }
    ensures { (p : Positions) (ts : List ℕ) → Homes p relays.now ts n m keys.now
        home.now
        → Refilled p relays.now ts n m result }
{
    let mut room = placing::relay_limits(relays, n);
    let mut next = row::first_row(keys, &room, n);
    let mut relay = [0u8; ring::MOST_TABLETS];
    for j in 0..m {
        let h = usize::from(home[j]);
        let k = row::led_to(&next, h);
        relay[j] = order::slot_relay(keys, k) as u8;
        row::take(keys, &mut room, &mut next, n, k);
    }
    relay
}
