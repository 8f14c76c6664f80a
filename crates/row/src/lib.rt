// The row (document 01, "The rule of placement"): from every slot of the ring it leads to the first slot with room, and it is kept so as tablets
// are placed.
#![tactic(auto)]

ghost use Rattle.std.specs.Prelude.{◌≡◌, ◌+◌, ◌%◌, ◌<◌, ◌≤◌, length, if◌then◌else◌, nat_eq, slice_index};
ghost use Rattle.ring.specs.Most.{most_relays};
ghost use Rattle.tables.specs.Placement.{room_less};
ghost use Rattle.order.specs.Keys.{slot_relay};
ghost use Rattle.row.specs.Row.{slot_room, Leads, Row, Redirected, Takes};

#[tactic(auto, unfolding(crate::specs::Row::slot_room))]
fn room_at(keys: &[u64; ring::MOST_RELAYS], room: &[u32; ring::MOST_RELAYS], k: usize) -> u32
    requires { k < most_relays }
    ensures { result ≡ slot_room keys.now room.now k }
{
    room[order::slot_relay(keys, k)]
}

// The first slot with room of all; the first slot where none has room.
fn lowest(keys: &[u64; ring::MOST_RELAYS], room: &[u32; ring::MOST_RELAYS], n: usize) -> u8
    requires { n ≤ most_relays }
    ensures { Leads keys.now room.now n n result }
{
    for k in 0..n {
        if 0 < room_at(keys, room, k) {
            return k as u8;
        }
    }
    0
}

// Slot k, where it has room, and else the slot that the next one leads to.
fn nearer(
    keys: &[u64; ring::MOST_RELAYS],
    room: &[u32; ring::MOST_RELAYS],
    n: usize,
    k: usize,
    after: u8,
) -> u8
    requires { (n ≤ most_relays) × (k < n) × Leads keys.now room.now n (k + 1) after }
    ensures { Leads keys.now room.now n k result }
{
    if 0 < room_at(keys, room, k) {
        k as u8
    } else {
        after
    }
}

pub fn first_row(
    keys: &[u64; ring::MOST_RELAYS],
    room: &[u32; ring::MOST_RELAYS],
    n: usize,
) -> [u8; ring::MOST_RELAYS]
    requires { n ≤ most_relays }
    ensures { Row keys.now room.now n 0 result }
{
    let mut next = [0u8; ring::MOST_RELAYS];
    let mut lead = lowest(keys, room, n);
    next[n % ring::MOST_RELAYS] = lead;
    for k in (0..n).rev() {
        lead = nearer(keys, room, n, k, lead);
        next[k] = lead;
    }
    next
}

// The slot that the row leads to from slot h, or from past the last slot.
pub fn led_to(next: &[u8; ring::MOST_RELAYS], h: usize) -> usize
    ensures { (result ≡ slice_index next.now (h % most_relays)) × (result < most_relays) }
{
    usize::from(next[h % ring::MOST_RELAYS])
}

// Whoever was led to slot k is led to another.
fn redirect(next: &mut [u8; ring::MOST_RELAYS], k: u8, to: u8)
    ensures { Redirected most_relays k to next.old next.new }
{
    for x in next.iter_mut() {
        if *x == k {
            *x = to;
        }
    }
}

// One more tablet is placed at slot k. Where that fills the relay, whoever was led to it is led on.
pub fn take(
    keys: &[u64; ring::MOST_RELAYS],
    room: &mut [u32; ring::MOST_RELAYS],
    next: &mut [u8; ring::MOST_RELAYS],
    n: usize,
    k: usize,
)
    requires { Takes keys.now room.old next.old n k }
    ensures { (room.new ≡ room_less room.old (slot_relay keys.now k))
        × Row keys.now room.new n 0 next.new }
{
    let i = order::slot_relay(keys, k);
    room[i] -= 1;
    let full = room[i] == 0;
    if full {
        let to = led_to(next, k + 1);
        redirect(next, k as u8, to as u8);
    }
}
