// The relays in ring order and every tablet's home, once one relay is put in or taken out (document 01, "The ring"). Nothing is sorted or sought
// anew: the other relays keep their order, and a home moves by one slot at most.
#![tactic(auto)]

ghost use Rattle.std.specs.Prelude.{◌≡◌, ℕ, ◌+◌, ◌-◌, ◌^◌, ◌<◌, ◌≤◌, length, get_or};
ghost use Rattle.ring.specs.Most.{most_relays, most_tablets};
ghost use Rattle.ring.specs.Scheme.{positions};
ghost use Rattle.ring.specs.Clockwise.{sooner};
ghost use Rattle.tables.specs.Table.{tablet_places, tablet_number, TabletsIn};
ghost use Rattle.order.specs.Keys.{slot_relay, Slot};
ghost use Rattle.nearest.specs.Nearest.{in_slots};
ghost use Rattle.ring_edit.specs.Shift.{skip, raised, lowered, KeysLess, KeysMore};
ghost use Rattle.ring_edit.specs.Homes.{HomesMoved, home_less, less_at, slot_after, home_more, more_at, TakenOut, PutsIn, PutIn};

// The keys in ring order, and for each tablet the slot that its walk goes from.
#[derive(Drop)]
pub struct Around {
    pub keys: [u64; ring::MOST_RELAYS],
    pub home: [u8; ring::MOST_TABLETS],
}

// ---- one relay less

#[tactic(auto, unfolding(crate::specs::Shift::lowered))]
fn lowered(key: u64, at: usize) -> u64
    ensures { result ≡ lowered at key }
{
    let i = (key % order::PLACES) as usize;
    if at < i { key - 1 } else { key }
}

// The slot of the relay at place `at`.
fn slot_of(keys: &[u64; ring::MOST_RELAYS], n: usize, at: usize) -> usize
    requires { (n ≤ most_relays) × Slot keys.now n at }
    ensures { (result < n) × (slot_relay keys.now result ≡ at) }
{
    for k in 0..n {
        if order::slot_relay(keys, k) == at {
            return k;
        }
    }
    n
}

// The key at slot s is left out, and the n others are lowered.
fn keys_less(keys: &mut [u64; ring::MOST_RELAYS], n: usize, s: usize, at: usize)
    requires { (n < most_relays) × (s ≤ n) }
    ensures { KeysLess n s at keys.old keys.new }
{
    keys.copy_within(s + 1..n + 1, s);
    for key in keys[..n].iter_mut() {
        *key = lowered(*key, at);
    }
}

#[tactic(auto, unfolding(crate::specs::Homes::home_less))]
fn home_less(s: u8, h: u8) -> u8
    ensures { result ≡ home_less s h }
{
    if s < h { h - 1 } else { h }
}

fn homes_less(home: &mut [u8; ring::MOST_TABLETS], m: usize, s: u8)
    requires { m ≤ most_tablets }
    ensures { HomesMoved (less_at s) m home.old home.new }
{
    for home in home[..m].iter_mut() {
        *home = home_less(s, *home);
    }
}

// The relay at place `at` is taken out, and n are left.
pub fn take_out(mut around: Around, n: usize, m: usize, at: usize) -> Around
    requires { (n < most_relays) × (m ≤ most_tablets) × Slot around.keys (n + 1) at }
    ensures { TakenOut n m at around.keys around.home result }
{
    let s = slot_of(&around.keys, n + 1, at);
    keys_less(&mut around.keys, n, s, at);
    homes_less(&mut around.home, m, s as u8);
    around
}

// ---- one relay more

#[tactic(auto, unfolding(crate::specs::Shift::raised))]
fn raised(key: u64, at: usize) -> u64
    requires { key < 2 ^ 64 - 1 }
    ensures { result ≡ raised at key }
{
    let i = (key % order::PLACES) as usize;
    if i < at { key } else { key + 1 }
}

// The n other keys are raised, and x is put in at slot s.
fn keys_more(keys: &mut [u64; ring::MOST_RELAYS], n: usize, s: usize, at: usize, x: u64)
    requires { (n < most_relays) × (s ≤ n) × ((k : ℕ) → k < n → get_or keys.old k 0 < 2 ^ 64 - 1) }
    ensures { KeysMore n s at x keys.old keys.new }
{
    for key in keys[..n].iter_mut() {
        *key = raised(*key, at);
    }
    keys.copy_within(s..n, s + 1);
    keys[s] = x;
}

// The slot behind slot s of n + 1, round the top of the ring.
#[tactic(auto, unfolding(crate::specs::Homes::slot_after))]
fn slot_after(n: usize, s: usize) -> usize
    requires { n < most_relays }
    ensures { (result ≡ slot_after n s) × (result < most_relays) }
{
    if s < n { s + 1 } else { 0 }
}

// A relay that was put in: it is at slot `slot` of the keys, and the one that was there before is at slot `after` now.
#[derive(Drop)]
struct NewRelay<'a> {
    scheme: u32,
    tablets: &'a [u32],
    keys: &'a [u64; ring::MOST_RELAYS],
    slot: usize,
    after: usize,
    ghost among_the_keys: { (slot < most_relays) × (after < most_relays) },
}

impl NewRelay<'_> {
    // Does tablet j come to slot `after` first?
    fn comes_first(&self, j: usize) -> bool
        requires { j < tablet_places self.now.tablets.now }
        ensures { result ≡ sooner (in_slots self.now.keys.now)
            ((positions self.now.scheme).tablet_at (tablet_number self.now.tablets.now j)) self.now.after self.now.slot }
    {
        let p = ring::tablet_at(self.scheme, tables::tablet_number(self.tablets, j));
        nearest::sooner(self.keys, self.after, self.slot, p)
    }

    // The home of tablet j, which was h.
    #[tactic(auto, unfolding(crate::specs::Homes::home_more))]
    fn home_more(&self, j: usize, h: u8) -> u8
        requires { j < tablet_places self.now.tablets.now }
        ensures { result ≡ home_more self.now.keys.now self.now.slot self.now.after
            ((positions self.now.scheme).tablet_at (tablet_number self.now.tablets.now j)) h }
    {
        let was = usize::from(h);
        if self.slot < was || self.slot == was && self.comes_first(j) {
            h.wrapping_add(1)
        } else {
            h
        }
    }

    fn homes_more(&self, home: &mut [u8; ring::MOST_TABLETS], m: usize)
        requires { TabletsIn self.now.tablets.now m }
        ensures { HomesMoved (more_at (positions self.now.scheme) self.now.tablets.now self.now.keys.now self.now.slot
            self.now.after) m home.old home.new }
    {
        for (j, home) in home[..m].iter_mut().enumerate() {
            *home = self.home_more(j, *home);
        }
    }
}

// To the n relays one is put in at place `at`, at position q.
pub fn put_in(
    scheme: u32,
    tablets: &[u32],
    mut around: Around,
    n: usize,
    m: usize,
    at: usize,
    q: ring::Position,
) -> Around
    requires { PutsIn tablets.now n m at around.keys }
    ensures { PutIn (positions scheme) tablets.now n m at q.0 around.keys around.home result }
{
    let x = u64::from(q.0) * ring::NUMBERS + at as u64;
    let slot = home::advance(&around.keys, n, 0, x);
    keys_more(&mut around.keys, n, slot, at, x);
    let new = NewRelay {
        scheme,
        tablets,
        keys: &around.keys,
        slot,
        after: slot_after(n, slot),
    };
    new.homes_more(&mut around.home, m);
    around
}
