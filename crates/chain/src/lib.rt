// The chain of an enrolment (document 01, "The rule of placement"): the newcomer walks its order; at a full relay that holds a greater number it
// takes the place of the greatest there, and that one walks on, until the first relay with room.
#![tactic(auto)]

ghost use Rattle.std.specs.Prelude.{◌≡◌, ℕ, ◌+◌, ◌<◌, ◌≤◌, get_or};
ghost use Rattle.ring.specs.Most.{most_relays, most_tablets};
ghost use Rattle.ring.specs.Scheme.{positions};
ghost use Rattle.tables.specs.Table.{tablet_places};
ghost use Rattle.chain.specs.Chain.{name_at, next_slot, From, Chained};
ghost use Rattle.chain.specs.Visit.{gives_way, Visited};

// Who sits down where: the first is the newcomer, and `place` has the others' places in the tablet table; `seat` has everybody's relay, by its place
// in the relay table. `others` is how many gave way, `steps` how many relays were passed. Arrays with a count: memory is fixed, with no heap.
#[derive(Drop)]
pub struct Chain {
    pub others: usize,
    pub steps: usize,
    pub place: [u16; ring::MOST_RELAYS],
    pub seat: [u8; ring::MOST_RELAYS],
}

impl Chain {
    // Nobody sat down yet.
    fn new() -> Chain
        ensures { (result.others ≡ 0) × (result.steps ≡ 0) }
    {
        Chain {
            others: 0,
            steps: 0,
            place: [0; ring::MOST_RELAYS],
            seat: [0; ring::MOST_RELAYS],
        }
    }

    // The tablet that walks; t is the newcomer, who walks first.
    fn walker(&self, tablets: &[u32], t: ring::TabletNumber) -> ring::TabletNumber
        requires { (self.now.others < most_relays)
            × (0 < self.now.others → get_or self.now.place self.now.others 0 < tablet_places tablets.now) }
        ensures { result.0 ≡ name_at t.0 tablets.now self.now.place self.now.others }
    {
        if self.others == 0 {
            t
        } else {
            tables::tablet_number(tablets, usize::from(self.place[self.others]))
        }
    }

    // The walker w sits down at relay i, if the greatest tablet there gives way: the one at place l - 1, which then walks. 0 where there is none.
    fn visit(&mut self, tablets: &[u32], w: ring::TabletNumber, i: usize, l: usize)
        requires { (self.old.others + 1 < most_relays) × (i < most_relays) × (l ≤ most_tablets)
            × (l ≤ tablet_places tablets.now) × (self.old.steps < most_relays) }
        ensures { Visited (gives_way tablets.now w.0 l) self.old self.new i l }
    {
        if gives_way(tablets, w, l) {
            self.seat[self.others] = i as u8;
            self.others += 1;
            self.place[self.others] = (l - 1) as u16;
        }
        self.steps += 1;
    }
}

#[tactic(auto, unfolding(crate::specs::Chain::next_slot))]
fn next_slot(n: usize, k: usize) -> usize
    requires { k < most_relays }
    ensures { result ≡ next_slot n k }
{
    if k + 1 == n { 0 } else { k + 1 }
}

// Does the greatest tablet at a relay give way to w?
#[tactic(auto, unfolding(crate::specs::Visit::gives_way))]
fn gives_way(tablets: &[u32], w: ring::TabletNumber, l: usize) -> bool
    requires { l ≤ tablet_places tablets.now }
    ensures { result ≡ gives_way tablets.now w.0 l }
{
    l != 0 && w < tables::tablet_number(tablets, l - 1)
}

// The whole turn, from the newcomer's home h to the first slot with room.
pub fn turn(
    relays: &[u32],
    tablets: &[u32],
    survey: &survey::Survey,
    h: usize,
    stop: usize,
    t: ring::TabletNumber,
) -> Chain
    requires { (s : ℕ) × From (positions s) relays.now tablets.now survey.now h stop }
    ensures { Chained relays.now tablets.now survey.now h stop t.0 result }
{
    let mut chain = Chain::new();
    let mut k = h;
    // The walk goes round the top of the ring, and ends by its test: a `for` with a `break` and this `next_slot` is no plainer.
    while k != stop {
        let i = order::slot_relay(&survey.keys, k);
        let w = chain.walker(tablets, t);
        chain.visit(tablets, w, i, usize::from(survey.last[i]));
        k = next_slot(survey.n, k);
    }
    let i = order::slot_relay(&survey.keys, stop);
    chain.seat[chain.others] = i as u8;
    chain
}
