// Are the lent tables right, and what does the check learn on its way (document 01, "The rule of placement")? The tablets are
// taken by rising number; a row leads from every slot of the ring to the first slot with room.
#![tactic(auto)]

ghost use Rattle.std.specs.Prelude.{◌≡◌, true, false, ◌&&◌, ◌<◌, eqb, ltb, get_or, MatchResult};
ghost use Rattle.ring.specs.Most.{most_relays};
ghost use Rattle.ring.specs.Scheme.{positions};
ghost use Rattle.rule.specs.declared.Refusal.TheVariants.{TablesNotRight};
ghost use Rattle.tables.specs.Table.{relay_places, relay_number, RelaysIn, tablet_places, tablet_relay, TabletsIn};
ghost use Rattle.tables.specs.Placement.{placed};
ghost use Rattle.survey.specs.Seats.{unlearnt, Surveyed};

// What is known once the tables are found right: how many relays and tablets there are, the relays in ring order, the room left, the
// row, for each relay one more than the place of its greatest tablet, and for each tablet its home and its relay's slot.
#[derive(Drop)]
pub struct Survey {
    pub n: usize,
    pub m: usize,
    pub keys: [u64; ring::MOST_RELAYS],
    pub room: [u32; ring::MOST_RELAYS],
    pub next: [u8; ring::MOST_RELAYS],
    pub last: [u16; ring::MOST_RELAYS],
    pub home: [u8; ring::MOST_TABLETS],
    pub slot: [u8; ring::MOST_TABLETS],
}

// Has the relay at place i room, and is it written beside tablet j?
fn stands_beside(
    relays: &[u32],
    tablets: &[u32],
    room: &[u32; ring::MOST_RELAYS],
    i: usize,
    j: usize,
) -> bool
    requires { (i < most_relays) × (0 < get_or room.now i 0 → i < relay_places relays.now)
        × (j < tablet_places tablets.now) }
    ensures { result ≡ (ltb 0 (get_or room.now i 0) && eqb (relay_number relays.now i)
        (tablet_relay tablets.now j)) }
{
    0 < room[i] && tables::relay_number(relays, i) == tables::tablet_relay(tablets, j)
}

impl Survey {
    // Nothing is learnt yet.
    #[tactic(auto, unfolding(crate::specs::Seats::unlearnt))]
    pub fn new() -> Survey
        ensures { result ≡ unlearnt }
    {
        Survey {
            n: 0,
            m: 0,
            keys: [0; ring::MOST_RELAYS],
            room: [0; ring::MOST_RELAYS],
            next: [0; ring::MOST_RELAYS],
            last: [0; ring::MOST_RELAYS],
            home: [0; ring::MOST_TABLETS],
            slot: [0; ring::MOST_TABLETS],
        }
    }

    // What is learnt on the way through the m tablets, where the relay written beside each is the rule's. It is written where it is to
    // stay: handed out in a Result, its 12 kB would be copied.
    pub fn learn(
        &mut self,
        scheme: u32,
        relays: &[u32],
        tablets: &[u32],
        n: usize,
        m: usize,
    ) -> Result<(), rule::Refusal>
        requires { RelaysIn relays.now n × TabletsIn tablets.now m }
        ensures { MatchResult result
            (λ _. (placed (positions scheme) relays.now tablets.now n m ≡ true)
            × Surveyed (positions scheme) relays.now tablets.now n m self.new)
            (λ why. (placed (positions scheme) relays.now tablets.now n m ≡ false)
            × (why ≡ TablesNotRight)) }
    {
        let position = placing::relay_positions(scheme, relays, n);
        let keys = order::ring_order(&position, n);
        let in_turn = home::in_turn(scheme);
        let start = home::arc_starts(&keys, n, in_turn);
        let mut room = placing::relay_limits(relays, n);
        let mut next = row::first_row(&keys, &room, n);
        let mut last = [0u16; ring::MOST_RELAYS];
        let mut from = ring::Position(0);
        let mut h: usize = 0;
        for j in 0..m {
            let p = ring::tablet_at(scheme, tables::tablet_number(tablets, j));
            h = home::home_of(&keys, &start, n, in_turn, h, from, p);
            from = p;
            let k = row::led_to(&next, h);
            let i = order::slot_relay(&keys, k);
            if !stands_beside(relays, tablets, &room, i, j) {
                return Err(rule::Refusal::TablesNotRight);
            }
            self.home[j] = (h % ring::MOST_RELAYS) as u8;
            self.slot[j] = k as u8;
            row::take(&keys, &mut room, &mut next, n, k);
            last[i] = (j + 1) as u16;
        }
        self.n = n;
        self.m = m;
        self.keys = keys;
        self.room = room;
        self.next = next;
        self.last = last;
        Ok(())
    }
}

// The same, as a survey of its own.
pub fn look_over(
    scheme: u32,
    relays: &[u32],
    tablets: &[u32],
    n: usize,
    m: usize,
) -> Result<Survey, rule::Refusal>
    requires { RelaysIn relays.now n × TabletsIn tablets.now m }
    ensures { MatchResult result
        (λ s. (placed (positions scheme) relays.now tablets.now n m ≡ true)
        × Surveyed (positions scheme) relays.now tablets.now n m s)
        (λ why. (placed (positions scheme) relays.now tablets.now n m ≡ false)
        × (why ≡ TablesNotRight)) }
{
    let mut survey = Survey::new();
    survey.learn(scheme, relays, tablets, n, m)?;
    Ok(survey)
}
