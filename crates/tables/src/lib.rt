// The lent tables (document 01, "The lent tables"): where a relay and a tablet stand in them, and whether the places are whole and not
// too many.
#![tactic(auto)]

ghost use Rattle.std.specs.Prelude.{◌≡◌, ◌<◌};
ghost use Rattle.tables.specs.Table.{places_of, number_in, beside_in, is_whole, relay_places, relay_number, relay_limit, tablet_places, tablet_number, tablet_relay};
ghost use Rattle.tables.specs.Shape.{fits_in};

// The numbers of tables with all the places that may be lent, two to a place; and of as many moves as there may be tablets, three to a move.
pub const RELAY_NUMBERS: usize = 2 * ring::MOST_RELAYS;

pub const TABLET_NUMBERS: usize = 2 * ring::MOST_TABLETS;

pub const MOVE_NUMBERS: usize = 3 * ring::MOST_TABLETS;

// ---- either table: a number, and what stands beside it

// How many places it has.
#[tactic(auto, unfolding(crate::specs::Table::places_of))]
pub fn places(table: &[u32]) -> usize
    ensures { result ≡ places_of table.now }
{
    table.len() / 2
}

// The number at place i.
#[tactic(auto, unfolding(crate::specs::Table::places_of, crate::specs::Table::number_in))]
pub fn number(table: &[u32], i: usize) -> u32
    requires { i < places_of table.now }
    ensures { result ≡ number_in table.now i }
{
    table[2 * i]
}

// What stands beside it.
#[tactic(auto, unfolding(crate::specs::Table::places_of, crate::specs::Table::beside_in))]
pub fn beside(table: &[u32], i: usize) -> u32
    requires { i < places_of table.now }
    ensures { result ≡ beside_in table.now i }
{
    table[2 * i + 1]
}

#[tactic(auto, unfolding(crate::specs::Table::is_whole))]
fn whole(table: &[u32]) -> bool
    ensures { result ≡ is_whole table.now }
{
    table.len() % 2 == 0
}

// Are its places whole, and not more than so many?
#[tactic(auto, unfolding(crate::specs::Shape::fits_in))]
pub fn fits(table: &[u32], most: usize) -> bool
    ensures { result ≡ fits_in most table.now }
{
    whole(table) && places(table) <= most
}

// ---- each table, its numbers by their kinds: a generic reader would want a trait of the kinds, and its kind named at each call

pub fn relay_number(relays: &[u32], i: usize) -> ring::RelayNumber
    requires { i < relay_places relays.now }
    ensures { result.0 ≡ relay_number relays.now i }
{
    ring::RelayNumber(number(relays, i))
}

pub fn relay_limit(relays: &[u32], i: usize) -> u32
    requires { i < relay_places relays.now }
    ensures { result ≡ relay_limit relays.now i }
{
    beside(relays, i)
}

pub fn tablet_number(tablets: &[u32], j: usize) -> ring::TabletNumber
    requires { j < tablet_places tablets.now }
    ensures { result.0 ≡ tablet_number tablets.now j }
{
    ring::TabletNumber(number(tablets, j))
}

pub fn tablet_relay(tablets: &[u32], j: usize) -> ring::RelayNumber
    requires { j < tablet_places tablets.now }
    ensures { result.0 ≡ tablet_relay tablets.now j }
{
    ring::RelayNumber(beside(tablets, j))
}
