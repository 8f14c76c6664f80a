// The entries of lent tables (document 01, "The lent tables"): where the numbers come first, a search by halves finds how many places are
// in use, and the shape is tested with as many.
#![tactic(auto)]

mod shape;

ghost use Rattle.std.specs.Prelude.{◌≡◌, ℕ, MatchOption};
ghost use Rattle.tables.specs.Table.{number_in, places_of};
ghost use Rattle.tables.specs.Shape.{table_shape};
ghost use Rattle.entries.specs.Entries.{Ends, NotAsItMust, Counted, ShapesOf};

use shape::has_shape;

// Where the numbers of a table end, if they come first.
fn edge(table: &[u32]) -> usize
    ensures { (n : ℕ) → Ends (number_in table.now) (places_of table.now) n → result ≡ n }
{
    let (places, _) = table.as_chunks::<2>();
    places.partition_point(|place| 0 < place[0])
}

// How many entries a table has, if it is as it must be: of so many places at most, and with so much at most beside a number.
fn entries(table: &[u32], most: usize, top: u32) -> Option<usize>
    ensures { MatchOption result (NotAsItMust most top table.now) (λ n. Counted most top table.now n) }
{
    let n = edge(table);
    if has_shape(table, most, top, n) {
        Some(n)
    } else {
        None
    }
}

// How many relays and tablets there are.
#[derive(Clone, Copy)]
pub struct Counts {
    pub n: usize,
    pub m: usize,
}

// How many there are in two tables, if both are as they must be.
pub fn shapes(relays: &[u32], tablets: &[u32]) -> Option<Counts>
    ensures { ShapesOf relays.now tablets.now result }
{
    let n = entries(relays, ring::MOST_RELAYS, ring::MOST_LIMIT)?;
    let m = entries(tablets, ring::MOST_TABLETS, ring::TOP_NUMBER)?;
    Some(Counts { n, m })
}
