// Entries put in, taken out and changed in the lent tables, once a call is accepted (document 01, "The lent tables"): in either table, over the
// number at a place and what stands beside it.
#![tactic(auto)]

ghost use Rattle.std.specs.Prelude.{◌≡◌, ◌+◌, ◌-◌, ◌<◌, ◌≤◌};
ghost use Rattle.rule.specs.Entry.{insert, delete, put};
ghost use Rattle.tables.specs.Table.{places_of, number_in, beside_in};
ghost use Rattle.meaning.specs.Meaning.{entries_in};
ghost use Rattle.write.specs.Wrote.{WroteEntries, Place, Climbs};
ghost use Rattle.place.specs.Places.{SetBeside};
ghost use Rattle.write.specs.Places.{TookOut};

// The n entries with one more put in at its place: the places behind it move up.
#[tactic(auto, unfolding(tables::specs::Table::places_of))]
pub fn insert(table: &mut [u32], n: usize, at: usize, number: u32, beside: u32)
    requires { (n < places_of table.old) × Place (number_in table.old) n number at }
    ensures { WroteEntries table.old table.new (n + 1)
        (insert number beside (entries_in table.old n)) }
{
    // Entry by entry, from the last down. A block move tells no number from what stands beside it, so no must-fail edit could err in the one alone.
    for i in (at..n).rev() {
        place::set(
            table,
            i + 1,
            tables::number(table, i),
            tables::beside(table, i),
        );
    }
    place::set(table, at, number, beside);
}

// The n entries without the one at place `at`: the places behind it move down, and the last is zeros.
#[tactic(auto, unfolding(tables::specs::Table::places_of))]
pub fn delete(table: &mut [u32], n: usize, at: usize)
    requires { (at < n) × (n ≤ places_of table.old) × Climbs (number_in table.old) n }
    ensures { TookOut number_in beside_in table.old table.new (n - 1)
        (delete (number_in table.old at) (entries_in table.old n)) }
{
    table.copy_within(2 * at + 2..2 * n, 2 * at);
    place::set(table, n - 1, 0, 0);
}

// The n entries with another limit, or relay, beside the number at place i.
pub fn change(table: &mut [u32], n: usize, i: usize, beside: u32)
    requires { (i < n) × (n ≤ places_of table.old) × Climbs (number_in table.old) n }
    ensures { WroteEntries table.old table.new n
        (put (number_in table.old i) beside (entries_in table.old n))
        × SetBeside number_in beside_in table.old table.new i beside }
{
    place::set_beside(table, i, beside);
}
