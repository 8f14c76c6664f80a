// One place of a lent table or of a move list, written (document 01, "The lent tables"). Whoever writes by these functions need not know how many
// numbers a place has.
#![tactic(auto)]

ghost use Rattle.std.specs.Prelude.{◌≡◌, ◌+◌, ◌*◌, ◌<◌, ◌≤◌, length};
ghost use Rattle.tables.specs.Table.{places_of, number_in, beside_in};
ghost use Rattle.place.specs.Places.{SetPlace, SetBeside};
ghost use Rattle.place.specs.MoveList.{set_move};

// A number at place i of a table, and what stands beside it.
#[tactic(auto, using(crate::proofs::Sets::place_set), unfolding(tables::specs::Table::places_of, tables::specs::Table::number_in, tables::specs::Table::beside_in))]
pub fn set(table: &mut [u32], i: usize, number: u32, beside: u32)
    requires { i < places_of table.old }
    ensures { SetPlace number_in beside_in table.old table.new i number beside }
{
    table[2 * i] = number;
    table[2 * i + 1] = beside;
}

// What stands beside the number at place i.
#[tactic(auto, using(crate::proofs::Sets::beside_set), unfolding(tables::specs::Table::places_of, tables::specs::Table::number_in, tables::specs::Table::beside_in))]
pub fn set_beside(table: &mut [u32], i: usize, beside: u32)
    requires { i < places_of table.old }
    ensures { SetBeside number_in beside_in table.old table.new i beside }
{
    table[2 * i + 1] = beside;
}

// The move at place c of a move list.
pub fn list_move(
    moves: &mut [u32],
    c: usize,
    tablet: ring::TabletNumber,
    old: ring::RelayNumber,
    new: ring::RelayNumber,
)
    requires { 3 * (c + 1) ≤ length moves.old }
    ensures { moves.new ≡ set_move moves.old c tablet.0 old.0 new.0 }
{
    moves[3 * c] = tablet.0;
    moves[3 * c + 1] = old.0;
    moves[3 * c + 2] = new.0;
}
