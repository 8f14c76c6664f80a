// The shape of a lent table (document 01, "The lent tables"): entries by rising number, and unused places behind them. The loops have no
// way out, so that they go over several places at a time.
ghost use Rattle.std.specs.Prelude.{◌≡◌, ◌-◌, ◌≤◌};
ghost use Rattle.tables.specs.Table.{places_of, number_in, beside_in};
ghost use Rattle.tables.specs.Shape.{all, entry_right, unused, entry_at, unused_at, shape, table_shape};

fn entry_right(top: u32, before: u32, number: u32, beside: u32) -> bool
    ensures { result ≡ entry_right top before number beside }
{
    before < number && beside <= top
}

fn unused_place(number: u32, beside: u32) -> bool
    ensures { result ≡ unused number beside }
{
    number == 0 && beside == 0
}

// Are the first n places entries?
fn rise(table: &[u32], n: usize, top: u32) -> bool
    requires { n ≤ places_of table.now }
    ensures { result ≡ all (entry_at top (number_in table.now) (beside_in table.now)) n }
{
    let mut ok = true;
    let mut before: u32 = 0;
    for i in 0..n {
        let number = tables::number(table, i);
        let fine = entry_right(top, before, number, tables::beside(table, i));
        ok = ok & fine;
        before = number;
    }
    ok
}

// Are the places behind the first n unused?
fn end(table: &[u32], n: usize) -> bool
    requires { n ≤ places_of table.now }
    ensures { result ≡ all (unused_at (number_in table.now) (beside_in table.now) n)
        (places_of table.now - n) }
{
    let left = tables::places(table) - n;
    let mut ok = true;
    for i in 0..left {
        let fine = unused_place(tables::number(table, n + i), tables::beside(table, n + i));
        ok = ok & fine;
    }
    ok
}

// Are the first n places entries, and all behind them unused?
fn shape(table: &[u32], top: u32, n: usize) -> bool
    ensures { result ≡ shape top (number_in table.now) (beside_in table.now) n
        (places_of table.now) }
{
    n <= tables::places(table) && rise(table, n, top) & end(table, n)
}

// Is a table as it must be, with n entries: of so many places at most, and with so much at most beside a number?
pub(crate) fn has_shape(table: &[u32], most: usize, top: u32, n: usize) -> bool
    ensures { result ≡ table_shape most top table.now n }
{
    tables::fits(table, most) && shape(table, top, n)
}
