// The calls in the forms that document 01 names for what a station lends ("Forms for each place"): a tally of counts, and a list of move records.
// The calls themselves are those on number slices.
#![tactic(auto)]

ghost use Rattle.std.specs.Prelude.{◌≡◌, ◌*◌, ◌≤◌, length};
ghost use Rattle.ring.specs.Most.{most_tablets};
ghost use Rattle.rule.specs.Tally.{counted};
ghost use Rattle.promise.specs.Promise.{Answers};
ghost use Rattle.call_start.specs.Promise.{lists};
ghost use Rattle.station.specs.Handed.{handed};
ghost use Rattle.station.specs.Promise.{attended};

// The lent tally with a call that got this reply.
pub fn count_into(t: &mut rule::Tally, c: rule::Call, r: rule::Reply)
    ensures { t.new ≡ counted t.old c r }
{
    *t = tally::counted(*t, c, r);
}

// The first moves of the numbers become the first records of the list, and the records behind them stay.
// A count beside the list, since `hand_out(&mut list[..count], numbers)` is no plainer: it needs a law on the records behind.
#[tactic(auto, unfolding(crate::specs::Handed::handed))]
fn hand_out(list: &mut [rule::Move], numbers: &[u32; tables::MOVE_NUMBERS], count: usize)
    requires { (count ≤ length list.old) × (3 * count ≤ 3 * most_tablets) }
    ensures { list.new ≡ handed list.old numbers.now count }
{
    for i in 0..count {
        list[i] = records::move_at(numbers, i);
    }
}

// Any of the six calls, with the list and the tally of a station.
pub fn call(
    scheme: u32,
    relays: &mut [u32],
    tablets: &mut [u32],
    list: &mut [rule::Move],
    t: &mut rule::Tally,
    c: rule::Call,
) -> rule::Reply
    ensures { Answers (attended scheme relays.old tablets.old list.old
        t.old c)
        result (lists relays.new tablets.new list.new, t.new) }
{
    let mut numbers = [0u32; tables::MOVE_NUMBERS];
    let r = records::work_on(scheme, relays, tablets, &mut numbers, list.len(), c);
    hand_out(list, &numbers, records::made(r));
    count_into(t, c, r);
    r
}
