// The drill of document 01 ("A drill to prove"), run in the forms that it names ("Forms for each place"): every call is lent a tally and a list of
// move records, and every relay's stretch is a part of the lent sheet. A call's answer is printed as `watch` prints it.
#![tactic(auto)]

ghost use Rattle.std.specs.Prelude.{◌≡◌};
ghost use Rattle.promise.specs.Promise.{Answers};
ghost use Rattle.call_start.specs.Promise.{lists};
ghost use Rattle.station.specs.Promise.{attended};
ghost use Rattle.drill.specs.Calls.{blanks, made};

const SCHEME: u32 = 0;

const CALLS: usize = 21;

// The list that is lent has eight records.
const LIST: usize = 8;

// The longest answer: 44 bytes, and 35 for each of eight moves (`answer_room` in `answer`).
const ANSWER: usize = 324;

// ---- the calls

// The three relays, then cases 1 to 12, then what document 01 leaves to the tests: four calls more, and a 256th and a 257th relay.
fn calls() -> [rule::Call; CALLS]
    ensures { result ≡ made }
{
    [
        rule::Call::Add(ring::RelayNumber(10), 1),
        rule::Call::Add(ring::RelayNumber(20), 2),
        rule::Call::Add(ring::RelayNumber(30), 1),
        rule::Call::Enrol(ring::TabletNumber(5)),
        rule::Call::Enrol(ring::TabletNumber(3)),
        rule::Call::Enrol(ring::TabletNumber(31)),
        rule::Call::Enrol(ring::TabletNumber(12)),
        rule::Call::Enrol(ring::TabletNumber(40)),
        rule::Call::Enrol(ring::TabletNumber(12)),
        rule::Call::Find(ring::TabletNumber(31)),
        rule::Call::Withdraw(ring::TabletNumber(3)),
        rule::Call::Add(ring::RelayNumber(4), 1),
        rule::Call::Set(ring::RelayNumber(10), 0),
        rule::Call::Find(ring::TabletNumber(5)),
        rule::Call::Remove(ring::RelayNumber(20)),
        rule::Call::Remove(ring::RelayNumber(10)),
        rule::Call::Withdraw(ring::TabletNumber(99)),
        rule::Call::Set(ring::RelayNumber(20), 4096),
        rule::Call::Set(ring::RelayNumber(20), 4097),
        rule::Call::Add(ring::RelayNumber(256), 0),
        rule::Call::Add(ring::RelayNumber(257), 0),
    ]
}

// ---- a call, and what is lent to it

const BLANK: rule::Move = rule::Move {
    tablet: ring::TabletNumber(0),
    old: ring::RelayNumber(0),
    new: ring::RelayNumber(0),
};

// One call on the tables, with a blank list and this tally lent to it; the reply, and what the list holds afterwards.
fn ask(
    relays: &mut [u32],
    tablets: &mut [u32],
    tally: &mut rule::Tally,
    call: rule::Call,
) -> (rule::Reply, [rule::Move; LIST])
    ensures { Answers (attended 0 relays.old tablets.old blanks tally.old call)
        result.0 (lists relays.new tablets.new result.1, tally.new) }
{
    let mut list = [BLANK; LIST];
    let reply = station::call(SCHEME, relays, tablets, &mut list, tally, call);
    (reply, list)
}

// ---- what is printed: where a line cannot be written, the run goes on without it

fn show(rt: &impl Print, reply: rule::Reply, list: [rule::Move; LIST]) {
    let mut out = [0u8; ANSWER];
    let moves = list.map(|moved| [moved.tablet.0, moved.old.0, moved.new.0]);
    let end = answer::answer(&mut out, reply, moves.as_flattened());
    let _ = rt.write_all(&out[..end]);
}

fn show_tally(rt: &impl Print, tally: &rule::Tally) {
    let _ = println!(rt;
        "tally {} {} {} {}",
        tally.enrolments, tally.withdrawals, tally.moves, tally.refusals
    );
}

// The stretch of one relay, as a part of the sheet.
fn show_stretch(rt: &impl Print, relays: &[u32], tablets: &[u32], sheet: &[u32], relay: u32) {
    let part = stretch::stretch(SCHEME, relays, tablets, sheet, ring::RelayNumber(relay));
    let _ = print!(rt; "{relay}:");
    for tablet in part {
        let _ = print!(rt; " {tablet}");
    }
    let _ = println!(rt;);
}

// The sheet, the stretch of every relay, and that of a relay that is not there.
fn show_sheet(rt: &impl Print, relays: &[u32], tablets: &[u32]) {
    let mut sheet = [0u32; ring::MOST_TABLETS];
    let reply = sheet::sheet(SCHEME, relays, tablets, &mut sheet);
    let _ = println!(rt; "sheet {}", u32::from(reply.refusal));
    let (entries, _) = relays.as_chunks::<2>();
    for [relay, _] in entries {
        if *relay != 0 {
            show_stretch(rt, relays, tablets, &sheet, *relay);
        }
    }
    show_stretch(rt, relays, tablets, &sheet, 99);
}

// ---- the run

// The calls, each answered on what the one before it left.
fn run(
    rt: &impl Print,
    relays: &mut [u32],
    tablets: &mut [u32],
    tally: &mut rule::Tally,
    calls: &[rule::Call],
) {
    for call in calls {
        let (reply, list) = ask(relays, tablets, tally, *call);
        show(rt, reply, list);
    }
}

// A relay table with 255 relays of limit 0, 1 to 255.
fn crowd() -> [u32; tables::RELAY_NUMBERS] {
    let mut relays = [0u32; tables::RELAY_NUMBERS];
    let (entries, _) = relays.as_chunks_mut::<2>();
    for (entry, number) in entries.iter_mut().zip(1..=255) {
        *entry = [number, 0];
    }
    relays
}

// The number that a call made, 0 where it is refused.
fn show_made(rt: &impl Print, name: &str, made: Result<u32, rule::Refusal>) {
    let refusal = u32::from(made.err().unwrap_or(rule::Refusal::Done));
    let number = made.unwrap_or(0);
    let _ = println!(rt; "{name} {refusal} {number}");
}

// A balance of 5/4 for 10 tablets and 4 relays.
fn show_balance(rt: &impl Print) {
    show_made(rt, "balance", balance::balance(5, 4, 10, 4));
}

// A roster, read into tables of a place each.
fn show_roster(rt: &impl Print, bytes: &[u8]) {
    let mut relays = [0u32; 2];
    let mut tablets = [0u32; 2];
    show_made(rt, "roster", roster::read(bytes, &mut relays, &mut tablets));
}

fn main(rt: HostRuntime) {
    let mut relays = [0u32; tables::RELAY_NUMBERS];
    let mut tablets = [0u32; tables::TABLET_NUMBERS];
    let mut tally = rule::Tally {
        enrolments: 0,
        withdrawals: 0,
        moves: 0,
        refusals: 0,
    };
    let calls = calls();
    let _ = println!(rt; "the relays");
    run(&rt, &mut relays, &mut tablets, &mut tally, &calls[..3]);
    let _ = println!(rt; "cases 1 to 12");
    run(&rt, &mut relays, &mut tablets, &mut tally, &calls[3..15]);
    show_tally(&rt, &tally);
    let _ = println!(rt; "what follows them");
    run(&rt, &mut relays, &mut tablets, &mut tally, &calls[15..19]);
    let _ = println!(rt; "a 256th relay, and another");
    let mut crowded = crowd();
    let mut none = [0u32; 2];
    run(&rt, &mut crowded, &mut none, &mut tally, &calls[19..]);
    show_tally(&rt, &tally);
    show_balance(&rt);
    show_roster(&rt, b"\x14\0\0\0\0\0\0\0\x14\0\0\0\0\0\0\0\0\0\0\0");
    show_roster(&rt, b"\x14\0\0\0\0\0\0\0\x14\0\0\0\0\0\0\0\0\0\0");
    show_sheet(&rt, &relays, &tablets);
}
