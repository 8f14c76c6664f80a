// The call that withdraws a tablet (document 01, "The rule of placement", "Replies").
#![tactic(auto)]

ghost use Rattle.rule.specs.declared.Call.TheVariants.{Withdraw};
ghost use Rattle.promise.specs.Promise.{Answers};
ghost use Rattle.call_start.specs.Promise.{lists, after, Ends};

// The tablet is taken out, and those who fill the holes move. The reply has its relay and how many relays it had passed, both taken
// before the call.
pub fn withdraw(
    scheme: u32,
    relays: &[u32],
    tablets: &mut [u32],
    moves: &mut [u32],
    t: ring::TabletNumber,
) -> rule::Reply
    ensures { Answers (after scheme relays.now tablets.old moves.old
        (Withdraw t))
        result (lists relays.now tablets.new moves.new) }
{
    match withdrawn(scheme, relays, tablets, moves, t) {
        Ok(reply) => reply,
        Err(why) => rule::bare_reply(why),
    }
}

fn withdrawn(
    scheme: u32,
    relays: &[u32],
    tablets: &mut [u32],
    moves: &mut [u32],
    t: ring::TabletNumber,
) -> Result<rule::Reply, rule::Refusal>
    ensures { Ends (after scheme relays.now tablets.old moves.old
        (Withdraw t))
        result (lists relays.now tablets.new moves.new) }
{
    let mut survey = survey::Survey::new();
    call_start::look_into(scheme, relays, tablets, &mut survey)?;
    let seat = seat::seat_of(tablets, &survey, t)?;
    let chain = holes::holes(&survey, seat.at);
    let movers = &chain.places[..chain.count];
    if moves.len() / 3 < movers.len() {
        return Err(rule::Refusal::MoveListTooShort);
    }
    holes::fill(tablets, moves, survey.m, seat.at, movers);
    Ok(rule::Reply {
        refusal: rule::Refusal::Done,
        relay: seat.relay,
        passed: seat.passed,
        moves: movers.len() as u32,
    })
}
