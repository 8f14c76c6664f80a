// The call that finds a tablet (document 01, "Replies").
#![tactic(auto)]

ghost use Rattle.std.specs.Prelude.{List, ℕ};
ghost use Rattle.rule.specs.declared.Call.TheVariants.{Find};
ghost use Rattle.promise.specs.Promise.{Answers};
ghost use Rattle.call_start.specs.Promise.{lists, after, Ends};

// The tablet's relay, and how many relays come before it in the tablet's clockwise order. A find makes no moves, so the promise
// holds of every move list.
pub fn find(scheme: u32, relays: &[u32], tablets: &[u32], t: ring::TabletNumber) -> rule::Reply
    ensures { (moves : List ℕ) → Answers
        (after scheme relays.now tablets.now moves (Find t))
        result (lists relays.now tablets.now moves) }
{
    match found(scheme, relays, tablets, t) {
        Ok(reply) => reply,
        Err(why) => rule::bare_reply(why),
    }
}

fn found(
    scheme: u32,
    relays: &[u32],
    tablets: &[u32],
    t: ring::TabletNumber,
) -> Result<rule::Reply, rule::Refusal>
    ensures { (moves : List ℕ) → Ends
        (after scheme relays.now tablets.now moves (Find t))
        result (lists relays.now tablets.now moves) }
{
    let mut survey = survey::Survey::new();
    call_start::look_into(scheme, relays, tablets, &mut survey)?;
    let seat = seat::seat_of(tablets, &survey, t)?;
    Ok(rule::Reply {
        refusal: rule::Refusal::Done,
        relay: seat.relay,
        passed: seat.passed,
        moves: 0,
    })
}
