// The tally that a station lends (document 01, "Sheet, balance, tally").
#![tactic(auto)]

ghost use Rattle.std.specs.Prelude.{◌≡◌};
ghost use Rattle.rule.specs.Tally.{counted};
ghost use Rattle.tally.specs.Counted.{tallied};

// The tally with a call that got this reply. A count stops at the most that it holds.
#[tactic(auto, unfolding(rule::specs::Tally::more, rule::specs::Tally::counted))]
pub fn counted(t: rule::Tally, c: rule::Call, r: rule::Reply) -> rule::Tally
    ensures { result ≡ counted t c r }
{
    if rule::done(r.refusal) {
        let enrolments = u32::from(matches!(c, rule::Call::Enrol(_)));
        let withdrawals = u32::from(matches!(c, rule::Call::Withdraw(_)));
        rule::Tally {
            enrolments: t.enrolments.saturating_add(enrolments),
            withdrawals: t.withdrawals.saturating_add(withdrawals),
            moves: t.moves.saturating_add(r.moves),
            ..t
        }
    } else {
        rule::Tally {
            refusals: t.refusals.saturating_add(1),
            ..t
        }
    }
}

// The same on a lent tally; one of another length than four is left as it is.
#[tactic(auto, unfolding(crate::specs::Counted::tallied, crate::specs::Counted::tally_of, crate::specs::Counted::counts))]
pub fn count(tally: &mut [u32], c: rule::Call, r: rule::Reply)
    ensures { tally.new ≡ tallied tally.old c r }
{
    if let [enrolments, withdrawals, moves, refusals] = *tally {
        let before = rule::Tally {
            enrolments,
            withdrawals,
            moves,
            refusals,
        };
        let after = counted(before, c, r);
        tally.copy_from_slice(&[
            after.enrolments,
            after.withdrawals,
            after.moves,
            after.refusals,
        ]);
    }
}
