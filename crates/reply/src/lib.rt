// The reply to a call as four numbers (document 01, "Replies").
#![tactic(auto)]

ghost use Rattle.std.specs.Prelude.{◌≡◌};
ghost use Rattle.rule.specs.Refusals.{number_of};
ghost use Rattle.reply.specs.Numbers.{reply_numbers};

// The reply becomes the four numbers; answers with the refusal's. No `From`: the array and the reply are both of other crates, and C's answer is
// the first number besides.
#[tactic(auto, unfolding(crate::specs::Numbers::reply_numbers))]
pub fn hand_out(numbers: &mut [u32; 4], r: rule::Reply) -> u32
    ensures { (result ≡ number_of r.refusal) × (numbers.new ≡ reply_numbers r) }
{
    let number = u32::from(r.refusal);
    *numbers = [number, r.relay.0, r.passed, r.moves];
    number
}
