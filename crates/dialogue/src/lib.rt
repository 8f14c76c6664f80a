// What a line of input does (document 01, "A drill to prove"; docs/DECISIONS.md, reading 9), with nothing read or written: what a line means is
// `line`'s, what a call does `calls`'s, how an answer reads `answer`'s.
#![tactic(auto)]

ghost use Rattle.line.specs.Line.{meaning_of};
ghost use Rattle.call_start.specs.Promise.{lists};
ghost use Rattle.dialogue.specs.Lines.{Shows, under, answered};

// The lent slices go apart, as the calls take them: the C interface lends them so.
fn next_line(
    relays: &mut [u32],
    tablets: &mut [u32],
    moves: &mut [u32],
    answer: &mut [u8],
    scheme: u32,
    line: &[u8],
) -> stage::Standing
    ensures { Shows (under scheme relays.old tablets.old moves.old
        (meaning_of line.now)) answer.old
        result (lists relays.new tablets.new moves.new) answer.new }
{
    match line::meaning(line) {
        Some(call) => {
            // Nobody asks for the counts.
            let mut tally = [0u32; 4];
            let reply = calls::call(scheme, relays, tablets, moves, &mut tally, call);
            let due = answer::answer(answer, reply, moves);
            stage::Standing {
                stage: stage::Stage::Under(scheme),
                kept: 0,
                due,
            }
        }
        None => stage::other_line(answer, stage::Stage::Under(scheme)),
    }
}

// What a line does to the stage, the tables and the moves, and the answer to it.
pub fn answer_line(
    relays: &mut [u32],
    tablets: &mut [u32],
    moves: &mut [u32],
    answer: &mut [u8],
    stage: stage::Stage,
    line: &[u8],
) -> stage::Standing
    ensures { Shows (answered stage relays.old tablets.old moves.old
        line.now) answer.old
        result (lists relays.new tablets.new moves.new) answer.new }
{
    match stage {
        stage::Stage::First => stage::first_line(answer, line),
        stage::Stage::Under(scheme) => next_line(relays, tablets, moves, answer, scheme, line),
        stage::Stage::Over => stage::Standing {
            stage: stage::Stage::Over,
            kept: 0,
            due: 0,
        },
    }
}
