// What a byte of the input does (document 01, "A drill to prove"; docs/DECISIONS.md, reading 9), with nothing read or written. What a line
// does is `dialogue`'s.
#![tactic(auto)]

ghost use Rattle.std.specs.Prelude.{◌≡◌, take};
ghost use Rattle.call_start.specs.Promise.{lists};
ghost use Rattle.input.specs.Bytes.{Takes};

// The bytes of a line that are kept.
fn kept_part(line: &[u8], kept: usize) -> &[u8]
    ensures { result.now ≡ take kept line.now }
{
    line.get(..kept).unwrap_or(line)
}

// What a byte of the input does: a newline ends the line, and any other is kept. The lent slices go apart, as the calls take them: the C
// interface lends them so.
pub fn take_byte(
    relays: &mut [u32],
    tablets: &mut [u32],
    moves: &mut [u32],
    answer: &mut [u8],
    line: &mut [u8],
    at: stage::Standing,
    b: u8,
) -> stage::Standing
    ensures { Takes at relays.old tablets.old moves.old line.old
        answer.old b
        result (lists relays.new tablets.new moves.new) line.new answer.new }
{
    let ends = b == b'\n';
    if ends {
        let whole = kept_part(line, at.kept);
        return dialogue::answer_line(relays, tablets, moves, answer, at.stage, whole);
    }
    let kept = text::put_byte(line, at.kept, b);
    stage::Standing {
        stage: at.stage,
        kept,
        due: 0,
    }
}
