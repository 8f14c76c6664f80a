// Runs calls from standard input, a line to each, and answers a line as soon as it is read (document 01, "A drill to prove";
// docs/DECISIONS.md, reading 9). What a byte of the input does is `input`'s. Here bytes are read, and answers written.
#![tactic(auto)]

ghost use Rattle.std.specs.Prelude.{[], ◌∷◌, ◌≡◌, ◌≤◌, ◌<◌, min, IfOk, length, take};
ghost use Rattle.std.proofs.lemmas.List.Edits.{sets};
ghost use Rattle.watch.specs.Chunks.{bytes_of, Brings};

use std::io::Read;

const STDOUT: i32 = 1;

// As many bytes are read at once.
const CHUNK: usize = 4096;

// A line is answered as its first 24 bytes are, so no more are kept (`answered_first` in `input`).
const KEPT: usize = 24;

// The longest answer: 44 bytes, and 35 for each of 4,096 moves (`takes_whole` in `input`).
const ANSWER: usize = 44 + 35 * ring::MOST_TABLETS;

// ---- reading

// What a read brought: so many bytes of the chunk, and more may come, or the last ones.
#[derive(Drop)]
enum Brought {
    More(usize),
    Last(usize),
}

// A last line without a newline is a line: where bytes of it are kept, a newline is still to be taken.
fn last_newline(chunk: &mut [u8], kept: usize) -> usize
    requires { 0 < length chunk.old }
    ensures { (result ≡ min kept 1) × (chunk.new ≡ sets chunk.old 0 (take result (10 ∷ []))) }
{
    if kept == 0 {
        return 0;
    }
    chunk[0] = b'\n';
    1
}

// What a read brought that answered `got`. Where it failed, the line that it cut off is not made.
fn after_read(chunk: &mut [u8], kept: usize, got: std::io::Result<usize>) -> Brought
    requires { (0 < length chunk.old) × IfOk got (λ count. count ≤ length chunk.old) }
    ensures brings { Brings got kept chunk.old result chunk.new }
    ensures within { bytes_of result ≤ length chunk.new }
{
    match got {
        Ok(0) => Brought::Last(last_newline(chunk, kept)),
        Ok(count) => Brought::More(count),
        Err(_) => Brought::Last(0),
    }
}

// ---- a run

// What is lent to each byte that is taken, and where the run stands.
#[derive(Drop)]
struct Run {
    relays: [u32; tables::RELAY_NUMBERS],
    tablets: [u32; tables::TABLET_NUMBERS],
    moves: [u32; tables::MOVE_NUMBERS],
    answer: [u8; ANSWER],
    line: [u8; KEPT],
    at: stage::Standing,
}

impl Run {
    // Takes a byte, and sends the answer that is due; where the run stands then. Where that fails nobody reads on, and the run is over. By the
    // kit's `io`: the write of the handle tries again where a signal stopped it, and works for each byte of a line, of which no answer is due.
    fn take(&mut self, at: stage::Standing, byte: u8) -> stage::Standing {
        let next = input::take_byte(
            &mut self.relays,
            &mut self.tablets,
            &mut self.moves,
            &mut self.answer,
            &mut self.line,
            at,
            byte,
        );
        if io::write_all(STDOUT, &self.answer[..next.due]) {
            next
        } else {
            stage::Standing {
                stage: stage::Stage::Over,
                kept: 0,
                due: 0,
            }
        }
    }

    fn take_all(&mut self, bytes: &[u8]) {
        let mut at = self.at;
        for byte in bytes {
            at = self.take(at, *byte);
        }
        self.at = at;
    }
}

// A proved loop has to end, and nothing says that the input does. So the turns are counted.
fn main(rt: HostRuntime) {
    let mut input = rt.stdin();
    let mut chunk = [0u8; CHUNK];
    let mut run = Run {
        relays: [0; tables::RELAY_NUMBERS],
        tablets: [0; tables::TABLET_NUMBERS],
        moves: [0; tables::MOVE_NUMBERS],
        answer: [0; ANSWER],
        line: [0; KEPT],
        at: stage::Standing {
            stage: stage::Stage::First,
            kept: 0,
            due: 0,
        },
    };
    for _ in 0..u64::MAX {
        let got = input.read(&mut chunk);
        match after_read(&mut chunk, run.at.kept, got) {
            Brought::More(count) => run.take_all(&chunk[..count]),
            Brought::Last(count) => {
                run.take_all(&chunk[..count]);
                return;
            }
        }
        if stage::over(run.at) {
            return;
        }
    }
}
