// Answers as text (document 01, "A drill to prove"), put together in a lent slice, so that each can go out in one write. The public functions
// answer with the place behind what they put. What has no room is left out.
#![tactic(auto)]

ghost use Rattle.std.specs.Prelude.{[], ◌∷◌, ◌++◌, ◌≡◌, ◌+◌, ◌*◌, ◌≤◌, ◌<◌, slice_index, length};
ghost use Rattle.text.specs.Puts.{Puts};
ghost use Rattle.answer.specs.Text.{number_then, move_text, moves_text, answer_text};

// A lent slice, and the place behind what is put there.
#[derive(Drop)]
struct Page<'a> {
    out: &'a mut [u8],
    at: usize,
    ghost within: { at ≤ length out.now },
}

impl Page<'_> {
    fn put_byte(&mut self, byte: u8)
        ensures puts { Puts self.old.out.now self.old.at (byte ∷ []) self.new.out.now self.new.at }
        ensures same_slice { self.new.out.ghost_name ≡ self.old.out.ghost_name }
    {
        self.at = text::put_byte(self.out, self.at, byte);
    }

    fn put_bytes(&mut self, bytes: &[u8])
        ensures puts { Puts self.old.out.now self.old.at bytes.now self.new.out.now self.new.at }
        ensures same_slice { self.new.out.ghost_name ≡ self.old.out.ghost_name }
    {
        for byte in bytes {
            self.put_byte(*byte);
        }
    }

    // A decimal and the byte behind it.
    fn put_number(&mut self, n: u32, behind: u8)
        ensures puts { Puts self.old.out.now self.old.at (number_then n behind) self.new.out.now
            self.new.at }
        ensures same_slice { self.new.out.ghost_name ≡ self.old.out.ghost_name }
    {
        let mut digits = itoa::Buffer::new();
        self.put_bytes(digits.format(n).as_bytes());
        self.put_byte(behind);
    }

    // The line of a move.
    fn put_move(&mut self, moved: &[u32; 3])
        ensures puts { Puts self.old.out.now self.old.at (move_text (slice_index moved.now 0)
            (slice_index moved.now 1) (slice_index moved.now 2)) self.new.out.now self.new.at }
        ensures same_slice { self.new.out.ghost_name ≡ self.old.out.ghost_name }
    {
        let [tablet, old, new] = *moved;
        self.put_bytes(b"m ");
        self.put_number(tablet, b' ');
        self.put_number(old, b' ');
        self.put_number(new, b'\n');
    }

    // The first moves of the list, three numbers to each.
    fn put_moves(&mut self, moves: &[u32], count: usize)
        requires { count * 3 ≤ length moves.now }
        ensures puts { Puts self.old.out.now self.old.at (moves_text moves.now count)
            self.new.out.now self.new.at }
        ensures same_slice { self.new.out.ghost_name ≡ self.old.out.ghost_name }
    {
        let (records, _) = moves.as_chunks::<3>();
        for moved in &records[..count] {
            self.put_move(moved);
        }
    }
}

// The answer to a call: `refusal relay passed moves`, and a line `m tablet old new` for each move.
pub fn answer(out: &mut [u8], r: rule::Reply, moves: &[u32]) -> usize
    ensures { Puts out.old 0 (answer_text r moves.now) out.new result }
{
    let mut page = Page { out, at: 0 };
    page.put_number(u32::from(r.refusal), b' ');
    page.put_number(r.relay.0, b' ');
    page.put_number(r.passed, b' ');
    page.put_number(r.moves, b'\n');
    page.put_moves(moves, (r.moves as usize).min(moves.len() / 3));
    page.at
}

// A line that is answered by itself.
pub fn echo(out: &mut [u8], line: &[u8]) -> usize
    ensures { Puts out.old 0 (line.now ++ (10 ∷ [])) out.new result }
{
    let mut page = Page { out, at: 0 };
    page.put_bytes(line);
    page.put_byte(b'\n');
    page.at
}
