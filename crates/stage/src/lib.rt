// Where a run of lines stands (document 01, "A drill to prove"; docs/DECISIONS.md, reading 9), and how the lines are answered that are no
// call: the first, and one of another form.
#![tactic(auto)]

ghost use Rattle.std.specs.Prelude.{◌≡◌};
ghost use Rattle.line.specs.Line.{scheme_of};
ghost use Rattle.stage.specs.Stage.{is_over, Says, other, first};

// What the next line is: the first, which names the scheme, or a call under a scheme; or there is none, since the run is over.
#[derive(Clone, Copy)]
pub enum Stage {
    First,
    Under(u32),
    Over,
}

// Where a run stands: the stage, how many bytes of the line that is being read are kept, and how many bytes of the answer are due.
#[derive(Clone, Copy)]
pub struct Standing {
    pub stage: Stage,
    pub kept: usize,
    pub due: usize,
}

// Whether the run is over.
pub fn over(at: Standing) -> bool
    ensures { result ≡ is_over at.stage }
{
    matches!(at.stage, Stage::Over)
}

// A line of another form is answered by `?`.
pub fn other_line(answer: &mut [u8], next: Stage) -> Standing
    ensures { Says (other next) answer.old result answer.new }
{
    let due = answer::echo(answer, b"?");
    Standing {
        stage: next,
        kept: 0,
        due,
    }
}

pub fn first_line(answer: &mut [u8], line: &[u8]) -> Standing
    ensures { Says (first line.now (scheme_of line.now)) answer.old result
        answer.new }
{
    match line::scheme_of(line) {
        Some(scheme) => {
            let due = answer::echo(answer, line);
            Standing {
                stage: Stage::Under(scheme),
                kept: 0,
                due,
            }
        }
        None => other_line(answer, Stage::Over),
    }
}
