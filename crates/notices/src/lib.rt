// The lines that the report program tells an operator on standard error. Document 01 has standard output alone.
#![tactic(auto)]

ghost use Rattle.std.specs.Prelude.{◌≡◌, ◌+◌, ◌≤◌, ◌++◌, length};
ghost use Rattle.notices.specs.Texts.{fault, refusal, says};

use lines::Line;

// A refused sheet has its number and its place. Any number has a line, so it is no `Stop`.
#[derive(Clone, Copy)]
pub enum Notice {
    SheetMissing,
    SheetUnreadable,
    SheetRefused(u32, usize),
    InputFailed,
    QuestionCut,
    LineUnwritten,
}

// The line of a fixed text.
fn fixed(words: &[u8]) -> Line
    requires { length words.now ≤ 127 }
    ensures { result ≡ words.now }
{
    let mut line = Line::new();
    line.text(words);
    line
}

// Where a refused sheet is at fault. Stop 1 has no place, and that of stop 8 is a node and an attribute.
fn fault(line: &mut Line, number: u32, place: usize)
    requires { length line.old + 61 ≤ 128 }
    ensures said { line.new ≡ line.old ++ fault number place }
    ensures fits { length line.new ≤ length line.old + 61 }
{
    let place = place as u64;
    match number {
        1 => {}
        8 => {
            line.text(b" at node ");
            line.number(place / 32);
            line.text(b", attribute ");
            line.number(place % 32);
        }
        _ => {
            line.text(b" at byte ");
            line.number(place);
        }
    }
}

// The line of a refused sheet.
fn refused(number: u32, place: usize) -> Line
    ensures said { result ≡ refusal number place }
    ensures fits { length result ≤ 127 }
{
    let mut line = Line::new();
    line.text(b"report: sheet.bin is refused: stop ");
    line.number(u64::from(number));
    fault(&mut line, number, place);
    line.text(b"\n");
    line
}

impl Notice {
    pub fn line(self) -> Line
        ensures said { result ≡ says self }
        ensures fits { length result ≤ 127 }
    {
        match self {
            Notice::SheetMissing => fixed(
                b"report: sheet.bin is missing and counts as an empty sheet\n",
            ),
            Notice::SheetUnreadable => fixed(
                b"report: sheet.bin cannot be read and counts as an empty sheet\n",
            ),
            Notice::SheetRefused(number, place) => refused(number, place),
            Notice::InputFailed => fixed(
                b"report: standard input could not be read, which counts as its end\n",
            ),
            Notice::QuestionCut => fixed(
                b"report: the last question is cut by the end of standard input\n",
            ),
            Notice::LineUnwritten => fixed(
                b"report: a line could not be written to standard output, which ends the run\n",
            ),
        }
    }
}
