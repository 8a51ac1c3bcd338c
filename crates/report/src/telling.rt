// Which notices are due after a run, and how they are told on standard error, in a line each.
ghost use Rattle.std.specs.Prelude.{◌≡◌};
ghost use Rattle.report.specs.Notices.{of_sheet, due_after};

use crate::system;
use crate::system::NoSheet;
use notices::Notice;
use saiga::stops::Refusal;
use sheets::Counts;
use std::io::Stderr;

// The notices of a run, in their order.
#[derive(Clone, Copy)]
pub struct Notices {
    sheet: Option<Notice>,
    input: Option<Notice>,
    question: Option<Notice>,
    output: Option<Notice>,
}

#[tactic(auto, unfolding(crate::specs::Notices::of_sheet))]
fn of_sheet(file: Result<usize, NoSheet>, check: Result<Counts, Refusal>) -> Option<Notice>
    ensures { result ≡ of_sheet file check }
{
    match file {
        Err(NoSheet::Missing) => Some(Notice::SheetMissing),
        Err(NoSheet::Unreadable) => Some(Notice::SheetUnreadable),
        Ok(_) => match check {
            Err(r) => Some(Notice::SheetRefused(r.stop.number(), r.place)),
            Ok(_) => None,
        },
    }
}

// The notices that are due after a run: what became of the sheet, whether a read of standard input failed, whether the last question is cut,
// and whether each line was written.
#[tactic(auto, unfolding(crate::specs::Notices::due_after))]
pub fn due(
    file: Result<usize, NoSheet>,
    check: Result<Counts, Refusal>,
    failed: bool,
    cut: bool,
    written: bool,
) -> Notices
    ensures { result ≡ due_after file check failed cut written }
{
    Notices {
        sheet: of_sheet(file, check),
        input: failed.then_some(Notice::InputFailed),
        question: cut.then_some(Notice::QuestionCut),
        output: (!written).then_some(Notice::LineUnwritten),
    }
}

pub fn tell_all(stderr: Stderr, due: Notices) {
    let in_order = [due.sheet, due.input, due.question, due.output];
    for notice in in_order.into_iter().flatten() {
        system::write_error(stderr, notice.line().as_bytes());
    }
}
