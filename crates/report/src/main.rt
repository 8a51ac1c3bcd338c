// The report program (document 01): it reads the sheet in sheet.bin, takes questions from standard input and prints a line for each. It tells
// on standard error what went wrong.
#![tactic(auto)]

mod system;
mod telling;

ghost use Rattle.std.specs.Prelude.{true, List, ◌≡◌, ℕ, ◌≤◌, length, Result};
ghost use Rattle.saiga.specs.Limits.{entry_limit, store_limit};
ghost use Rattle.saiga.specs.Ask.{lent, ask as called};
ghost use Rattle.saiga.specs.Calls.{empty};
ghost use Rattle.stores.specs.Keys.{links_size};
ghost use Rattle.calls.specs.Answers.{answer_of};
ghost use Rattle.lines.specs.Lines.{line_of};
ghost use Rattle.report.specs.Printed.{asks, lines};
ghost use Rattle.report.specs.Report.{Prepared, Put, after, view_of, chunk_of, turned, given, Within, Fetched, Ran};
ghost use Rattle.report.specs.Notices.{is_cut, ends_cut, due_after};

use calls::Answer;
use engine::RUN_SIZE;
use lines::{Fields, Line};
use saiga::limits::{BUDGET_LIMIT, SHEET_LIMIT, STORE_LIMIT, TALLY_ROWS};
use saiga::stops::Refusal;
use sheets::lookup::INDEX_SIZE;
use sheets::{Counts, IndexedSheet};
use std::io::{Stderr, Stdin, Stdout};
use stores::LINKS_SIZE;
use stream::Next;
use system::NoSheet;
use telling::Notices;
use values::Declared;

// What the check of a sheet came to. Where it accepts, index and notes are those of the sheet.
#[derive(Clone, Copy)]
struct CheckedSheet<'a> {
    check: Result<Counts, Refusal>,
    sheet: IndexedSheet<'a>,
}

// Where the run stands: the bytes at hand are those of the buffer from `from` to `to`, and the `came` bytes after them were read for the next
// turn; the entries kept; whether the input's end was seen, and whether the last read failed, which counts as that; and whether there is more
// to do.
#[derive(Clone, Copy)]
struct State {
    from: usize,
    to: usize,
    came: usize,
    kept: usize,
    ended: bool,
    failed: bool,
    going: bool,
}

// How a run ended: where it stood, and whether each line was written.
#[derive(Clone, Copy)]
struct Ending {
    state: State,
    written: bool,
}

// The line of an answer takes the place of what is in `line`, which serves the whole run.
#[tactic(auto, unfolding(calls::specs::Answers::answer_of))]
fn line_of(answer: Answer, line: &mut Line)
    ensures { line.new ≡ line_of (answer_of answer) }
{
    let fields = match answer {
        Answer::Value { value, steps, kept } => Fields {
            number: 0,
            place: 0,
            code: u64::from(values::type_code(value)),
            value: values::decimal(value),
            steps: steps as u64,
            kept: kept as u64,
        },
        Answer::Refused {
            number,
            place,
            steps,
            kept,
        } => Fields {
            number: u64::from(number),
            place: place as u64,
            code: 0,
            value: 0,
            steps: steps as u64,
            kept: kept as u64,
        },
    };
    fields.write(line);
}

#[tactic(auto, unfolding(calls::specs::Answers::answer_of))]
fn kept_of(answer: Answer) -> usize
    ensures { result ≡ (answer_of answer).kept }
{
    match answer {
        Answer::Value { kept, .. } | Answer::Refused { kept, .. } => kept,
    }
}

// A question is put to the sheet, with the budget of 1,000,000. A refused sheet has its refusal for each.
fn ask<'a>(
    checked: CheckedSheet<'a>,
    question: &'a [u8],
    store: &mut [u8],
    kept: usize,
    links: &mut [u16],
    memory: &mut [u64; RUN_SIZE],
) -> Answer
    requires { Prepared checked store.old kept links.old }
    ensures { Put checked.entry question.now store.old kept store.new links.new result }
{
    match checked.check {
        Err(refusal) => Answer::refused(refusal, kept),
        Ok(_) => {
            // A line has no tally.
            let mut tally = [0u64; TALLY_ROWS];
            calls::ask_checked(
                checked.sheet,
                question,
                store,
                kept,
                BUDGET_LIMIT,
                links,
                memory,
                &mut tally,
            )
        }
    }
}

// A question is put, and the line of its answer made. It returns the number of entries kept.
fn answer<'a>(
    checked: CheckedSheet<'a>,
    question: &'a [u8],
    store: &mut [u8],
    kept: usize,
    links: &mut [u16],
    memory: &mut [u64; RUN_SIZE],
    line: &mut Line,
) -> usize
    requires { Prepared checked store.old kept links.old }
    ensures prepared_after { Prepared checked.entry store.new result links.new }
    ensures kept_after { lent store.new result ≡ after checked.entry.sheet.bytes.now (lent store.old kept) question.now }
    ensures line { line.new ≡ line_of (called checked.entry.sheet.bytes.now (lent store.old kept) (asks question.now)).answer }
{
    let brought = ask(checked, question, store, kept, links, memory);
    line_of(brought, line);
    kept_of(brought)
}

// Where the bytes at hand are no whole question and the input goes on, more of it is read: they are moved to the front of the buffer, and
// what comes stands after them.
fn fetch(stdin: Stdin, input: &mut [u8], s: State) -> State
    requires within { Within input.old s }
    requires room { 65537 ≤ length input.old }
    ensures { Fetched input.old input.new s result }
{
    match stream::next_item(&input[s.from..s.to], s.ended) {
        Next::More => {
            let held = stream::shift(input, s.from, s.to);
            let read = system::read_input(stdin, input, held);
            let failed = read.is_err();
            State {
                from: 0,
                to: held,
                came: read.unwrap_or(0),
                failed,
                ..s
            }
        }
        _ => s,
    }
}

// One turn, with no call of the system: the next question is answered, or what was read is taken over, or there is no more to do. It leaves in
// `line` the line of its answer, or an empty one.
#[tactic(auto, using(crate::proofs::Turns::turn_laws))]
fn turn<'a>(
    checked: CheckedSheet<'a>,
    input: &'a [u8],
    store: &mut [u8],
    links: &mut [u16],
    memory: &mut [u64; RUN_SIZE],
    line: &mut Line,
    s: State,
) -> State
    requires prepared { Prepared checked store.old s.kept links.old }
    requires within { Within input.now s }
    ensures prepared_after { Prepared checked.entry store.new result.kept links.new }
    ensures within_after { Within input.now result }
    ensures turned { view_of input.now store.new result
        ≡ turned checked.entry.sheet.bytes.now (view_of input.now store.old s) (chunk_of input.now s) }
    ensures line { line.new ≡ lines (given checked.entry.sheet.bytes.now (view_of input.now store.old s)) }
    ensures failed_same { result.failed ≡ s.failed }
{
    line.clear();
    match stream::next_item(&input[s.from..s.to], s.ended) {
        Next::Question(n) => {
            let at = s.from + 2;
            let end = at + n;
            let kept = answer(checked, &input[at..end], store, s.kept, links, memory, line);
            State {
                from: end,
                came: 0,
                kept,
                going: true,
                ..s
            }
        }
        Next::Cut => {
            let kept = answer(checked, &[], store, s.kept, links, memory, line);
            State {
                came: 0,
                kept,
                going: false,
                ..s
            }
        }
        Next::End => State {
            came: 0,
            going: false,
            ..s
        },
        Next::More => State {
            to: s.to + s.came,
            came: 0,
            ended: s.came == 0,
            going: true,
            ..s
        },
    }
}

// Turns until there is no more to do, or a line cannot be written. A proved loop has to end, and nothing says that the input does, so the
// turns are counted up to a number that no run uses up (proofs/Few.antt).
fn run<'a>(
    stdin: Stdin,
    stdout: Stdout,
    checked: CheckedSheet<'a>,
    input: &mut [u8],
    store: &mut [u8],
    links: &mut [u16],
    memory: &mut [u64; RUN_SIZE],
) -> Ending
    requires prepared { Prepared checked store.old 0 links.old }
    requires store_empty { lent store.old 0 ≡ empty entry_limit }
    requires room { 65537 ≤ length input.old }
    ensures ran { Ran checked.entry.sheet.bytes.now (view_of input.new store.new result.state) result.written }
    ensures within { Within input.new result.state }
    ensures failed_ends { result.state.failed ≡ true → result.state.ended ≡ true }
{
    let mut s = State {
        from: 0,
        to: 0,
        came: 0,
        kept: 0,
        ended: false,
        failed: false,
        going: true,
    };
    let mut line = Line::new();
    for _ in 0..u64::MAX {
        if !s.going {
            break;
        }
        s = fetch(stdin, input, s);
        s = turn(checked, input, store, links, memory, &mut line, s);
        if system::write_output(stdout, line.as_bytes()).is_err() {
            return Ending {
                state: s,
                written: false,
            };
        }
    }
    Ending {
        state: s,
        written: true,
    }
}

#[tactic(auto, unfolding(crate::specs::Notices::is_cut))]
fn is_cut(next: Next) -> bool
    ensures { result ≡ is_cut next }
{
    matches!(next, Next::Cut)
}

// Whether a run that is over has ended at a question that is cut.
fn ends_cut(input: &[u8], s: State) -> bool
    requires { Within input.now s }
    ensures { (store : List ℕ) → result ≡ ends_cut (view_of input.now store s) }
{
    !s.going && is_cut(stream::next_item(&input[s.from..s.to], s.ended))
}

// The notices that are due after a run.
fn notices_after(
    file: Result<usize, NoSheet>,
    check: Result<Counts, Refusal>,
    input: &[u8],
    ending: Ending,
) -> Notices
    requires { Within input.now ending.state }
    ensures { (store : List ℕ) →
        result ≡ due_after file check ending.state.failed (ends_cut (view_of input.now store ending.state)) ending.written }
{
    let cut = ends_cut(input, ending.state);
    telling::due(file, check, ending.state.failed, cut, ending.written)
}

// The sheet is checked, and where it is accepted the empty store is indexed.
fn prepare<'a>(
    sheet: &'a [u8],
    index: &'a mut [u16; INDEX_SIZE],
    notes: &'a mut [u8; SHEET_LIMIT],
    store: &[u8],
    links: &mut [u16],
) -> CheckedSheet<'a>
    requires { (length store.now ≡ store_limit) × (length links.old ≡ links_size) }
    ensures bytes { result.sheet.bytes.now ≡ sheet.now }
    ensures prepared { Prepared result store.now 0 links.new }
{
    let check = sheets::check(sheet, index, notes);
    if let Ok(counts) = check {
        let declared = Declared {
            sheet,
            attributes: counts.attributes,
            nodes: counts.nodes,
        };
        // A store of which nothing is kept is accepted.
        let _ = stores::check(declared, store, 0, links);
    }
    CheckedSheet {
        check,
        sheet: IndexedSheet {
            bytes: sheet,
            index,
            notes,
        },
    }
}

// All questions are put to one store of 1,024 entries, which is empty at first. `index` has room for the sheet's, and `notes` for what is noted of
// it. What went wrong is told after the run, so that standard error, whatever becomes of it, cannot change what is printed.
fn answer_all(
    stdin: Stdin,
    stdout: Stdout,
    stderr: Stderr,
    file: Result<usize, NoSheet>,
    sheet: &[u8],
    index: &mut [u16; INDEX_SIZE],
    notes: &mut [u8; SHEET_LIMIT],
) {
    let mut store = [0u8; STORE_LIMIT];
    let mut links = [0u16; LINKS_SIZE];
    let checked = prepare(sheet, index, notes, &store, &mut links);
    let mut input = [0u8; 131072];
    let mut memory = [0u64; RUN_SIZE];
    let ending = run(
        stdin,
        stdout,
        checked,
        &mut input,
        &mut store,
        &mut links,
        &mut memory,
    );
    telling::tell_all(stderr, notices_after(file, checked.check, &input, ending));
}

#[tactic(auto, using(crate::proofs::Sizes::size_fits))]
fn main(rt: HostRuntime) {
    let mut sheet = [0u8; SHEET_LIMIT + 1];
    let file = system::read_sheet(&rt, &mut sheet);
    let n = system::size_of(file);
    let mut index = [0u16; INDEX_SIZE];
    let mut notes = [0u8; SHEET_LIMIT];
    answer_all(
        rt.stdin(),
        rt.stdout(),
        rt.stderr(),
        file,
        &sheet[..n],
        &mut index,
        &mut notes,
    );
}
