// A move of the machine, and the run: moves until it ends or a counted step is due at a limit (document 01, "The steps").
// A store goes with its index, and the memory with the tally: a struct of two such slices would owe, in each contract, that its fields keep their
// references, so they stay slices.
#![tactic(auto)]

ghost use Rattle.std.specs.Prelude.{List, ◌≡◌, ℕ, ◌+◌, ◌-◌, ◌^◌, ◌≤◌, ◌<◌, length, get_or};
ghost use Rattle.std.specs.Prelude.{Some as some};
ghost use Rattle.saiga.specs.Limits.{budget_limit};
ghost use Rattle.saiga.specs.Values.{truth, apply};
ghost use Rattle.saiga.specs.Caching.{Counted, Ended};
ghost use Rattle.values.specs.Packed.{value_in};
ghost use Rattle.stores.specs.Keys.{Linked};
ghost use Rattle.engine.specs.Steps.{Memory, take_if, take_right, within};
ghost use Rattle.engine.specs.Decode.{forms_in, opens_in};
ghost use Rattle.engine.specs.Ready.{memory_of, FrameReady, PassReady, Passes};
ghost use Rattle.engine.specs.Loop.{Invariant};
ghost use Rattle.engine.specs.CodeSteps.{stepped_of, Still};
ghost use Rattle.engine.specs.FrameWords.{held_function};
ghost use Rattle.engine.specs.Tallied.{word_row, due_row, rows_after, RowsWithin, Tallied};
ghost use Rattle.opens.specs.Opened.{Opened};
ghost use Rattle.runs.specs.Moves.{MoveReady, GiveReady, GivesTo, StepsTo, Running, RunsTo, TalliesTo};

use engine::frames::Kind;
use engine::{Halt, Limits, Registers, Step};
use saiga::limits::{APPLICATIONS_ROW, CONDITIONS_ROW};
use saiga::stops::Stop;
use sheets::IndexedSheet;

// Why a run leaves off, and the registers then: with a counted step due at the limit, with its value, or with a stop.
#[derive(Clone, Copy)]
pub struct RunEnd {
    pub halt: Halt,
    pub registers: Registers,
}

// IF has its condition: the limits of a counted step, then the step. `e` is the rest of the running piece.
#[tactic(auto, unfolding(engine::specs::CodeSteps::stepped_of))]
fn give_if(notes: &[u8], e: &[u8], memory: &mut [u64], limits: Limits, m: Registers) -> Step
    requires pass_ready { PassReady notes.now e.now m }
    requires frame_ready { FrameReady memory.old m × (m.at + length e.now < 2 ^ 64) }
    ensures passes { Passes e.now (λ skip. (store : List ℕ)
        → stepped_of result (memory_of store memory.new)
        ≡ within limits.budget limits.pause m (take_if skip (memory_of store memory.old) m (truth m.value))) }
    ensures still { (store : List ℕ) → Still result (memory_of store memory.old) (memory_of store memory.new) }
    ensures opens_same { opens_in memory.new ≡ opens_in memory.old }
{
    limits.allow(m)?;
    Ok(engine::take_if(notes, e, memory, m))
}

// An application has its argument: what the function that the frame's word holds gives of it, or overflow; then the limits of a counted step, and
// the step.
#[tactic(auto, unfolding(engine::specs::CodeSteps::stepped_of, engine::specs::Steps::take_right))]
fn give_right(limits: Limits, m: Registers, w: u64) -> Step
    requires { 1 ≤ m.frames }
    ensures { (mem : Memory) → stepped_of result mem
        ≡ take_right limits.budget limits.pause mem m (apply (value_in (held_function w)) m.value) }
{
    let Some(v) = engine::applied(w, m.value) else {
        return Err(Halt::Stops(Stop::Overflow));
    };
    limits.allow(m)?;
    Ok(m.answered(m.kept, v))
}

// A counted step is in its row of the tally, if it was taken: one that waits, or has a stop in its place, is in none.
#[tactic(auto, unfolding(engine::specs::Tallied::rows_after, engine::specs::Tallied::counted_in))]
fn count(tally: &mut [u64], row: usize, r: Step)
    requires { (row < length tally.old) × (get_or tally.old row 0 + 1 < 2 ^ 64) }
    ensures { tally.new ≡ rows_after r (some row) tally.old }
{
    if r.is_ok() {
        tally[row] += 1;
    }
}

// A value is given to the innermost frame.
fn give(
    sheet: IndexedSheet,
    question: &[u8],
    store: &mut [u8],
    links: &mut [u16],
    memory: &mut [u64],
    tally: &mut [u64],
    limits: Limits,
    m: Registers,
) -> Step
    requires give_ready { GiveReady sheet.bytes.now sheet.index.now sheet.notes.now question.now store.old links.old memory.old m }
    requires rows_within { RowsWithin limits.budget tally.old × (limits.budget ≤ budget_limit) }
    ensures gives_to { GivesTo sheet.entry.bytes.now sheet.entry.index.now question.now limits.budget limits.pause
        (memory_of store.old memory.old) (memory_of store.new memory.new) links.new
        (opens_in memory.new) m (get_or memory.old (m.frames - 1) 0) result }
    ensures tally_after { tally.new ≡ rows_after result (word_row (get_or memory.old (m.frames - 1) 0)) tally.old }
{
    let w = memory[m.frames - 1];
    match Kind::of(w) {
        Kind::If => {
            let e = engine::running(sheet.bytes, question, m.forms, m.at, m.end);
            let r = give_if(sheet.notes, e, memory, limits, m);
            count(tally, CONDITIONS_ROW, r);
            r
        }
        Kind::Left => Ok(engine::take_left(memory, m)),
        Kind::Skip => {
            let e = engine::running(sheet.bytes, question, m.forms, m.at, m.end);
            Ok(engine::take_skip(sheet.notes, e, m))
        }
        Kind::Right => {
            let r = give_right(limits, m, w);
            count(tally, APPLICATIONS_ROW, r);
            r
        }
        Kind::Node => Ok(engine::take_node(memory, m, engine::frames::attribute(w))),
        Kind::Parameter => {
            let r = attributes::attribute_due(sheet, store, links, memory, limits, m, w);
            count(tally, engine::frames::attribute(w) as usize, r);
            r
        }
        Kind::Form => Ok(attributes::close_form(store, links, memory, m)),
        Kind::Forward => {
            let a = engine::frames::attribute(w);
            Ok(engine::take_forward(sheet.bytes, memory, m, a))
        }
    }
}

// One move: a head is read, the value is the run's, or it is given to the innermost frame.
pub fn step(
    sheet: IndexedSheet,
    question: &[u8],
    store: &mut [u8],
    links: &mut [u16],
    memory: &mut [u64],
    tally: &mut [u64],
    limits: Limits,
    m: Registers,
) -> Step
    requires move_ready { MoveReady sheet.bytes.now sheet.index.now sheet.notes.now question.now store.old links.old memory.old m × (limits.budget ≤ budget_limit) }
    requires rows_within { RowsWithin limits.budget tally.old }
    ensures steps_to { StepsTo sheet.entry.bytes.now sheet.entry.index.now question.now limits.budget limits.pause
        (memory_of store.old memory.old) (memory_of store.new memory.new) links.new
        (opens_in memory.new) m result }
    ensures tally_after { tally.new ≡ rows_after result (due_row (memory_of store.old memory.old) m) tally.old }
{
    if !m.returning {
        let e = engine::running(sheet.bytes, question, m.forms, m.at, m.end);
        return Ok(engine::read_head(sheet.bytes, e, memory, m));
    }
    if m.frames == 0 {
        return Err(Halt::Finishes);
    }
    give(sheet, question, store, links, memory, tally, limits, m)
}

// The run from the registers `first`. A run that pauses goes on from its registers and its tally, with another limit, as if it had not paused.
#[tactic(auto, unfolding(engine::specs::CodeSteps::kept_after, engine::specs::CodeSteps::forms_after))]
pub fn run(
    sheet: IndexedSheet,
    question: &[u8],
    store: &mut [u8],
    links: &mut [u16],
    memory: &mut [u64],
    tally: &mut [u64],
    limits: Limits,
    first: Registers,
) -> RunEnd
    requires running { Running sheet.bytes.now sheet.index.now sheet.notes.now question.now limits.budget store.old links.old memory.old first }
    requires rows_within { RowsWithin first.steps tally.old }
    ensures ran { (lent : List ℕ) (kept : ℕ) (whole : Ended)
        → Invariant sheet.entry.bytes.now sheet.entry.index.now question.now limits.budget lent kept whole
        (memory_of store.old memory.old) first
        → RunsTo sheet.entry.bytes.now sheet.entry.index.now sheet.entry.notes.now question.now limits.budget limits.pause lent kept whole first.steps
        (memory_of store.new memory.new) result }
    ensures tallies_to { (all : List Counted)
        → Tallied sheet.entry.bytes.now question.now limits.budget all tally.old (memory_of store.old memory.old) first
        → TalliesTo sheet.entry.bytes.now question.now limits.budget all (memory_of store.new memory.new) tally.new result }
    ensures linked { Linked store.new result.registers.kept links.new }
    ensures opened { Opened (forms_in memory.new) (opens_in memory.new) result.registers.forms }
{
    let mut m = first;
    loop {
        match step(sheet, question, store, links, memory, tally, limits, m) {
            Ok(next) => m = next,
            Err(halt) => return RunEnd { halt, registers: m },
        }
    }
}
