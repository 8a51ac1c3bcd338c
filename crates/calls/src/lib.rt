// A question call (document 01, "Contracts"): the sheet, the store with its kept number, the question and the budget in; the answer out, its tally
// (F-2 of document 02), and the store with what the run kept. `ask` checks all of them; `ask_checked` is for a caller who has checked the sheet and indexed the store.
#![tactic(auto)]

pub mod checks;

ghost use Rattle.std.specs.Prelude.{[], ◌≡◌, replicate};
ghost use Rattle.saiga.specs.Limits.{tally_rows};
ghost use Rattle.saiga.specs.declared.Value.TheVariants.{Unit as unit};
ghost use Rattle.saiga.specs.Ask.{lent, asking, refusal, refusal as refused, check_call, ask as called};
ghost use Rattle.saiga.specs.Stops.{stop_number};
ghost use Rattle.stores.specs.Keys.{Linked};
ghost use Rattle.calls.specs.Answers.{answer_of};
ghost use Rattle.engine.specs.Loop.{started};
ghost use Rattle.calls.specs.Prepared.{PreparedSheet, NotedSheet, PreparedStore};
ghost use Rattle.calls.specs.Verdict.{Indexes};
ghost use Rattle.calls.specs.Askable.{Askable, RunScratch};

use engine::{Halt, Limits, RUN_SIZE, Registers};
use saiga::Value;
use saiga::limits::{SHEET_LIMIT, TALLY_ROWS};
use saiga::stops::Refusal;
use sheets::IndexedSheet;
use sheets::lookup::{INDEX_SIZE, attribute_count, node_count};
use stores::LINKS_SIZE;
use values::Declared;

// What a call brings: the value, or the number of the refusal with its place; with the steps and the number kept. Document 01 fixes this enum. A refusal
// has its number here and not its `Stop`: an answer hands on what the definitions' answer has, and `refuse` takes any number, also one of no stop.
#[derive(Clone, Copy)]
pub enum Answer {
    Value {
        value: Value,
        steps: usize,
        kept: usize,
    },
    Refused {
        number: u32,
        place: usize,
        steps: usize,
        kept: usize,
    },
}

// The answer of a call that is refused before its run: no steps, and what was kept stays.
pub fn refuse(number: u32, place: usize, kept: usize) -> Answer
    ensures { answer_of result ≡ (refusal (lent [] kept) number place).answer }
{
    Answer::Refused {
        number,
        place,
        steps: 0,
        kept,
    }
}

impl Answer {
    // The same for what a check refuses with: a stop and its place.
    pub fn refused(refusal: Refusal, kept: usize) -> Answer
        ensures { answer_of result ≡ (refused (lent [] kept) (stop_number refusal.stop) refusal.place).answer }
    {
        refuse(refusal.stop.number(), refusal.place, kept)
    }
}

// No steps, whatever the tally held: what a refusal brings, and what a run begins with.
fn clear(tally: &mut [u64; TALLY_ROWS])
    ensures { tally.new ≡ replicate tally_rows 0 }
{
    tally.fill(0);
}

// The registers before the first byte of a question.
fn begin(question: &[u8], kept: usize) -> Registers
    ensures { result ≡ started question.now kept unit }
{
    Registers {
        returning: false,
        at: 0,
        end: question.len(),
        frames: 0,
        forms: 0,
        kept,
        steps: 0,
        value: Value::Unit,
    }
}

// An accepted question with a permitted budget is put to a checked store, with a tally of zeros. Store, links, memory and tally stay apart here and below:
// a struct of them would add to each contract a clause that each field keeps its reference.
fn put(
    sheet: IndexedSheet,
    question: &[u8],
    store: &mut [u8],
    links: &mut [u16],
    memory: &mut [u64],
    tally: &mut [u64],
    kept: usize,
    budget: usize,
) -> Answer
    requires askable { Askable sheet.bytes.now sheet.index.now sheet.notes.now question.now store.old links.old memory.old kept budget }
    requires tally_empty { tally.old ≡ replicate tally_rows 0 }
    ensures answer { answer_of result ≡ (called sheet.entry.bytes.now (lent store.old kept) (asking question.now budget)).answer }
    ensures tally_after { tally.new ≡ (called sheet.entry.bytes.now (lent store.old kept) (asking question.now budget)).tally }
    ensures store_after { store.new ≡ (called sheet.entry.bytes.now (lent store.old kept) (asking question.now budget)).store }
    ensures linked { Linked store.new (answer_of result).kept links.new }
{
    let first = begin(question, kept);
    let limits = Limits {
        budget,
        pause: budget,
    };
    let end = runs::run(sheet, question, store, links, memory, tally, limits, first);
    let Registers {
        value,
        steps,
        kept,
        ..
    } = end.registers;
    match end.halt {
        Halt::Finishes => Answer::Value { value, steps, kept },
        Halt::Stops(stop) => Answer::Refused {
            number: stop.number(),
            place: 0,
            steps,
            kept,
        },
        // A run that may use its whole budget does not pause (`paused`, proofs/Asking.antt).
        Halt::Waits => unreachable!(),
    }
}

// A question to a sheet that was accepted, indexed and noted, and to a store that was checked and indexed. The answer is that of `ask`. The call costs
// the check of its question and the steps of its run. Afterwards the index of the store holds for the kept number of the answer.
pub fn ask_checked(
    sheet: IndexedSheet,
    question: &[u8],
    store: &mut [u8],
    kept: usize,
    budget: usize,
    links: &mut [u16],
    memory: &mut [u64; RUN_SIZE],
    tally: &mut [u64; TALLY_ROWS],
) -> Answer
    requires prepared_sheet { PreparedSheet sheet.bytes.now sheet.index.now × NotedSheet sheet.bytes.now sheet.index.now sheet.notes.now }
    requires prepared_store { PreparedStore sheet.bytes.now store.old kept links.old }
    ensures answer { answer_of result ≡ (called sheet.entry.bytes.now (lent store.old kept) (asking question.now budget)).answer }
    ensures tally_after { tally.new ≡ (called sheet.entry.bytes.now (lent store.old kept) (asking question.now budget)).tally }
    ensures store_after { store.new ≡ (called sheet.entry.bytes.now (lent store.old kept) (asking question.now budget)).store }
    ensures prepared_after { PreparedStore sheet.entry.bytes.now store.new (answer_of result).kept links.new }
    ensures run_scratch { RunScratch (check_call sheet.entry.bytes.now (lent store.old kept) (asking question.now budget))
        memory.old memory.new }
{
    clear(tally);
    // Slices, whose lengths a contract keeps over calls.
    let rows: &mut [u64] = tally;
    let words: &mut [u64] = memory;
    let declared = Declared {
        sheet: sheet.bytes,
        attributes: attribute_count(sheet.index),
        nodes: node_count(sheet.index),
    };
    match checks::check_question(declared, question, budget) {
        Err(refusal) => Answer::refused(refusal, kept),
        Ok(_) => put(sheet, question, store, links, words, rows, kept, budget),
    }
}

// A question call: the checks, and then the run. `index`, `notes`, `links` and `memory` are scratch; nothing is asked of them, nor of what the tally held.
pub fn ask(
    sheet: &[u8],
    question: &[u8],
    store: &mut [u8],
    kept: usize,
    budget: usize,
    index: &mut [u16; INDEX_SIZE],
    notes: &mut [u8; SHEET_LIMIT],
    links: &mut [u16; LINKS_SIZE],
    memory: &mut [u64; RUN_SIZE],
    tally: &mut [u64; TALLY_ROWS],
) -> Answer
    ensures answer { answer_of result ≡ (called sheet.now (lent store.old kept) (asking question.now budget)).answer }
    ensures tally_after { tally.new ≡ (called sheet.now (lent store.old kept) (asking question.now budget)).tally }
    ensures store_after { store.new ≡ (called sheet.now (lent store.old kept) (asking question.now budget)).store }
    ensures indexes { Indexes sheet.now store.new (answer_of result).kept index.new notes.new links.new }
    ensures run_scratch { RunScratch (check_call sheet.now (lent store.old kept) (asking question.now budget))
        memory.old memory.new }
{
    clear(tally);
    // Slices, whose lengths a contract keeps over calls.
    let rows: &mut [u64] = tally;
    let words: &mut [u64] = memory;
    if let Err(refusal) = checks::check(sheet, question, store, kept, budget, index, notes, links) {
        return Answer::refused(refusal, kept);
    }
    let sheet = IndexedSheet {
        bytes: sheet,
        index,
        notes,
    };
    put(sheet, question, store, links, words, rows, kept, budget)
}
