// What others link: the calls of the engine as C functions, on numbers and byte slices. A slice is a pointer and then a length. The parameters, scratch among
// them, stay one by one, since the C interface has them so.
#![tactic(auto)]

ghost use Rattle.std.specs.Prelude.{◌∷◌, ◌≡◌, length};
ghost use Rattle.saiga.specs.Limits.{sheet_limit};
ghost use Rattle.saiga.specs.Ask.{lent, asking, check_call, ask};
ghost use Rattle.saiga.specs.Sheet.{check_sheet};
ghost use Rattle.saiga.specs.Stops.{checked_of};
ghost use Rattle.sheets.specs.Scan.{index_size};
ghost use Rattle.calls.specs.Answers.{answer_of};
ghost use Rattle.calls.specs.Prepared.{PreparedSheet, NotedSheet, PreparedStore};
ghost use Rattle.calls.specs.Verdict.{Indexes};
ghost use Rattle.calls.specs.Askable.{RunScratch};
ghost use Rattle.sofretu.specs.Check.{number_of, place_of, sheet_found, StoreFound};
ghost use Rattle.sofretu.specs.Six.{in_signed, six};
ghost use Rattle.sofretu.specs.Version.{version};

use calls::Answer;
use engine::RUN_SIZE;
use saiga::limits::{SHEET_LIMIT, TALLY_ROWS};
use saiga::stops::Refusal;
use sheets::lookup::{INDEX_SIZE, attribute_count, node_count};
use sheets::{Counts, IndexedSheet};
use stores::LINKS_SIZE;
use values::Declared;

// The version of the library, 0.2.0: major * 10000 + minor * 100 + patch. The C header and the Rust crates have the same number.
#[unsafe(no_mangle)]
pub extern "C" fn sofretu_version() -> u32
    ensures { result ≡ version }
{
    200
}

// What a check comes to, as a number with its place: those of the stop that refuses, or 0 and 0.
#[tactic(auto, unfolding(crate::specs::Check::number_of, crate::specs::Check::place_of))]
fn told(check: Result<(), Refusal>) -> (u32, u64)
    ensures number { result.0 ≡ number_of (checked_of check) }
    ensures place { result.1 ≡ place_of (checked_of check) }
{
    match check {
        Ok(()) => (0, 0),
        Err(refusal) => (refusal.stop.number(), refusal.place as u64),
    }
}

// The check of a call's arguments: 0, or the number of the stop that refuses them, 1 to 13, with its place in `place`. It takes some
// 150 KB of stack.
#[unsafe(no_mangle)]
pub extern "C" fn sofretu_check(
    sheet: &[u8],
    question: &[u8],
    store: &[u8],
    kept: u64,
    budget: u64,
    place: &mut u64,
) -> u32
    ensures value { result ≡ number_of (check_call sheet.now (lent store.now kept) (asking question.now budget)) }
    ensures place_after { place.new ≡ place_of (check_call sheet.now (lent store.now kept) (asking question.now budget)) }
{
    let mut index = [0u16; INDEX_SIZE];
    let mut notes = [0u8; SHEET_LIMIT];
    let mut links = [0u16; LINKS_SIZE];
    let verdict = calls::checks::check(
        sheet,
        question,
        store,
        kept as usize,
        budget as usize,
        &mut index,
        &mut notes,
        &mut links,
    );
    let (number, at) = told(verdict);
    *place = at;
    number
}

// A number of 64 bits as a signed one, in two's complement: of the fields of an answer only a lent kept number can be so large.
fn signed(n: usize) -> i64
    ensures { result ≡ in_signed n }
{
    (n as u64).cast_signed()
}

// An answer as six numbers: number, place, type, value, steps, kept.
fn six(answer: Answer) -> [i64; 6]
    ensures { result ≡ six (answer_of answer) }
{
    match answer {
        Answer::Value { value, steps, kept } => [
            0,
            0,
            i64::from(values::type_code(value)),
            values::decimal(value),
            signed(steps),
            signed(kept),
        ],
        Answer::Refused {
            number,
            place,
            steps,
            kept,
        } => [
            i64::from(number),
            signed(place),
            0,
            0,
            signed(steps),
            signed(kept),
        ],
    }
}

// A question call in lent scratch: nothing is asked of what the scratch holds. Answer and tally are filled whole, under a refusal too.
#[unsafe(no_mangle)]
pub extern "C" fn sofretu_ask_in(
    sheet: &[u8],
    question: &[u8],
    store: &mut [u8],
    kept: u64,
    budget: u64,
    index: &mut [u16; INDEX_SIZE],
    notes: &mut [u8; SHEET_LIMIT],
    links: &mut [u16; LINKS_SIZE],
    memory: &mut [u64; RUN_SIZE],
    answer: &mut [i64; 6],
    tally: &mut [u64; TALLY_ROWS],
)
    ensures answer_after { answer.new ≡ six (ask sheet.now (lent store.old kept) (asking question.now budget)).answer }
    ensures tally_after { tally.new ≡ (ask sheet.now (lent store.old kept) (asking question.now budget)).tally }
    ensures store_after { store.new ≡ (ask sheet.now (lent store.old kept) (asking question.now budget)).store }
    ensures indexes { Indexes sheet.now store.new
        (ask sheet.now (lent store.old kept) (asking question.now budget)).answer.kept index.new notes.new links.new }
    ensures run_scratch { RunScratch (check_call sheet.now (lent store.old kept) (asking question.now budget))
        memory.old memory.new }
{
    let brought = calls::ask(
        sheet,
        question,
        store,
        kept as usize,
        budget as usize,
        index,
        notes,
        links,
        memory,
        tally,
    );
    *answer = six(brought);
}

// A question call. Its scratch takes some 230 KB of stack.
#[unsafe(no_mangle)]
pub extern "C" fn sofretu_ask(
    sheet: &[u8],
    question: &[u8],
    store: &mut [u8],
    kept: u64,
    budget: u64,
    answer: &mut [i64; 6],
    tally: &mut [u64; TALLY_ROWS],
)
    ensures answer_after { answer.new ≡ six (ask sheet.now (lent store.old kept) (asking question.now budget)).answer }
    ensures tally_after { tally.new ≡ (ask sheet.now (lent store.old kept) (asking question.now budget)).tally }
    ensures store_after { store.new ≡ (ask sheet.now (lent store.old kept) (asking question.now budget)).store }
{
    let mut index = [0u16; INDEX_SIZE];
    let mut notes = [0u8; SHEET_LIMIT];
    let mut links = [0u16; LINKS_SIZE];
    let mut memory = [0u64; RUN_SIZE];
    sofretu_ask_in(
        sheet,
        question,
        store,
        kept,
        budget,
        &mut index,
        &mut notes,
        &mut links,
        &mut memory,
        answer,
        tally,
    );
}

// The check of a sheet, which fills its index and its notes: 0, or the number of the stop that refuses it, 1 to 8. `found` has the place, and of an accepted
// sheet the numbers of attributes and nodes.
#[unsafe(no_mangle)]
pub extern "C" fn sofretu_check_sheet(
    sheet: &[u8],
    index: &mut [u16; INDEX_SIZE],
    notes: &mut [u8; SHEET_LIMIT],
    found: &mut [u64; 3],
) -> u32
    ensures found_after { (result ∷ found.new) ≡ sheet_found (check_sheet sheet.now) }
    ensures prepared_sheet { result ≡ 0 → PreparedSheet sheet.now index.new × NotedSheet sheet.now index.new notes.new }
    ensures index_len { (length index.new ≡ index_size) × (length notes.new ≡ sheet_limit) }
{
    match sheets::check(sheet, index, notes) {
        Ok(Counts { attributes, nodes }) => {
            *found = [0, attributes as u64, nodes as u64];
            0
        }
        Err(refusal) => {
            *found = [refusal.place as u64, 0, 0];
            refusal.stop.number()
        }
    }
}

// The check of a store, which fills the store's index: 0, 9 or 10, with the place in `place`. The sheet is one that was accepted, with its index. Of
// other numbers in the index the answer is that for a sheet of as many of these attributes as stand in its first bytes, three to each, and of so
// many nodes.
#[unsafe(no_mangle)]
pub extern "C" fn sofretu_check_store(
    sheet: &[u8],
    index: &[u16; INDEX_SIZE],
    store: &[u8],
    kept: u64,
    links: &mut [u16; LINKS_SIZE],
    place: &mut u64,
) -> u32
    ensures { StoreFound sheet.now index.now store.now kept links.new result place.new }
{
    let declared = Declared {
        sheet,
        attributes: attribute_count(index).min(sheet.len() / 3),
        nodes: node_count(index),
    };
    let (number, entry) = told(stores::check(declared, store, kept as usize, links));
    *place = entry;
    number
}

// A question to a sheet and a store that were checked: index and notes as sofretu_check_sheet left them, links as sofretu_check_store or an earlier call of this
// left them. What it answers and leaves is what sofretu_ask does.
#[unsafe(no_mangle)]
pub extern "C" fn sofretu_ask_checked(
    sheet: &[u8],
    index: &[u16; INDEX_SIZE],
    notes: &[u8; SHEET_LIMIT],
    question: &[u8],
    store: &mut [u8],
    kept: u64,
    budget: u64,
    links: &mut [u16; LINKS_SIZE],
    memory: &mut [u64; RUN_SIZE],
    answer: &mut [i64; 6],
    tally: &mut [u64; TALLY_ROWS],
)
    requires prepared_sheet { PreparedSheet sheet.now index.now × NotedSheet sheet.now index.now notes.now }
    requires prepared_store { PreparedStore sheet.now store.old kept links.old }
    ensures answer_after { answer.new ≡ six (ask sheet.now (lent store.old kept) (asking question.now budget)).answer }
    ensures tally_after { tally.new ≡ (ask sheet.now (lent store.old kept) (asking question.now budget)).tally }
    ensures store_after { store.new ≡ (ask sheet.now (lent store.old kept) (asking question.now budget)).store }
    ensures prepared_after { PreparedStore sheet.now store.new
        (ask sheet.now (lent store.old kept) (asking question.now budget)).answer.kept links.new }
    ensures run_scratch { RunScratch (check_call sheet.now (lent store.old kept) (asking question.now budget))
        memory.old memory.new }
{
    let sheet = IndexedSheet {
        bytes: sheet,
        index,
        notes,
    };
    let brought = calls::ask_checked(
        sheet,
        question,
        store,
        kept as usize,
        budget as usize,
        links,
        memory,
        tally,
    );
    *answer = six(brought);
}
