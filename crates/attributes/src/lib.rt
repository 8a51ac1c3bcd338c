// AttrApp and CacheWrite (document 01, "The steps"): an attribute's value is taken from the store, from its figure, or from its rule or forward inside
// a form; a form's value is kept.
// A store goes with its index: a struct of the two would owe, in each contract, that its fields keep their references, so they stay two slices.
#![tactic(auto)]

ghost use Rattle.std.specs.Prelude.{List, ◌≡◌, ℕ, ◌+◌, ◌/◌, ◌≤◌, ◌<◌, leb, length};
ghost use Rattle.std.specs.Prelude.{None as none};
ghost use Rattle.saiga.specs.Limits.{entry_width, depth_limit};
ghost use Rattle.saiga.specs.Values.{null, base_of, of_word, to_word, node_of};
ghost use Rattle.values.specs.Layout.{result_at};
ghost use Rattle.sheets.specs.Scan.{PieceHere};
ghost use Rattle.stores.specs.Keys.{Linked, find_key, value_word, fields_for};
ghost use Rattle.stores.specs.Walks.{Free};
ghost use Rattle.values.specs.Packed.{value_in};
ghost use Rattle.engine.specs.Steps.{Memory, goes, answered as answered_by, cache_write, close_form, within, limited, open_piece, open_rule, keeps_figure, rule_due, take_kept, attribute_due};
ghost use Rattle.engine.specs.Decode.{forms_in, opens_in};
ghost use Rattle.engine.specs.Ready.{memory_of, FrameReady};
ghost use Rattle.opens.specs.Opened.{Opened};
ghost use Rattle.engine.specs.CodeSteps.{stepped_of, kept_after, forms_after, Still};
ghost use Rattle.engine.specs.FrameWords.{held_attribute, held_node};
ghost use Rattle.attributes.specs.Due.{WriteReady, CloseReady, StepReady, IndexedPiece, RuleReady, FoundReady, AttributeReady};

use engine::frames::{ATTRIBUTES, ON_FORM};
use engine::{Halt, Limits, Registers, Step};
use saiga::limits::ENTRY_WIDTH;
use saiga::stops::Stop;
use saiga::{NULL, Value};
use sheets::IndexedSheet;
use sheets::lookup::FoundPiece;
use stores::Key;

// Whether a store with so many kept entries has no room for one more.
fn is_full(store: &[u8], kept: usize) -> bool
    ensures { result ≡ leb (length store.now / entry_width) kept }
{
    store.len() / ENTRY_WIDTH <= kept
}

// CacheWrite of an occurrence that is not kept: an entry with its value is appended if the store is not full. `cell` is free for it in the store's
// index. The kept number after it.
#[tactic(auto, unfolding(engine::specs::Steps::cache_write, engine::specs::Steps::unless_found, engine::specs::Steps::appended, stores::specs::Keys::key_in, stores::specs::Keys::fields_for))]
fn keep(
    store: &mut [u8],
    links: &mut [u16],
    kept: usize,
    key: Key,
    value: Value,
    cell: usize,
) -> usize
    requires write_ready { WriteReady store.old links.old kept }
    requires absent { (find_key store.old kept key ≡ none) × Free links.old key cell }
    ensures written { (store.new, result) ≡ cache_write store.old kept (fields_for key value) }
    ensures linked { Linked store.new result links.new }
{
    if is_full(store, kept) {
        return kept;
    }
    stores::append(store, kept, links, key.fields(value), cell);
    kept + 1
}

// CacheWrite where a form closes. Its occurrence is not kept: it was not when the form opened, and no other form of it has opened since. So nothing is
// looked for, and a store with room has the free cell for it in its index; in a full one no cell is looked for.
#[tactic(auto, unfolding(engine::specs::Steps::cache_write))]
fn keep_open(store: &mut [u8], links: &mut [u16], kept: usize, key: Key, value: Value) -> usize
    requires write_ready { WriteReady store.old links.old kept }
    requires absent { find_key store.old kept key ≡ none }
    ensures written { (store.new, result) ≡ cache_write store.old kept (fields_for key value) }
    ensures linked { Linked store.new result links.new }
{
    if is_full(store, kept) {
        return kept;
    }
    let cell = stores::free_cell(links, key);
    keep(store, links, kept, key, value, cell)
}

// The value that a form waited for is kept, and given to the frame around it.
#[tactic(auto, unfolding(engine::specs::Steps::close_form))]
pub fn close_form(store: &mut [u8], links: &mut [u16], memory: &[u64], m: Registers) -> Registers
    requires { CloseReady store.old links.old memory.now m }
    ensures follows { goes result (memory_of store.new memory.now) ≡ close_form (memory_of store.old memory.now) m }
    ensures linked { Linked store.new result.kept links.new }
{
    let f = engine::frames::form_place(m.forms - 1);
    let pair = memory[f];
    let key = Key {
        node: (pair / ATTRIBUTES) as u16,
        attribute: (pair % ATTRIBUTES) as u8,
        word: memory[f + 1] as u32,
    };
    let kept = keep_open(store, links, m.kept, key, m.value);
    Registers {
        returning: true,
        at: memory[f + 2] as usize,
        end: memory[f + 3] as usize,
        frames: m.frames - 1,
        forms: m.forms - 1,
        kept,
        ..m
    }
}

// The piece whose length stands at `number` runs inside a form, and the form's words say where the piece around it goes on.
fn open_piece(
    sheet: IndexedSheet,
    memory: &mut [u64],
    m: Registers,
    key: Key,
    number: usize,
) -> Registers
    requires { PieceHere sheet.bytes.now number × StepReady memory.old m × (m.forms < depth_limit) }
    ensures follows { (store : List ℕ) → goes result (memory_of store memory.new)
        ≡ open_piece sheet.entry.bytes.now (memory_of store memory.old) m key.node key.attribute key.word number }
    ensures numbers { (result.frames ≡ m.frames) × (result.forms ≡ m.forms + 1) × (result.kept ≡ m.kept) }
    ensures opens_same { opens_in memory.new ≡ opens_in memory.old }
{
    let piece = sheet.piece(number);
    let start = number + 2;
    let f = engine::frames::form_place(m.forms);
    memory[f] = key.node as u64 * ATTRIBUTES + key.attribute as u64;
    memory[f + 1] = key.word as u64;
    memory[f + 2] = m.at as u64;
    memory[f + 3] = m.end as u64;
    let top = m.frames - 1;
    memory[top] = ON_FORM;
    Registers {
        returning: false,
        at: start,
        end: start + piece.len(),
        forms: m.forms + 1,
        steps: m.steps + 1,
        ..m
    }
}

// AttrApp by a rule, or else by a forward, whose frame stands on the form.
#[tactic(auto, unfolding(engine::specs::Steps::open_rule))]
fn open_rule(sheet: IndexedSheet, memory: &mut [u64], m: Registers, key: Key) -> Registers
    requires { RuleReady sheet.bytes.now sheet.index.now memory.old m key.node key.attribute }
    ensures follows { (store : List ℕ) → goes result (memory_of store memory.new)
        ≡ open_rule sheet.entry.bytes.now sheet.entry.index.now (memory_of store memory.old) m key.node key.attribute key.word }
    ensures numbers { (result.forms ≡ m.forms + 1) × (result.kept ≡ m.kept) }
    ensures opens_same { opens_in memory.new ≡ opens_in memory.old }
{
    match sheet.found_piece(key.node as usize, key.attribute as usize) {
        FoundPiece::OfRule(number) => open_piece(sheet, memory, m, key, number),
        FoundPiece::OfForward(number) => {
            let next = open_piece(sheet, memory, m, key, number);
            engine::push_forward(memory, next, key.attribute as u64)
        }
    }
}

// AttrApp of an occurrence that has a figure and is not kept: the limits, then the figure, which is kept at once in the free cell of the store's index. It
// needs room for a form, though none stays open.
#[tactic(auto, unfolding(engine::specs::CodeSteps::stepped_of, engine::specs::CodeSteps::kept_after, engine::specs::CodeSteps::forms_after))]
fn take_figure(
    store: &mut [u8],
    links: &mut [u16],
    limits: Limits,
    m: Registers,
    key: Key,
    cell: usize,
    v: Value,
) -> Step
    requires write_ready { WriteReady store.old links.old m.kept × (1 ≤ m.frames) }
    requires absent { (find_key store.old m.kept key ≡ none) × Free links.old key cell }
    ensures follows { (run : List ℕ) → stepped_of result (memory_of store.new run)
        ≡ limited limits.budget limits.pause m (keeps_figure (memory_of store.old run) m key.node key.attribute key.word v) }
    ensures linked { Linked store.new (kept_after result m) links.new }
    ensures forms_same { forms_after result m ≡ m.forms }
    ensures still { (run : List ℕ) → Still result (memory_of store.old run) (memory_of store.new run) }
{
    limits.allow_form(m)?;
    let kept = keep(store, links, m.kept, key, v, cell);
    Ok(m.answered(kept, v))
}

// AttrApp of an occurrence that has no figure and is not kept: a circle, the limits, then the rule or the forward, whose form is put into its free place in
// the index of the open forms.
#[tactic(auto, unfolding(engine::specs::CodeSteps::stepped_of, engine::specs::CodeSteps::kept_after, engine::specs::CodeSteps::forms_after))]
fn take_rule(
    sheet: IndexedSheet,
    memory: &mut [u64],
    limits: Limits,
    m: Registers,
    key: Key,
) -> Step
    requires indexed { IndexedPiece sheet.bytes.now sheet.index.now key.node key.attribute }
    requires frame_ready { FrameReady memory.old m × Opened (forms_in memory.old) (opens_in memory.old) m.forms }
    ensures follows { (store : List ℕ) → stepped_of result (memory_of store memory.new)
        ≡ rule_due sheet.entry.bytes.now sheet.entry.index.now limits.budget limits.pause (memory_of store memory.old) m
        key.node key.attribute key.word }
    ensures kept_same { kept_after result m ≡ m.kept }
    ensures opened { Opened (forms_in memory.new) (opens_in memory.new) (forms_after result m) }
    ensures still { (store : List ℕ) → Still result (memory_of store memory.old) (memory_of store memory.new) }
{
    let Err(place) = opens::find(memory, m.forms, key) else {
        return Err(Halt::Stops(Stop::Circle));
    };
    limits.allow_form(m)?;
    let next = open_rule(sheet, memory, m, key);
    opens::plant(memory, m.forms, place);
    Ok(next)
}

// AttrApp of an occurrence that is not kept: its figure, or its rule or forward. A figure's form is never open, so a figure is no circle.
#[tactic(auto, unfolding(engine::specs::Steps::take_kept, engine::specs::Steps::open_figure))]
fn take_missing(
    sheet: IndexedSheet,
    store: &mut [u8],
    links: &mut [u16],
    memory: &mut [u64],
    limits: Limits,
    m: Registers,
    key: Key,
    cell: usize,
) -> Step
    requires word { key.word ≡ to_word m.value }
    requires absent { (find_key store.old m.kept key ≡ none) × Free links.old key cell }
    requires attribute_ready { AttributeReady sheet.bytes.now sheet.index.now store.old links.old memory.old m key.node key.attribute }
    ensures follows { stepped_of result (memory_of store.new memory.new)
        ≡ take_kept sheet.entry.bytes.now sheet.entry.index.now limits.budget limits.pause (memory_of store.old memory.old) m
        key.node key.attribute none }
    ensures linked { Linked store.new (kept_after result m) links.new }
    ensures opened { Opened (forms_in memory.new) (opens_in memory.new) (forms_after result m) }
    ensures still { Still result (memory_of store.old memory.old) (memory_of store.new memory.new) }
{
    match sheet.figure(key.node as usize, key.attribute as usize) {
        Some(v) => take_figure(store, links, limits, m, key, cell, v),
        None => take_rule(sheet, memory, limits, m, key),
    }
}

// AttrApp of an occurrence that is kept, in entry j: the limits of a counted step, then the value. `a` is the attribute's number.
#[tactic(auto, unfolding(engine::specs::CodeSteps::stepped_of, engine::specs::CodeSteps::kept_after, engine::specs::CodeSteps::forms_after))]
fn take_found(sheet: &[u8], store: &[u8], limits: Limits, m: Registers, a: usize, j: usize) -> Step
    requires { FoundReady sheet.now store.now m a j }
    ensures follows { (mem : Memory) → stepped_of result mem ≡ within limits.budget limits.pause m
        (goes (answered_by m m.kept (of_word (base_of (result_at sheet.now a)) (value_word store.now j))) mem) }
    ensures numbers_same { (kept_after result m ≡ m.kept) × (forms_after result m ≡ m.forms) }
{
    limits.allow(m)?;
    let v = values::value_of(values::result_at(sheet, a), stores::value_word(store, j));
    Ok(m.answered(m.kept, v))
}

// AttrApp: a kept value before the definition.
#[tactic(auto, unfolding(engine::specs::Steps::take_kept))]
fn take_attribute(
    sheet: IndexedSheet,
    store: &mut [u8],
    links: &mut [u16],
    memory: &mut [u64],
    limits: Limits,
    m: Registers,
    key: Key,
) -> Step
    requires word { key.word ≡ to_word m.value }
    requires attribute_ready { AttributeReady sheet.bytes.now sheet.index.now store.old links.old memory.old m key.node key.attribute }
    ensures follows { stepped_of result (memory_of store.new memory.new)
        ≡ take_kept sheet.entry.bytes.now sheet.entry.index.now limits.budget limits.pause (memory_of store.old memory.old) m
        key.node key.attribute (find_key store.old m.kept key) }
    ensures linked { Linked store.new (kept_after result m) links.new }
    ensures opened { Opened (forms_in memory.new) (opens_in memory.new) (forms_after result m) }
    ensures still { Still result (memory_of store.old memory.old) (memory_of store.new memory.new) }
{
    match stores::find(store, m.kept, links, key) {
        Ok(j) => take_found(sheet.bytes, store, limits, m, key.attribute as usize, j),
        Err(cell) => take_missing(sheet, store, links, memory, limits, m, key, cell),
    }
}

// AttrApp is due with the node and the attribute that the frame's word holds: null, then what the store has of it.
#[tactic(auto, unfolding(engine::specs::CodeSteps::stepped_of, engine::specs::CodeSteps::kept_after, engine::specs::CodeSteps::forms_after, engine::specs::Steps::attribute_due))]
pub fn attribute_due(
    sheet: IndexedSheet,
    store: &mut [u8],
    links: &mut [u16],
    memory: &mut [u64],
    limits: Limits,
    m: Registers,
    w: u64,
) -> Step
    requires linked { Linked store.old m.kept links.old × Opened (forms_in memory.old) (opens_in memory.old) m.forms }
    requires attribute_ready { (node_of (value_in (held_node w)) ≡ null → ⊥)
        → AttributeReady sheet.bytes.now sheet.index.now store.old links.old memory.old m (node_of (value_in (held_node w))) (held_attribute w) }
    ensures follows { stepped_of result (memory_of store.new memory.new)
        ≡ attribute_due sheet.entry.bytes.now sheet.entry.index.now limits.budget limits.pause (memory_of store.old memory.old) m
        (node_of (value_in (held_node w))) (held_attribute w) }
    ensures linked_after { Linked store.new (kept_after result m) links.new }
    ensures opened { Opened (forms_in memory.new) (opens_in memory.new) (forms_after result m) }
    ensures still { Still result (memory_of store.old memory.old) (memory_of store.new memory.new) }
{
    let node = values::node_of(values::packed::unpack(engine::frames::node(w)));
    if node == NULL {
        return Err(Halt::Stops(Stop::OnNull));
    }
    let key = Key {
        node,
        attribute: engine::frames::attribute(w) as u8,
        word: values::word_of(m.value),
    };
    take_attribute(sheet, store, links, memory, limits, m, key)
}
