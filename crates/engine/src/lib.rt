// The evaluator: a machine with explicit frames in lent memory (document 01, "The steps").
#![tactic(auto)]

pub mod frames;

ghost use Rattle.std.specs.Prelude.{List, ◌≡◌, ℕ, ◌+◌, ◌^◌, ◌≤◌, ◌<◌, length, set, OnOk};
ghost use Rattle.saiga.specs.Limits.{attribute_limit, depth_limit};
ghost use Rattle.saiga.specs.Values.{truth, apply};
ghost use Rattle.values.specs.Packed.{value_in};
ghost use Rattle.engine.specs.FrameWords.{right_word, held_function, parameter_word};
ghost use Rattle.expressions.specs.Noted.{WidthOf};
ghost use Rattle.engine.specs.RunningPiece.{piece_in, rest_of};
ghost use Rattle.engine.specs.Steps.{Stepped, goes, returned as returned_to, pushed as pushed_on, answered as answered_by, turned as turned_to, forwarding, this_node, this_parameter, read_next, take_if, within, limited};
ghost use Rattle.engine.specs.CodeSteps.{gated};
ghost use Rattle.engine.specs.Decode.{frame_limit, run_size, words_in, forms_in, opens_in};
ghost use Rattle.engine.specs.Ready.{memory_of, NodeReady, ParameterReady, ReadReady, FrameReady, Rewrites, PassReady, Passes, skipped};

use frames::{ATTRIBUTES, Kind, ON_IF, ON_LEFT, ON_SKIP};
use saiga::Value;
use saiga::limits::{DEPTH_LIMIT, EXPRESSION_LIMIT};
use saiga::stops::Stop;
use stores::{BUCKETS, FAN_OUT};

// The machine's state by value: whether a value is being returned, the rest of the running piece from `at` to `end`, the numbers of
// frames, open forms, kept entries and counted steps, and the value.
// `returning` and `value` are no Option: each function that takes the value of a frame is called with one, and would have to match it out again
// with an arm that is never reached.
#[derive(Clone, Copy)]
pub struct Registers {
    pub returning: bool,
    pub at: usize,
    pub end: usize,
    pub frames: usize,
    pub forms: usize,
    pub kept: usize,
    pub steps: usize,
    pub value: Value,
}

// How far a run may go: the counted steps that it has in all, and the count at which it pauses.
#[derive(Clone, Copy)]
pub struct Limits {
    pub budget: usize,
    pub pause: usize,
}

// Why a run does not go on: a counted step is due at the limit; the value is the run's; or a stop.
#[derive(Clone, Copy)]
pub enum Halt {
    Waits,
    Finishes,
    Stops(Stop),
}

// What a move comes to: registers to go on with, or why the run does not go on.
pub type Step = Result<Registers, Halt>;

// The memory of a run is one array: the words of the frames; behind them four numbers for each form that can be open: its node × 32 + attribute, its
// parameter in four bytes, and where the piece around it goes on and ends; and the index of the open forms, whose cells are followed by a place for each form.
// The C interface lends it as numbers, so a form is no struct. Functions take it as a slice and ask for its length: the length of a lent array is forgotten
// over each call, unless the callee promises it.
const FRAME_LIMIT: usize = (DEPTH_LIMIT + 1) * (EXPRESSION_LIMIT / 2);

pub const OPENS_PLACE: usize = FRAME_LIMIT + 4 * DEPTH_LIMIT;

pub const OPEN_CELLS: usize = BUCKETS + FAN_OUT * DEPTH_LIMIT;

pub const RUN_SIZE: usize = OPENS_PLACE + OPEN_CELLS + DEPTH_LIMIT;

// The rest of the running piece: of the question while no form is open, of the sheet inside a form.
#[tactic(auto, using(crate::proofs::Decoding::piece_laws), unfolding(crate::specs::RunningPiece::rest_of))]
pub fn running<'a>(
    sheet: &'a [u8],
    question: &'a [u8],
    forms: usize,
    at: usize,
    end: usize,
) -> &'a [u8]
    requires { (at ≤ end) × (end ≤ length (piece_in sheet.now question.now forms)) }
    ensures { result.now ≡ rest_of sheet.now question.now forms at end }
{
    if forms == 0 {
        return &question[at..end];
    }
    &sheet[at..end]
}

impl Registers {
    // The registers with a value to return, `w` bytes further.
    fn returned(self, w: usize, value: Value) -> Registers
        requires { self.at + w < 2 ^ 64 }
        ensures { result ≡ returned_to self w value }
    {
        Registers {
            returning: true,
            at: self.at + w,
            value,
            ..self
        }
    }

    // The registers with one frame more, `w` bytes further.
    fn pushed(self, w: usize) -> Registers
        requires { (self.at + w < 2 ^ 64) × (self.frames + 1 < 2 ^ 64) }
        ensures { result ≡ pushed_on self w }
    {
        Registers {
            returning: false,
            at: self.at + w,
            frames: self.frames + 1,
            ..self
        }
    }

    // The registers after a counted step that pops a frame and has a value.
    pub fn answered(self, kept: usize, value: Value) -> Registers
        requires { (1 ≤ self.frames) × (self.steps + 1 < 2 ^ 64) }
        ensures { result ≡ answered_by self kept value }
    {
        Registers {
            returning: true,
            frames: self.frames - 1,
            kept,
            steps: self.steps + 1,
            value,
            ..self
        }
    }

    // The registers evaluating on, with the innermost frame made another.
    fn turned(self) -> Registers
        ensures { result ≡ turned_to self }
    {
        Registers {
            returning: false,
            ..self
        }
    }
}

impl Limits {
    // The limits of a counted step: the budget, and the count at which the run pauses.
    #[tactic(auto, unfolding(crate::specs::Steps::within))]
    pub fn allow(self, m: Registers) -> Result<(), Halt>
        ensures limits { (next : Stepped) → gated result next ≡ within self.budget self.pause m next }
        ensures allowed { OnOk result (m.steps < self.budget) }
    {
        if self.budget <= m.steps {
            return Err(Halt::Stops(Stop::Spent));
        }
        if self.pause <= m.steps {
            return Err(Halt::Waits);
        }
        Ok(())
    }

    // The limits of AttrApp of what is not kept, which needs room for a form: depth comes behind the budget and before the pause.
    #[tactic(auto, unfolding(crate::specs::Steps::within))]
    pub fn allow_form(self, m: Registers) -> Result<(), Halt>
        ensures limits { (next : Stepped) → gated result next ≡ limited self.budget self.pause m next }
        ensures allowed { OnOk result ((m.steps < self.budget) × (m.forms < depth_limit)) }
    {
        if m.steps < self.budget && DEPTH_LIMIT <= m.forms {
            return Err(Halt::Stops(Stop::TooDeep));
        }
        self.allow(m)
    }
}

// 0x30 and 0x31 inside a form: the node and the parameter of the innermost one.
#[tactic(auto, using(crate::proofs::RunMemory::form_reads))]
fn this_node(memory: &[u64], m: Registers) -> Value
    requires { NodeReady memory.now m }
    ensures { result ≡ this_node (forms_in memory.now) m }
{
    let f = frames::form_place(m.forms - 1);
    Value::Node((memory[f] / ATTRIBUTES) as u16)
}

#[tactic(auto, using(crate::proofs::RunMemory::form_reads))]
fn this_parameter(sheet: &[u8], memory: &[u64], m: Registers) -> Value
    requires { ParameterReady sheet.now memory.now m }
    ensures { result ≡ this_parameter sheet.now (forms_in memory.now) m }
{
    let f = frames::form_place(m.forms - 1);
    let a = (memory[f] % ATTRIBUTES) as usize;
    values::value_of(values::parameter_at(sheet, a), memory[f + 1] as u32)
}

// The word of frame i is written. The forms and their index stay as they were.
#[tactic(auto, using(crate::proofs::RunMemory::frame_writes))]
fn put_frame(memory: &mut [u64], i: usize, word: u64)
    requires { (length memory.old ≡ run_size) × (i < frame_limit) }
    ensures written { words_in memory.new ≡ set (words_in memory.old) i word }
    ensures forms_same { forms_in memory.new ≡ forms_in memory.old }
    ensures opens_same { opens_in memory.new ≡ opens_in memory.old }
{
    memory[i] = word;
}

// The registers and the memory with one frame more, `w` bytes further.
fn push(memory: &mut [u64], m: Registers, w: usize, word: u64) -> Registers
    requires { (length memory.old ≡ run_size) × (m.frames < frame_limit) × (m.at + w < 2 ^ 64) }
    ensures value { result ≡ pushed_on m w }
    ensures written { words_in memory.new ≡ set (words_in memory.old) m.frames word }
    ensures forms_same { forms_in memory.new ≡ forms_in memory.old }
    ensures opens_same { opens_in memory.new ≡ opens_in memory.old }
{
    put_frame(memory, m.frames, word);
    m.pushed(w)
}

// A head is read, with its operand. `e` is the rest of the running piece.
#[tactic(auto, using(crate::proofs::HeadsRead::operand_laws))]
pub fn read_head(sheet: &[u8], e: &[u8], memory: &mut [u64], m: Registers) -> Registers
    requires { ReadReady sheet.now e.now memory.old m }
    ensures follows { (index : List ℕ) (store : List ℕ)
        → goes result (memory_of store memory.new)
        ≡ read_next sheet.now index (memory_of store memory.old) m e.now }
    ensures opens_same { opens_in memory.new ≡ opens_in memory.old }
{
    match e[0] {
        0x10 => m.returned(1, Value::Unit),
        0x11 => m.returned(2, Value::Bool(e[1] == 1)),
        0x12 => m.returned(5, Value::Int(values::signed(values::number_at::<4>(e, 1)))),
        0x13 => m.returned(3, Value::Node(values::number_at::<2>(e, 1) as u16)),
        0x14 => m.returned(2, Value::Function(values::function_of(u32::from(e[1])))),
        0x20 => push(memory, m, 1, ON_IF),
        0x21 => push(memory, m, 1, ON_LEFT),
        0x22 => push(memory, m, 2, Kind::Node.word(u64::from(e[1]))),
        0x30 => m.returned(1, this_node(memory, m)),
        _ => m.returned(1, this_parameter(sheet, memory, m)),
    }
}

// ---- A value is given to the innermost frame

// An application's function: its argument comes next.
pub fn take_left(memory: &mut [u64], m: Registers) -> Registers
    requires { FrameReady memory.old m }
    ensures value { result ≡ turned_to m }
    ensures rewrites { Rewrites m memory.old memory.new right_word }
{
    let packed = values::packed::pack(m.value);
    put_frame(memory, m.frames - 1, Kind::Right.word(packed));
    m.turned()
}

// The innermost frame is made one of attribute `a` that holds the value for its node, and waits for the parameter.
fn hold_node(memory: &mut [u64], m: Registers, a: u64)
    requires { FrameReady memory.old m × (a < attribute_limit) }
    ensures { Rewrites m memory.old memory.new (parameter_word a) }
{
    let packed = values::packed::pack(m.value);
    put_frame(memory, m.frames - 1, frames::on_parameter(a, packed));
}

// An attribute's node: the parameter comes next. `a` is the attribute's number.
pub fn take_node(memory: &mut [u64], m: Registers, a: u64) -> Registers
    requires { FrameReady memory.old m × (a < attribute_limit) }
    ensures value { result ≡ turned_to m }
    ensures rewrites { Rewrites m memory.old memory.new (parameter_word a) }
{
    hold_node(memory, m, a);
    m.turned()
}

// A forward's node: the parameter is that of the form on which the frame stands. `a` is the attribute's number.
pub fn take_forward(sheet: &[u8], memory: &mut [u64], m: Registers, a: u64) -> Registers
    requires { FrameReady memory.old m × (a < attribute_limit) × ParameterReady sheet.now memory.old m }
    ensures value { result ≡ returned_to m 0 (this_parameter sheet.now (forms_in memory.old) m) }
    ensures rewrites { Rewrites m memory.old memory.new (parameter_word a) }
{
    let v = this_parameter(sheet, memory, m);
    hold_node(memory, m, a);
    m.returned(0, v)
}

// The registers and the memory with a forward's frame more.
pub fn push_forward(memory: &mut [u64], m: Registers, a: u64) -> Registers
    requires { (length memory.old ≡ run_size) × (m.frames < frame_limit) × (a < attribute_limit) }
    ensures follows { (store : List ℕ) → goes result (memory_of store memory.new) ≡ forwarding a (goes m (memory_of store memory.old)) }
    ensures opens_same { opens_in memory.new ≡ opens_in memory.old }
{
    push(memory, m, 0, Kind::Forward.word(a))
}

// The width of the expression at the front of the rest `e` of the running piece. Inside a form the sheet's check has noted it, less one. The question is
// evaluated once, and what is passed over of it is never passed over again: it is measured.
#[tactic(auto, using(crate::proofs::HeadsRead::skip_inside))]
fn width(notes: &[u8], e: &[u8], m: Registers) -> usize
    requires { PassReady notes.now e.now m }
    ensures of_first { WidthOf e.now result }
    ensures inside { result ≤ length e.now }
{
    if m.forms == 0 {
        return expressions::width(e);
    }
    1 + usize::from(notes[m.at])
}

// The value of the branch that was taken: the other is passed over. `e` is the rest of the running piece.
pub fn take_skip(notes: &[u8], e: &[u8], m: Registers) -> Registers
    requires pass_ready { PassReady notes.now e.now m }
    requires frame_under { (1 ≤ m.frames) × (m.at + length e.now < 2 ^ 64) }
    ensures { Passes e.now (λ skip. result ≡ skipped m skip) }
{
    Registers {
        returning: true,
        at: m.at + width(notes, e, m),
        frames: m.frames - 1,
        ..m
    }
}

// IF: the first branch is evaluated and the second passed over after it, or the first is passed over.
pub fn take_if(notes: &[u8], e: &[u8], memory: &mut [u64], m: Registers) -> Registers
    requires pass_ready { PassReady notes.now e.now m }
    requires frame_ready { FrameReady memory.old m × (m.at + length e.now < 2 ^ 64) × (m.steps + 1 < 2 ^ 64) }
    ensures passes { Passes e.now (λ skip. (store : List ℕ)
        → goes result (memory_of store memory.new) ≡ take_if skip (memory_of store memory.old) m (truth m.value)) }
    ensures opens_same { opens_in memory.new ≡ opens_in memory.old }
{
    let after = Registers {
        returning: false,
        steps: m.steps + 1,
        ..m
    };
    if values::truth(m.value) {
        put_frame(memory, m.frames - 1, ON_SKIP);
        return after;
    }
    Registers {
        at: m.at + width(notes, e, m),
        frames: m.frames - 1,
        ..after
    }
}

// AppApp: the function that the frame's word holds is applied.
pub fn applied(w: u64, x: Value) -> Option<Value>
    ensures { result ≡ apply (value_in (held_function w)) x }
{
    values::apply(values::packed::unpack(frames::function(w)), x)
}
