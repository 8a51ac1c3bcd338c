// The function layer and the four-byte form of values (document 01, "Values and functions").
#![tactic(auto)]

pub mod packed;

ghost use Rattle.std.specs.Prelude.{◌≡◌, true, ◌+◌, ◌*◌, ◌%◌, ◌≤◌, ◌<◌, ◌+ℤ◌, ◌-ℤ◌, length, take, drop, get_or};
ghost use Rattle.std.proofs.lemmas.List.Edits.{sets};
ghost use Rattle.values.specs.Cells.{emptied};
ghost use Rattle.values.specs.Layout.{result_at, parameter_at, kind_at};
ghost use Rattle.saiga.specs.Limits.{node_limit};
ghost use Rattle.saiga.specs.Values.{base_of, function_of, exact as exact_of, truth as truth_of, number as number_of, node_of, apply_function, apply_holding, apply as applied, of_bytes, to_bytes, signed as signed_of, unsigned as unsigned_of, is_word, of_word, to_word, type_code, decimal as decimal_of};

use saiga::{Base, Function, Holding, NULL, Value};

// Null in its four-byte form.
const NULL_WORD: u32 = NULL as u32;

// A result, if it is an Int.
#[tactic(auto, unfolding(saiga::specs::Values::exact))]
fn exact(z: i64) -> Option<i32>
    ensures { result ≡ exact_of z }
{
    i32::try_from(z).ok()
}

// Add and subtract. No sum or difference of two Ints leaves 64 bits, so the result that is tested is the exact one.
fn add(y: i32, x: i32) -> Option<i32>
    ensures { result ≡ exact_of (y +ℤ x) }
{
    exact(i64::from(y) + i64::from(x))
}

fn subtract(y: i32, x: i32) -> Option<i32>
    ensures { result ≡ exact_of (y -ℤ x) }
{
    exact(i64::from(y) - i64::from(x))
}

#[tactic(auto, unfolding(saiga::specs::Values::truth))]
pub fn truth(v: Value) -> bool
    ensures { result ≡ truth_of v }
{
    matches!(v, Value::Bool(true))
}

#[tactic(auto, unfolding(saiga::specs::Values::number))]
pub fn number(v: Value) -> i32
    ensures { result ≡ number_of v }
{
    match v {
        Value::Int(z) => z,
        _ => 0,
    }
}

#[tactic(auto, unfolding(saiga::specs::Values::node_of))]
pub fn node_of(v: Value) -> u16
    ensures { result ≡ node_of v }
{
    match v {
        Value::Node(n) => n,
        _ => NULL,
    }
}

#[tactic(auto, unfolding(saiga::specs::Values::apply_function))]
fn apply_function(f: Function, x: Value) -> Value
    ensures { result ≡ apply_function f x }
{
    match f {
        Function::Le => Value::Holding(Holding::Le(number(x))),
        Function::EqualInt => Value::Holding(Holding::EqualInt(number(x))),
        Function::EqualNode => Value::Holding(Holding::EqualNode(node_of(x))),
        Function::Not => Value::Bool(!truth(x)),
        Function::Add => Value::Holding(Holding::Add(number(x))),
        Function::Subtract => Value::Holding(Holding::Subtract(number(x))),
    }
}

// What a function answers that holds its first argument. Document 01 fixes that the answers of add and subtract are taken apart by `let .. else`.
#[tactic(auto, using(crate::proofs::Integers::equal_bits), unfolding(saiga::specs::Values::apply_holding, saiga::specs::Values::summed))]
fn apply_holding(h: Holding, x: Value) -> Option<Value>
    ensures { result ≡ apply_holding h x }
{
    match h {
        Holding::Le(y) => Some(Value::Bool(y <= number(x))),
        Holding::EqualInt(y) => Some(Value::Bool(y == number(x))),
        Holding::EqualNode(y) => Some(Value::Bool(y == node_of(x))),
        Holding::Add(y) => {
            let Some(z) = add(y, number(x)) else {
                return None;
            };
            Some(Value::Int(z))
        }
        Holding::Subtract(y) => {
            let Some(z) = subtract(y, number(x)) else {
                return None;
            };
            Some(Value::Int(z))
        }
    }
}

// The function with a code. Any code is read, so there is no error for a TryFrom.
#[tactic(auto, unfolding(saiga::specs::Values::function_of))]
pub fn function_of(code: u32) -> Function
    ensures { result ≡ function_of code }
{
    match code {
        0 => Function::Le,
        1 => Function::EqualInt,
        2 => Function::EqualNode,
        3 => Function::Not,
        4 => Function::Add,
        _ => Function::Subtract,
    }
}

// A function value applied to its argument.
#[tactic(auto, unfolding(saiga::specs::Values::apply))]
pub fn apply(f: Value, x: Value) -> Option<Value>
    ensures { result ≡ applied f x }
{
    match f {
        Value::Function(g) => Some(apply_function(g, x)),
        Value::Holding(h) => apply_holding(h, x),
        _ => Some(Value::Unit),
    }
}

// The Int of an unsigned number of four bytes. Its sign is worked out by arithmetic, with no test, as document 02 fixes it (F-3).
#[tactic(auto, unfolding(saiga::specs::Values::signed))]
pub fn signed(w: u32) -> i32
    ensures { result ≡ signed_of w }
{
    ((w as i64 + 2147483648) % 4294967296 - 2147483648) as i32
}

// The number of an Int.
#[tactic(auto, unfolding(saiga::specs::Values::unsigned))]
pub fn unsigned(z: i32) -> u32
    ensures { result ≡ unsigned_of z }
{
    z.cast_unsigned()
}

// The N bytes at a place as a number, little-endian.
#[tactic(auto, using(crate::proofs::Bytes::number_read))]
pub fn number_at<const N: usize>(s: &[u8], at: usize) -> u32
    requires { (N ≤ 4) × (at + N ≤ length s.now) }
    ensures { result ≡ of_bytes (take N (drop at s.now)) }
{
    let mut word = [0; 4];
    word[..N].copy_from_slice(&s[at..at + N]);
    u32::from_le_bytes(word)
}

// A number's last N bytes, written little-endian.
#[tactic(auto, using(crate::proofs::Bytes::number_written))]
pub fn put_number<const N: usize>(s: &mut [u8], at: usize, n: u32)
    requires { (N ≤ 4) × (at + N ≤ length s.old) }
    ensures { s.new ≡ sets s.old at (to_bytes N n) }
{
    s[at..at + N].copy_from_slice(&n.to_le_bytes()[..N]);
}

// What a cell of an index holds.
pub fn cell_at(index: &[u16], place: usize) -> usize
    requires { place < length index.now }
    ensures { (result ≡ get_or index.now place 0) × (result < 65536) }
{
    usize::from(index[place])
}

// `count` cells of an index from `from` on are emptied.
#[tactic(auto, using(crate::proofs::Cells::cleared))]
pub fn clear(index: &mut [u16], from: usize, count: usize)
    requires { from + count ≤ length index.old }
    ensures { index.new ≡ emptied index.old from count }
{
    index[from..from + count].fill(0);
}

// The codes of attribute a's types: of its result and of its parameter. Two functions, since the byte's number as an argument would say less at each call.
pub fn result_at(sheet: &[u8], a: usize) -> u8
    requires { 3 * a + 3 ≤ length sheet.now }
    ensures { result ≡ result_at sheet.now a }
{
    sheet[3 * a + 1]
}

pub fn parameter_at(sheet: &[u8], a: usize) -> u8
    requires { 3 * a + 3 ≤ length sheet.now }
    ensures { result ≡ parameter_at sheet.now a }
{
    sheet[3 * a + 2]
}

// What a sheet declares: its attributes, whose commands stand at the front of its bytes, and its nodes.
#[derive(Clone, Copy)]
pub struct Declared<'a> {
    pub sheet: &'a [u8],
    pub attributes: usize,
    pub nodes: usize,
    pub ghost within: { 3 * attributes ≤ length sheet.now },
}

impl Declared<'_> {
    pub fn result_at(&self, a: usize) -> u8
        requires { a < self.now.attributes }
        ensures { result ≡ result_at self.now.sheet.now a }
    {
        result_at(self.sheet, a)
    }

    pub fn parameter_at(&self, a: usize) -> u8
        requires { a < self.now.attributes }
        ensures { result ≡ parameter_at self.now.sheet.now a }
    {
        parameter_at(self.sheet, a)
    }
}

// The kind of node n of a sheet with so many attributes.
pub fn kind_at(sheet: &[u8], attributes: usize, n: usize) -> u8
    requires { 3 * attributes + 2 * n + 2 ≤ length sheet.now }
    ensures { result ≡ kind_at sheet.now attributes n }
{
    sheet[3 * attributes + 2 * n + 1]
}

// The base type that a byte names. A byte above 3, which no accepted sheet has for a type, is read as 3; so a TryFrom would have an error that never comes.
#[tactic(auto, unfolding(saiga::specs::Values::base_of))]
pub fn base_of(byte: u8) -> Base
    ensures { result ≡ base_of byte }
{
    match byte {
        0 => Base::Unit,
        1 => Base::Bool,
        2 => Base::Int,
        _ => Base::Node,
    }
}

// Whether a number is the four-byte form of a value of the type with this code. The code is a byte of the sheet, and any byte is read.
#[tactic(auto, unfolding(saiga::specs::Values::is_word))]
pub fn is_word(nodes: usize, code: u8, w: u32) -> bool
    ensures { result ≡ is_word nodes (base_of code) w }
{
    match base_of(code) {
        Base::Unit => w == 0,
        Base::Bool => w < 2,
        Base::Int => true,
        Base::Node => (w as usize) < nodes || w == NULL_WORD,
    }
}

// The value of such a number.
#[tactic(auto, unfolding(saiga::specs::Values::is_word, saiga::specs::Values::of_word))]
pub fn value_of(code: u8, w: u32) -> Value
    requires { is_word node_limit (base_of code) w ≡ true }
    ensures { result ≡ of_word (base_of code) w }
{
    match base_of(code) {
        Base::Unit => Value::Unit,
        Base::Bool => Value::Bool(w == 1),
        Base::Int => Value::Int(signed(w)),
        Base::Node => Value::Node(w as u16),
    }
}

// The four-byte form of a value.
#[tactic(auto, unfolding(saiga::specs::Values::to_word))]
pub fn word_of(v: Value) -> u32
    ensures { result ≡ to_word v }
{
    match v {
        Value::Bool(b) => u32::from(b),
        Value::Int(z) => unsigned(z),
        Value::Node(n) => u32::from(n),
        Value::Unit | Value::Function(_) | Value::Holding(_) => 0,
    }
}

// The code of a value's type, and the value as a number; 4 and 0 of a function, which no answer brings and no entry keeps. They are numbers, since the C
// interface has them in an answer and the store in an entry.
#[tactic(auto, unfolding(saiga::specs::Values::type_code))]
pub fn type_code(v: Value) -> u8
    ensures { result ≡ type_code v }
{
    match v {
        Value::Unit => 0,
        Value::Bool(_) => 1,
        Value::Int(_) => 2,
        Value::Node(_) => 3,
        Value::Function(_) | Value::Holding(_) => 4,
    }
}

#[tactic(auto, unfolding(saiga::specs::Values::decimal))]
pub fn decimal(v: Value) -> i64
    ensures { result ≡ decimal_of v }
{
    match v {
        Value::Bool(b) => i64::from(b),
        Value::Int(z) => i64::from(z),
        Value::Node(n) => i64::from(n),
        Value::Unit | Value::Function(_) | Value::Holding(_) => 0,
    }
}
