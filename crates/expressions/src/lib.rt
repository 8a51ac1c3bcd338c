// The form and the type of expressions (document 01, "The sheet"), read in one recursion over the bytes; and the width of the expression at the
// front of bytes that are known to have one.
// A reader is lent `notes`, in which `at` is the place of the first byte that it reads: at the place of each expression's first byte it leaves the
// expression's width less one (specs/Noted.antt).
#![tactic(auto)]

pub mod numbers;
pub mod types;

ghost use Rattle.std.specs.Prelude.{◌≡◌, List, ℕ, ◌+◌, ◌*◌, ◌/◌, ◌%◌, ◌≤◌, ◌<◌, false, IfSome, length, drop, Some as some};
ghost use Rattle.saiga.specs.Limits.{expression_limit};
ghost use Rattle.saiga.specs.declared.Base.{Base};
ghost use Rattle.saiga.specs.Values.{base_of};
ghost use Rattle.saiga.specs.Expressions.{Scope as ScopeOf, Expr, operand_width, base_literal, function_literal, if_head, application_head, attribute_head, head_of, reads, read_expr, read_whole};
ghost use Rattle.saiga.specs.Types.{Attribute};
ghost use Rattle.saiga.specs.Sheet.{Sheet, node_count};
ghost use Rattle.saiga.specs.Stops.{checked_of};
ghost use Rattle.saiga.specs.Ask.{check_question};
ghost use Rattle.expressions.specs.Forms.{scope_in, attributes_of, parameter_type, form_of, form_after, shown_form, formed_of, shown, question_of};
ghost use Rattle.expressions.specs.Noted.{Notes, NotesInside, NotesBehind, NotesWhole};
ghost use Rattle.expressions.specs.Widths.{Starts, shape_of};
ghost use Rattle.values.specs.Layout.{attributes_in};

use saiga::Base;
use saiga::limits::EXPRESSION_LIMIT;
use saiga::stops::{Refusal, Stop};
use types::Type;
use values::Declared;

// The question for an attribute of a node is shorter than this.
const SHORT_QUESTION: usize = 16;

// Where an expression stands: what the sheet declares, whether 0x30 may be used there, and the type of 0x31, if that may be used.
#[derive(Clone, Copy)]
pub struct Scope<'a> {
    pub declared: Declared<'a>,
    pub this: bool,
    pub parameter: Option<Base>,
}

// What is read at the front of some bytes: how many of them the expression takes, and its type, if it has one.
#[derive(Clone, Copy)]
pub struct Form {
    pub width: usize,
    pub ty: Option<Type>,
}

// ---- The readers: how far their bytes and the notes reach is asked of each, since it changes with each part that is handed on

// The operand of a base literal, of N bytes, by the code of its type. The bytes l are those after the head, here and below.
#[tactic(auto, using(crate::proofs::Literals::operand_laws))]
fn read_literal<const N: usize>(nodes: usize, code: u8, l: &[u8]) -> Option<Form>
    requires { operand_width (base_of code) ≡ N }
    ensures { (s : ScopeOf) (sig : List Attribute) (p : Base) (k : ℕ) → s.nodes ≡ nodes
        → shown_form result ≡ form_after s sig p k (base_literal (base_of code)) l.now }
{
    if l.len() < N || !values::is_word(nodes, code, values::number_at::<N>(l, 0)) {
        return None;
    }
    Some(Form {
        width: 1 + N,
        ty: Some(types::base_type(code)),
    })
}

// The operand of a function: its code.
#[tactic(auto, using(crate::proofs::Literals::operand_laws))]
fn read_function(l: &[u8]) -> Option<Form>
    ensures { (s : ScopeOf) (sig : List Attribute) (p : Base) (k : ℕ)
        → shown_form result ≡ form_after s sig p k function_literal l.now }
{
    let f = *l.first()?;
    if f < 6 {
        Some(Form {
            width: 2,
            ty: Some(types::function_type(f)),
        })
    } else {
        None
    }
}

// The three expressions of an IF.
#[cycle(reading)]
fn read_if(scope: &Scope, l: &[u8], notes: &mut [u8], at: usize) -> Option<Form>
    requires { (length l.now ≤ expression_limit) × (at + length l.now ≤ length notes.old) }
    ensures formed { (k : ℕ) → length l.now ≤ k
        → shown_form result ≡ form_after (scope_in scope.now) (attributes_of scope.now) (parameter_type scope.now.parameter) k if_head l.now }
    ensures notes_inside { NotesInside 1 l.now at notes.old notes.new result }
{
    let c = read(scope, l, notes, at)?;
    let t = read(scope, &l[c.width..], notes, at + c.width)?;
    let both = c.width + t.width;
    let e = read(scope, &l[both..], notes, at + both)?;
    Some(Form {
        width: 1 + both + e.width,
        ty: types::if_type(c.ty, t.ty, e.ty),
    })
}

// The two expressions of an application.
#[cycle(reading)]
fn read_application(scope: &Scope, l: &[u8], notes: &mut [u8], at: usize) -> Option<Form>
    requires { (length l.now ≤ expression_limit) × (at + length l.now ≤ length notes.old) }
    ensures formed { (k : ℕ) → length l.now ≤ k
        → shown_form result ≡ form_after (scope_in scope.now) (attributes_of scope.now) (parameter_type scope.now.parameter) k application_head l.now }
    ensures notes_inside { NotesInside 1 l.now at notes.old notes.new result }
{
    let f = read(scope, l, notes, at)?;
    let x = read(scope, &l[f.width..], notes, at + f.width)?;
    Some(Form {
        width: 1 + f.width + x.width,
        ty: types::application_type(f.ty, x.ty),
    })
}

// The attribute's number, and the expressions of the node and the parameter.
#[cycle(reading)]
fn read_attribute(scope: &Scope, l: &[u8], notes: &mut [u8], at: usize) -> Option<Form>
    requires { (length l.now ≤ expression_limit) × (at + length l.now ≤ length notes.old) }
    ensures formed { (k : ℕ) → length l.now ≤ k
        → shown_form result ≡ form_after (scope_in scope.now) (attributes_of scope.now) (parameter_type scope.now.parameter) k attribute_head l.now }
    ensures notes_inside { NotesInside 2 (drop 1 l.now) (at + 1) notes.old notes.new result }
{
    let (a, rest) = l.split_first()?;
    let a = *a as usize;
    if scope.declared.attributes <= a {
        return None;
    }
    let n = read(scope, rest, notes, at + 1)?;
    let x = read(scope, &rest[n.width..], notes, at + 1 + n.width)?;
    Some(Form {
        width: 2 + n.width + x.width,
        ty: types::attribute_type(&scope.declared, a, n.ty, x.ty),
    })
}

// The expression at the front of e, by its head.
#[cycle(reading)]
fn read_by_head(scope: &Scope, e: &[u8], notes: &mut [u8], at: usize) -> Option<Form>
    requires { (length e.now ≤ expression_limit) × (at + length e.now ≤ length notes.old) }
    ensures formed { (k : ℕ) → length e.now ≤ k
        → shown_form result ≡ form_of (attributes_of scope.now) (parameter_type scope.now.parameter) (read_expr (scope_in scope.now) k e.now) }
    ensures notes_behind { NotesBehind e.now at notes.old notes.new result }
{
    let (head, l) = e.split_first()?;
    match *head {
        0x10 => read_literal::<0>(scope.declared.nodes, 0, l),
        0x11 => read_literal::<1>(scope.declared.nodes, 1, l),
        0x12 => read_literal::<4>(scope.declared.nodes, 2, l),
        0x13 => read_literal::<2>(scope.declared.nodes, 3, l),
        0x14 => read_function(l),
        0x20 => read_if(scope, l, notes, at + 1),
        0x21 => read_application(scope, l, notes, at + 1),
        0x22 => read_attribute(scope, l, notes, at + 1),
        0x30 => {
            if scope.this {
                Some(Form {
                    width: 1,
                    ty: Some(Type::Node),
                })
            } else {
                None
            }
        }
        0x31 => {
            let p = scope.parameter?;
            Some(Form {
                width: 1,
                ty: Some(Type::from(p)),
            })
        }
        _ => None,
    }
}

// The expression at the front of e, with its width noted.
#[cycle(reading)]
fn read(scope: &Scope, e: &[u8], notes: &mut [u8], at: usize) -> Option<Form>
    requires { (length e.now ≤ expression_limit) × (at + length e.now ≤ length notes.old) }
    ensures formed { (k : ℕ) → length e.now ≤ k
        → shown_form result ≡ form_of (attributes_of scope.now) (parameter_type scope.now.parameter) (read_expr (scope_in scope.now) k e.now) }
    ensures taken { IfSome result (λ f. (1 ≤ f.width) × (f.width ≤ length e.now)) }
    ensures notes { Notes e.now at notes.old notes.new result }
{
    let form = read_by_head(scope, e, notes, at)?;
    notes[at] = (form.width - 1) as u8;
    Some(form)
}

// The bytes as a whole: an expression of exactly their length, which is 1 to 256, and its type, if it has one.
pub fn read_whole(scope: &Scope, e: &[u8], notes: &mut [u8], at: usize) -> Option<Option<Type>>
    requires { length e.now ≤ expression_limit → at + length e.now ≤ length notes.old }
    ensures value { shown result ≡ formed_of (attributes_of scope.now) (parameter_type scope.now.parameter)
        (read_whole (scope_in scope.now) e.now) }
    ensures notes_whole { NotesWhole e.now at notes.old notes.new result }
{
    if EXPRESSION_LIMIT < e.len() {
        return None;
    }
    let form = read(scope, e, notes, at)?;
    if form.width == e.len() {
        Some(form.ty)
    } else {
        None
    }
}

// A question: an expression of a base type, with neither 0x30 nor 0x31.
#[inline(always)]
fn question_noted(declared: Declared, question: &[u8], notes: &mut [u8]) -> Result<Base, Refusal>
    requires { length question.now ≤ expression_limit → length question.now ≤ length notes.old }
    ensures { (s : Sheet) → s.attributes ≡ attributes_in declared.entry.sheet.now declared.entry.attributes → node_count s ≡ declared.entry.nodes
        → checked_of result ≡ question_of s.attributes (check_question s question.now) }
{
    let scope = Scope {
        declared,
        this: false,
        parameter: None,
    };
    let Some(ty) = read_whole(&scope, question, notes, 0) else {
        return Err(Stop::NoQuestion.at(0));
    };
    types::base_in(ty).ok_or(Stop::QuestionType.at(0))
}

// The check of a question. What is noted of it is forgotten, since its bytes are evaluated once in a call. For a short one little is cleared. It becomes a
// part of its caller, so that the small structs that go in and out are not copied by way of memory.
#[inline(always)]
pub fn check_question(declared: Declared, question: &[u8]) -> Result<Base, Refusal>
    ensures { (s : Sheet) → s.attributes ≡ attributes_in declared.entry.sheet.now declared.entry.attributes → node_count s ≡ declared.entry.nodes
        → checked_of result ≡ question_of s.attributes (check_question s question.now) }
{
    if question.len() <= SHORT_QUESTION {
        let mut notes = [0u8; SHORT_QUESTION];
        return question_noted(declared, question, &mut notes);
    }
    let mut notes = [0u8; EXPRESSION_LIMIT];
    question_noted(declared, question, &mut notes)
}

// ---- The width of an expression

// How many bytes a head takes with its operand, and how many expressions follow it.
#[tactic(auto, unfolding(crate::specs::Widths::shape_of, saiga::specs::Expressions::head_of))]
fn head_shape(head: u8) -> (usize, usize)
    ensures { (result.0 ≡ shape_of (head_of head) % 8) × (result.1 ≡ shape_of (head_of head) / 8) }
{
    match head {
        0x11 => (2, 0),
        0x12 => (5, 0),
        0x13 => (3, 0),
        0x14 => (2, 0),
        0x20 => (1, 3),
        0x21 => (1, 2),
        0x22 => (2, 2),
        _ => (1, 0),
    }
}

// The width of the expression at the front, in any scope in which there is one.
pub fn width(e: &[u8]) -> usize
    requires { Starts e.now }
    ensures { (sc : ScopeOf) (f : Expr) (w : ℕ) → read_expr sc (length e.now) e.now ≡ reads f w → result ≡ w }
{
    let mut left = 1;
    let mut at = 0;
    while 0 < left {
        let (bytes, parts) = head_shape(e[at]);
        at += bytes;
        left = left - 1 + parts;
    }
    at
}
