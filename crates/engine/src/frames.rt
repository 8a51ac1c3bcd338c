// A frame in a word: its kind, and eight times what it holds (specs/FrameWords.antt); and the place of an open form.
ghost use Rattle.std.specs.Prelude.{◌≡◌, ◌+◌, ◌*◌, ◌^◌, ◌<◌};
ghost use Rattle.saiga.specs.Limits.{attribute_limit, depth_limit};
ghost use Rattle.values.specs.Packed.{packed_limit};
ghost use Rattle.engine.specs.FrameWords.{kind_number, kind_of, held_function, held_attribute, parameter_word, held_node};
ghost use Rattle.engine.specs.Decode.{form_place};

use saiga::limits::ATTRIBUTE_LIMIT;

// What a frame waits for: IF its condition; an application its function; IF that has taken its first branch, to pass over the second; an
// application its argument; an attribute its node, and its parameter; a form its value; a forward its node.
#[derive(Clone, Copy)]
pub enum Kind {
    If,
    Left,
    Skip,
    Right,
    Node,
    Parameter,
    Form,
    Forward,
}

// The words of the frames that hold nothing.
pub const ON_IF: u64 = Kind::If as u64;

pub const ON_LEFT: u64 = Kind::Left as u64;

pub const ON_SKIP: u64 = Kind::Skip as u64;

pub const ON_FORM: u64 = Kind::Form as u64;

// As many attributes as there can be: by so much a node stands higher in a word than an attribute.
pub const ATTRIBUTES: u64 = ATTRIBUTE_LIMIT as u64;

const NODE_AT: u64 = 8 * ATTRIBUTES;

impl Kind {
    // The kind of the frame in a word. Every word has one, so there is no error for a TryFrom.
    pub fn of(w: u64) -> Kind
        ensures { kind_number result ≡ kind_of w }
    {
        match w % 8 {
            0 => Kind::If,
            1 => Kind::Left,
            2 => Kind::Skip,
            3 => Kind::Right,
            4 => Kind::Node,
            5 => Kind::Parameter,
            6 => Kind::Form,
            _ => Kind::Forward,
        }
    }

    // The word of a frame of this kind that holds a number: the function of an application, packed, or the number of an attribute.
    pub fn word(self, held: u64) -> u64
        requires { held < 2 ^ 60 }
        ensures { result ≡ kind_number self + 8 * held }
    {
        self as u64 + 8 * held
    }
}

// The function that an application holds, packed.
pub fn function(w: u64) -> u64
    ensures { result ≡ held_function w }
{
    w / 8 % values::packed::LIMIT
}

// The number of an attribute.
pub fn attribute(w: u64) -> u64
    ensures { (result ≡ held_attribute w) × (result < attribute_limit) }
{
    w / 8 % ATTRIBUTES
}

// The number of an attribute and its node, packed.
pub fn on_parameter(a: u64, packed: u64) -> u64
    requires { (a < attribute_limit) × (packed < packed_limit) }
    ensures { result ≡ parameter_word a packed }
{
    Kind::Parameter.word(a + ATTRIBUTES * packed)
}

pub fn node(w: u64) -> u64
    ensures { result ≡ held_node w }
{
    w / NODE_AT % values::packed::LIMIT
}

// Where the four numbers of form i begin. The outermost form is form 0.
pub fn form_place(i: usize) -> usize
    requires { i < depth_limit }
    ensures { result ≡ form_place i }
{
    crate::FRAME_LIMIT + 4 * i
}
