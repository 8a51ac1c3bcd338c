// The line that the report program prints of an answer (document 01: "It prints number, place, type, value, steps, kept"), and the parts of
// other lines: text and numbers.
#![tactic(auto)]

ghost use Rattle.std.specs.Prelude.{[], ◌∷◌, ◌++◌, ◌≡◌, ◌+◌, ◌≤◌, length};
ghost use Rattle.lines.specs.Lines.{decimal, signed_decimal, line_of};

use itoa::Buffer;
use std::marker::Model;

// A line of at most 128 bytes.
#[derive(Drop)]
pub struct Line {
    bytes: [u8; 128],
    len: usize,
}

impl Model for Line {
    ghost use Rattle.std.specs.Prelude.{List, ℕ, ◌≤◌, take};

    ghost Value = { List ℕ };

    ghost view = { λ l. take l.len l.bytes };

    ghost invariant = { λ l. l.len ≤ 128 };
}

impl Line {
    pub fn new() -> Line
        ensures { result ≡ [] }
    {
        Line {
            bytes: [0; 128],
            len: 0,
        }
    }

    pub fn as_bytes(&self) -> &[u8]
        ensures { result.now ≡ self.now }
    {
        &self.bytes[..self.len]
    }

    // A line is used again: what it had is no part of it any more.
    pub fn clear(&mut self)
        ensures { self.new ≡ [] }
    {
        self.len = 0;
    }

    // A byte is written at the end.
    pub fn byte(&mut self, byte: u8)
        requires { length self.old + 1 ≤ 128 }
        ensures { self.new ≡ self.old ++ (byte ∷ []) }
    {
        let at = self.len;
        self.bytes[at] = byte;
        self.len = at + 1;
    }

    // Text is written at the end.
    pub fn text(&mut self, words: &[u8])
        requires { length self.old + length words.now ≤ 128 }
        ensures { self.new ≡ self.old ++ words.now }
    {
        let end = self.len + words.len();
        self.bytes[self.len..end].copy_from_slice(words);
        self.len = end;
    }

    // A number of more than one digit, at the end. It has a frame of its own for the buffer, which the others do without.
    #[inline(never)]
    #[tactic(auto, using(crate::proofs::Decimals::decimal_printed))]
    fn long_number(&mut self, n: u64)
        requires { length self.old + 20 ≤ 128 }
        ensures written { self.new ≡ self.old ++ decimal n }
        ensures fits { length self.new ≤ length self.old + 20 }
    {
        self.text(Buffer::new().format(n).as_bytes());
    }

    // A number in decimal is written at the end. Most numbers of a line are one digit, for which a buffer is too dear.
    #[inline(always)]
    #[tactic(auto, using(crate::proofs::Decimals::decimal_digit))]
    pub fn number(&mut self, n: u64)
        requires { length self.old + 20 ≤ 128 }
        ensures written { self.new ≡ self.old ++ decimal n }
        ensures fits { length self.new ≤ length self.old + 20 }
    {
        if n < 10 {
            self.byte(b'0' + n as u8);
        } else {
            self.long_number(n);
        }
    }

    #[tactic(auto, using(crate::proofs::Decimals::signed_printed, crate::proofs::Decimals::other_decimal))]
    fn signed_number(&mut self, z: i64)
        requires { length self.old + 21 ≤ 128 }
        ensures written { self.new ≡ self.old ++ signed_decimal z }
        ensures fits { length self.new ≤ length self.old + 21 }
    {
        if z < 0 {
            self.text(Buffer::new().format(z).as_bytes());
        } else {
            self.number(z.unsigned_abs());
        }
    }

    // A number and the byte after it.
    pub fn field(&mut self, n: u64, mark: u8)
        requires { length self.old + 21 ≤ 128 }
        ensures written { self.new ≡ self.old ++ (decimal n ++ (mark ∷ [])) }
        ensures fits { length self.new ≤ length self.old + 21 }
    {
        self.number(n);
        self.byte(mark);
    }
}

// What the line of an answer has, in the order of its fields.
#[derive(Clone, Copy)]
pub struct Fields {
    pub number: u64,
    pub place: u64,
    pub code: u64,
    pub value: i64,
    pub steps: u64,
    pub kept: u64,
}

impl Fields {
    // The line takes the place of what is there.
    #[inline(always)]
    #[tactic(auto, unfolding(crate::specs::Lines::line_of, crate::specs::Lines::fields))]
    pub fn write(self, line: &mut Line)
        ensures value { line.new ≡ line_of record { number = self.number; place = self.place; type = self.code; value = self.value; steps = self.steps; kept = self.kept } }
        ensures fits { length line.new ≤ 127 }
    {
        line.clear();
        line.field(self.number, b' ');
        line.field(self.place, b' ');
        line.field(self.code, b' ');
        line.signed_number(self.value);
        line.byte(b' ');
        line.field(self.steps, b' ');
        line.field(self.kept, b'\n');
    }

    pub fn line(self) -> Line
        ensures value { result ≡ line_of record { number = self.number; place = self.place; type = self.code; value = self.value; steps = self.steps; kept = self.kept } }
        ensures fits { length result ≤ 127 }
    {
        let mut line = Line::new();
        self.write(&mut line);
        line
    }
}
