// The index of a sheet: where each figure and each rule stands in the sheet's bytes, and what is looked up by it.
ghost use Rattle.std.specs.Prelude.{◌≡◌, ◌+◌, ◌-◌, ◌≤◌, ◌<◌, length, get_or};
ghost use Rattle.saiga.specs.Limits.{attribute_limit, node_limit, last_kind};
ghost use Rattle.sheets.specs.Scan.{figure_place, rule_place, forward_place, attributes_place, nodes_place, index_size, figure_at, piece_at, indexed, IndexedPair, rule_number, forward_number, piece_for, PieceHere};

use crate::IndexedSheet;
use saiga::Value;
use saiga::limits::{ATTRIBUTE_LIMIT, LAST_KIND, NODE_LIMIT};

// The index: where its rules stand, where its forwards stand behind them, and how many places both have; the places of the numbers of attributes and
// nodes; and its size.
pub const PIECES_AT: usize = NODE_LIMIT * ATTRIBUTE_LIMIT;

const FORWARDS_AT: usize = PIECES_AT + (LAST_KIND + 1) * ATTRIBUTE_LIMIT;

pub const PIECE_PLACES: usize = (LAST_KIND + 1) * ATTRIBUTE_LIMIT + LAST_KIND + 1;

pub const ATTRIBUTES_PLACE: usize = PIECES_AT + PIECE_PLACES;

pub const NODES_PLACE: usize = ATTRIBUTES_PLACE + 1;

pub const INDEX_SIZE: usize = NODES_PLACE + 1;

// A definition that is a piece of the sheet, by the offset of its length: a rule, or a forward.
#[derive(Clone, Copy)]
pub enum FoundPiece {
    OfRule(usize),
    OfForward(usize),
}

// The places of a figure, of a rule and of a forward in the index.
pub fn figure_place(n: usize, a: usize) -> usize
    requires { (n < node_limit) × (a < attribute_limit) }
    ensures { result ≡ figure_place n a }
{
    n * ATTRIBUTE_LIMIT + a
}

pub fn rule_place(k: usize, a: usize) -> usize
    requires { (k ≤ last_kind) × (a < attribute_limit) }
    ensures { result ≡ rule_place k a }
{
    PIECES_AT + k * ATTRIBUTE_LIMIT + a
}

pub fn forward_place(k: usize) -> usize
    requires { k ≤ last_kind }
    ensures { result ≡ forward_place k }
{
    FORWARDS_AT + k
}

// How many attributes and nodes an accepted sheet declares. Two functions, since the cell's place as an argument would say less at each call.
pub fn attribute_count(index: &[u16]) -> usize
    requires { length index.now ≡ index_size }
    ensures { result ≡ get_or index.now attributes_place 0 }
{
    values::cell_at(index, ATTRIBUTES_PLACE)
}

pub fn node_count(index: &[u16]) -> usize
    requires { length index.now ≡ index_size }
    ensures { result ≡ get_or index.now nodes_place 0 }
{
    values::cell_at(index, NODES_PLACE)
}

impl<'a> IndexedSheet<'a> {
    // The figure of a pair, by one read of the index.
    #[tactic(auto, using(crate::proofs::Lookups::figure_laws))]
    pub fn figure(self, n: usize, a: usize) -> Option<Value>
        requires { IndexedPair self.bytes.now self.index.now n a }
        ensures { result ≡ indexed (get_or self.entry.index.now (figure_place n a) 0) (figure_at self.entry.bytes.now a) }
    {
        let number = values::cell_at(self.index, figure_place(n, a));
        if number == 0 {
            return None;
        }
        let code = values::result_at(self.bytes, a);
        Some(values::value_of(code, values::number_at::<4>(self.bytes, number + 3)))
    }

    // What defines a pair that has no figure: the rule for the node's kind and the attribute, else the kind's forward.
    pub fn found_piece(self, n: usize, a: usize) -> FoundPiece
        requires { IndexedPair self.bytes.now self.index.now n a }
        ensures { result ≡ piece_for (rule_number self.entry.bytes.now self.entry.index.now n a) (forward_number self.entry.bytes.now self.entry.index.now n) }
    {
        let k = values::kind_at(self.bytes, attribute_count(self.index), n) as usize;
        let number = values::cell_at(self.index, rule_place(k, a));
        if number != 0 {
            return FoundPiece::OfRule(number);
        }
        FoundPiece::OfForward(values::cell_at(self.index, forward_place(k)))
    }

    // The piece whose length stands at an offset, as a part of the sheet.
    #[tactic(auto, unfolding(crate::specs::Scan::piece_at))]
    pub fn piece(self, number: usize) -> &'a [u8]
        requires { PieceHere self.bytes.now number }
        ensures { result.now ≡ piece_at self.entry.bytes.now (number - 1) }
    {
        let start = number + 2;
        let end = start + values::number_at::<2>(self.bytes, number) as usize;
        &self.bytes[start..end]
    }
}
