// The check of a sheet, which fills the sheet's index and notes the widths of its expressions: stops 1 to 8 (document 01, "The sheet" and "Stops by
// origin").
#![tactic(auto)]

pub mod lookup;

ghost use Rattle.std.specs.Prelude.{◌≡◌, List, ℕ, suc, ◌+◌, ◌-◌, ◌≤◌, ◌<◌, length, is_some};
ghost use Rattle.saiga.specs.Limits.{sheet_limit, attribute_limit, node_limit, last_kind};
ghost use Rattle.expressions.specs.Forms.{parameter_type};
ghost use Rattle.values.specs.Cells.{emptied};
ghost use Rattle.sheets.specs.Notes.{NotesOn, ChecksNotes};
ghost use Rattle.sheets.specs.Scan.{pieces_at, piece_places, index_size, scan_attribute, scan_node, scan_figure, scan_piece, scan_rule, scan_forward, scan_end, scan_command, pair_indexed, is_indexed, missing_in, Lacks, scanned, scan_from, start, Reading, PieceAsked, ReadAs, Declared, scan_of, Checks};

use expressions::{Scope, types};
use lookup::{ATTRIBUTES_PLACE, INDEX_SIZE, NODES_PLACE, PIECE_PLACES, PIECES_AT};
use saiga::Base;
use saiga::limits::{ATTRIBUTE_LIMIT, LAST_KIND, NODE_LIMIT, SHEET_LIMIT};
use saiga::stops::{Refusal, Stop};

// A sheet that was checked, with the index and the notes that its check filled.
#[derive(Clone, Copy)]
pub struct IndexedSheet<'a> {
    pub bytes: &'a [u8],
    pub index: &'a [u16],
    pub notes: &'a [u8],
}

// The numbers of attributes and nodes that an accepted sheet declares.
#[derive(Clone, Copy)]
pub struct Counts {
    pub attributes: usize,
    pub nodes: usize,
}

// The parts of a sheet in the order of their commands. Forwards stand among the rules.
#[derive(Clone, Copy, PartialEq, PartialOrd)]
pub enum Part {
    Attributes,
    Nodes,
    Figures,
    Rules,
}

// What is known of a sheet part way through its check: the offset reached, the part of the sheet reached, and how many attributes
// and nodes are declared.
#[derive(Clone, Copy)]
pub struct Progress {
    pub at: usize,
    pub part: Part,
    pub attributes: usize,
    pub nodes: usize,
}

// A sheet part way through its check. The progress is within its bytes and the limits.
#[derive(Clone, Copy)]
struct Reader<'a> {
    sheet: &'a [u8],
    progress: Progress,
    ghost reading: { Reading sheet.now progress },
}

// Each reader of a command answers what is known after it, or nothing after the end command. Index and notes are slices whose lengths each asks for: the length
// of a lent array is forgotten over each call, unless the callee promises it.
impl Reader<'_> {
    #[tactic(auto, unfolding(crate::specs::Scan::scan_attribute, crate::specs::Scan::demand))]
    fn read_attribute(self) -> Result<Option<Progress>, Refusal>
        ensures { (index : List ℕ) → ReadAs self.entry.progress.at result index index (scan_attribute self.entry.sheet.now self.entry.progress index) }
    {
        let Reader { sheet, progress: p } = self;
        let at = p.at;
        if Part::Attributes < p.part || sheet.len() < at + 3 {
            return Err(Stop::Malformed.at(at));
        }
        if ATTRIBUTE_LIMIT <= p.attributes {
            return Err(Stop::TooMany.at(at));
        }
        if 4 <= sheet[at + 1] || 4 <= sheet[at + 2] {
            return Err(Stop::OutOfRange.at(at));
        }
        Ok(Some(Progress {
            at: at + 3,
            part: Part::Attributes,
            attributes: p.attributes + 1,
            ..p
        }))
    }

    #[tactic(auto, unfolding(crate::specs::Scan::scan_node, crate::specs::Scan::demand))]
    fn read_node(self, index: &mut [u16]) -> Result<Option<Progress>, Refusal>
        requires { length index.old ≡ index_size }
        ensures { ReadAs self.entry.progress.at result index.new index.old (scan_node self.entry.sheet.now self.entry.progress index.old) }
    {
        let Reader { sheet, progress: p } = self;
        let at = p.at;
        if Part::Nodes < p.part || sheet.len() < at + 2 {
            return Err(Stop::Malformed.at(at));
        }
        if NODE_LIMIT <= p.nodes {
            return Err(Stop::TooMany.at(at));
        }
        if LAST_KIND < sheet[at + 1] as usize {
            return Err(Stop::OutOfRange.at(at));
        }
        values::clear(index, lookup::figure_place(p.nodes, 0), ATTRIBUTE_LIMIT);
        Ok(Some(Progress {
            at: at + 2,
            part: Part::Nodes,
            nodes: p.nodes + 1,
            ..p
        }))
    }

    #[tactic(auto, unfolding(crate::specs::Scan::scan_figure, crate::specs::Scan::demand))]
    fn read_figure(self, index: &mut [u16]) -> Result<Option<Progress>, Refusal>
        requires { length index.old ≡ index_size }
        ensures { ReadAs self.entry.progress.at result index.new index.old (scan_figure self.entry.sheet.now self.entry.progress index.old) }
    {
        let Reader { sheet, progress: p } = self;
        let at = p.at;
        if Part::Figures < p.part || sheet.len() < at + 8 {
            return Err(Stop::Malformed.at(at));
        }
        let n = values::number_at::<2>(sheet, at + 1) as usize;
        let a = sheet[at + 3] as usize;
        if p.nodes <= n || p.attributes <= a {
            return Err(Stop::OutOfRange.at(at));
        }
        let code = values::result_at(sheet, a);
        if !values::is_word(p.nodes, code, values::number_at::<4>(sheet, at + 4)) {
            return Err(Stop::OutOfRange.at(at));
        }
        let place = lookup::figure_place(n, a);
        if index[place] != 0 {
            return Err(Stop::Repeated.at(at));
        }
        index[place] = (at + 1) as u16;
        Ok(Some(Progress {
            at: at + 8,
            part: Part::Figures,
            ..p
        }))
    }

    // The piece of a rule or a forward, whose length stands behind the offset `before`: stops 5, 6 and 7. `place` is for it in the index; 0x31 may be used
    // where it has a type, `parameter`; `wanted` is the piece's type.
    #[tactic(auto, using(crate::proofs::Pieces::piece_laws), unfolding(crate::specs::Scan::scan_piece, crate::specs::Scan::piece_at, crate::specs::Scan::demand))]
    fn read_piece(
        self,
        index: &mut [u16],
        notes: &mut [u8],
        place: usize,
        before: usize,
        parameter: Option<Base>,
        wanted: Base,
    ) -> Result<Option<Progress>, Refusal>
        requires index_len { length index.old ≡ index_size }
        requires notes_len { length self.sheet.now ≤ length notes.old }
        requires asked { PieceAsked self.sheet.now self.progress.at place before }
        ensures read_as { ReadAs self.entry.progress.at result index.new index.old
            (scan_piece self.entry.sheet.now self.entry.progress index.old place before (is_some parameter) (parameter_type parameter) wanted) }
        ensures notes_on { NotesOn self.entry.sheet.now self.entry.progress index.old notes.old index.new notes.new result }
    {
        let Reader { sheet, progress: p } = self;
        if index[place] != 0 {
            return Err(Stop::Repeated.at(p.at));
        }
        let start = before + 3;
        let end = start + values::number_at::<2>(sheet, before + 1) as usize;
        let declared = values::Declared {
            sheet,
            attributes: p.attributes,
            nodes: p.nodes,
        };
        let scope = Scope {
            declared,
            this: true,
            parameter,
        };
        let Some(found) = expressions::read_whole(&scope, &sheet[start..end], notes, start) else {
            return Err(Stop::NoPiece.at(p.at));
        };
        if types::base_in(found) != Some(wanted) {
            return Err(Stop::PieceType.at(p.at));
        }
        index[place] = (before + 1) as u16;
        Ok(Some(Progress {
            at: end,
            part: Part::Rules,
            ..p
        }))
    }

    #[tactic(auto, unfolding(crate::specs::Scan::scan_rule, crate::specs::Scan::demand))]
    fn read_rule(self, index: &mut [u16], notes: &mut [u8]) -> Result<Option<Progress>, Refusal>
        requires index_len { length index.old ≡ index_size }
        requires notes_len { length self.sheet.now ≤ length notes.old }
        ensures read_as { ReadAs self.entry.progress.at result index.new index.old (scan_rule self.entry.sheet.now self.entry.progress index.old) }
        ensures notes_on { NotesOn self.entry.sheet.now self.entry.progress index.old notes.old index.new notes.new result }
    {
        let Reader { sheet, progress: p } = self;
        let at = p.at;
        if sheet.len() < at + 5
            || sheet.len() < at + 5 + values::number_at::<2>(sheet, at + 3) as usize
        {
            return Err(Stop::Malformed.at(at));
        }
        let k = sheet[at + 1] as usize;
        let a = sheet[at + 2] as usize;
        if LAST_KIND < k || p.attributes <= a {
            return Err(Stop::OutOfRange.at(at));
        }
        let place = lookup::rule_place(k, a);
        let parameter = values::base_of(values::parameter_at(sheet, a));
        let wanted = values::base_of(values::result_at(sheet, a));
        self.read_piece(index, notes, place, at + 2, Some(parameter), wanted)
    }

    // A forward is of type Node, and 0x31 may not be used in it.
    #[tactic(auto, unfolding(crate::specs::Scan::scan_forward, crate::specs::Scan::demand))]
    fn read_forward(self, index: &mut [u16], notes: &mut [u8]) -> Result<Option<Progress>, Refusal>
        requires index_len { length index.old ≡ index_size }
        requires notes_len { length self.sheet.now ≤ length notes.old }
        ensures read_as { ReadAs self.entry.progress.at result index.new index.old (scan_forward self.entry.sheet.now self.entry.progress index.old) }
        ensures notes_on { NotesOn self.entry.sheet.now self.entry.progress index.old notes.old index.new notes.new result }
    {
        let Reader { sheet, progress: p } = self;
        let at = p.at;
        if sheet.len() < at + 4
            || sheet.len() < at + 4 + values::number_at::<2>(sheet, at + 2) as usize
        {
            return Err(Stop::Malformed.at(at));
        }
        let k = sheet[at + 1] as usize;
        if LAST_KIND < k {
            return Err(Stop::OutOfRange.at(at));
        }
        let place = lookup::forward_place(k);
        self.read_piece(index, notes, place, at + 1, None, Base::Node)
    }

    #[tactic(auto, unfolding(crate::specs::Scan::scan_end))]
    fn read_end(self) -> Result<Option<Progress>, Refusal>
        ensures { (index : List ℕ) → ReadAs self.entry.progress.at result index index (scan_end self.entry.sheet.now self.entry.progress) }
    {
        let next = self.progress.at + 1;
        if next == self.sheet.len() {
            Ok(None)
        } else {
            Err(Stop::Malformed.at(next))
        }
    }

    // The command at the offset reached.
    #[tactic(auto, using(crate::proofs::Noted::steady_laws), unfolding(crate::specs::Scan::scan_command, crate::specs::Scan::scan_at, saiga::specs::Sheet::command_of))]
    fn read_command(self, index: &mut [u16], notes: &mut [u8]) -> Result<Option<Progress>, Refusal>
        requires index_len { length index.old ≡ index_size }
        requires notes_len { length self.sheet.now ≤ length notes.old }
        ensures read_as { ReadAs self.entry.progress.at result index.new index.old (scan_command self.entry.sheet.now self.entry.progress index.old) }
        ensures notes_on { NotesOn self.entry.sheet.now self.entry.progress index.old notes.old index.new notes.new result }
    {
        let at = self.progress.at;
        let Some(&command) = self.sheet.get(at) else {
            return Err(Stop::Malformed.at(at));
        };
        match command {
            0x41 => self.read_attribute(),
            0x4E => self.read_node(index),
            0x56 => self.read_figure(index),
            0x52 => self.read_rule(index, notes),
            0x46 => self.read_forward(index, notes),
            0x5A => self.read_end(),
            _ => Err(Stop::Malformed.at(at)),
        }
    }

    // The pass for missing pairs. The index of a sheet that passes gets the numbers of attributes and nodes.
    #[tactic(auto, unfolding(crate::specs::Scan::scanned))]
    fn complete(self, index: &mut [u16]) -> Result<Counts, Refusal>
        requires declared { (n : ℕ) → n < self.progress.nodes → Declared self.sheet.now index.old self.progress.attributes n }
        requires index_len { length index.old ≡ index_size }
        ensures { scan_of result index.new
            ≡ scanned self.entry.progress index.old (missing_in self.entry.sheet.now index.old self.entry.progress.attributes self.entry.progress.nodes) }
    {
        let Progress {
            attributes,
            nodes,
            ..
        } = self.progress;
        if let Some(place) = first_gap(self.sheet, index, attributes, nodes) {
            return Err(Stop::Missing.at(place));
        }
        index[ATTRIBUTES_PLACE] = attributes as u16;
        index[NODES_PLACE] = nodes as u16;
        Ok(Counts { attributes, nodes })
    }
}

// Whether a node of kind k has a figure or a rule for an attribute: the index has a number for one of them.
#[tactic(auto, unfolding(crate::specs::Scan::pair_indexed))]
fn is_defined(index: &[u16], n: usize, k: usize, a: usize) -> bool
    requires { (length index.now ≡ index_size) × (n < node_limit) × (k ≤ last_kind) × (a < attribute_limit) }
    ensures { result ≡ pair_indexed index.now n k a }
{
    let figure = values::cell_at(index, lookup::figure_place(n, a));
    let rule = values::cell_at(index, lookup::rule_place(k, a));
    figure + rule != 0
}

// The lowest attribute below a limit that a node lacks. Where its kind has a forward it lacks none.
#[tactic(auto, unfolding(crate::specs::Scan::is_indexed))]
fn lowest_lacked(
    sheet: &[u8],
    index: &[u16],
    attributes: usize,
    limit: usize,
    n: usize,
) -> Option<usize>
    requires { Declared sheet.now index.now attributes n × (limit ≤ attributes) }
    ensures { Lacks (is_indexed sheet.now index.now attributes n) limit result }
{
    let k = values::kind_at(sheet, attributes, n) as usize;
    if values::cell_at(index, lookup::forward_place(k)) != 0 {
        return None;
    }
    for a in 0..limit {
        if !is_defined(index, n, k, a) {
            return Some(a);
        }
    }
    None
}

// One walk over the nodes, which keeps the first gap so far: a later node matters only with a lower attribute.
#[tactic(auto, using(crate::proofs::Gaps::gap_laws))]
fn first_gap(sheet: &[u8], index: &[u16], attributes: usize, nodes: usize) -> Option<usize>
    requires { (n : ℕ) → n < nodes → Declared sheet.now index.now attributes n }
    ensures { result ≡ missing_in sheet.now index.now attributes nodes }
{
    let mut gap = None;
    let mut limit = attributes;
    for n in 0..nodes {
        if let Some(a) = lowest_lacked(sheet, index, attributes, limit, n) {
            gap = Some(lookup::figure_place(n, a));
            limit = a;
        }
    }
    gap
}

// The commands from the front, then the pass for missing pairs. The part of the index for rules and forwards is emptied first.
fn read_commands(sheet: &[u8], index: &mut [u16], notes: &mut [u8]) -> Result<Counts, Refusal>
    requires { (length sheet.now ≤ sheet_limit) × (length index.old ≡ index_size) × (length sheet.now ≤ length notes.old) }
    ensures index_after { scan_of result index.new
        ≡ scan_from (suc (length sheet.now)) sheet.now start (emptied index.old pieces_at piece_places) }
    ensures checks_notes { ChecksNotes sheet.now result index.new notes.new }
{
    values::clear(index, PIECES_AT, PIECE_PLACES);
    let mut progress = Progress {
        at: 0,
        part: Part::Attributes,
        attributes: 0,
        nodes: 0,
    };
    while let Some(next) = (Reader { sheet, progress }).read_command(index, notes)? {
        progress = next;
    }
    Reader { sheet, progress }.complete(index)
}

// The check of a sheet. It fills the index: at its place each figure, as the offset of its command and one, and each rule and each forward, as the offset of
// its length; or 0. At the place of each byte with which an expression of a rule or a forward starts it notes the expression's width less one.
pub fn check(
    sheet: &[u8],
    index: &mut [u16; INDEX_SIZE],
    notes: &mut [u8; SHEET_LIMIT],
) -> Result<Counts, Refusal>
    ensures checks { Checks sheet.now result index.new }
    ensures checks_notes { ChecksNotes sheet.now result index.new notes.new }
    ensures notes_len { length notes.new ≡ sheet_limit }
{
    if SHEET_LIMIT < sheet.len() {
        return Err(Stop::SheetTooLong.at(0));
    }
    read_commands(sheet, index, notes)
}
