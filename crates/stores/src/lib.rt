// The store: its checks, and an index over the kept entries, by which an occurrence is found (document 01, "The steps", stops 9 and 10).
#![tactic(auto)]

ghost use Rattle.std.specs.Prelude.{[], ◌≡◌, ◌+◌, ◌*◌, ◌%◌, ◌≤◌, ◌<◌, length, take, drop, get_or};
ghost use Rattle.std.specs.Prelude.{None as none};
ghost use Rattle.std.specs.Result.{result_ok};
ghost use Rattle.values.specs.Layout.{attributes_in};
ghost use Rattle.saiga.specs.Limits.{entry_width, entry_limit};
ghost use Rattle.saiga.specs.Sheet.{Sheet, node_count};
ghost use Rattle.saiga.specs.Store.{field_bytes, is_entry};
ghost use Rattle.stores.specs.Walks.{bucket_count, fan_out, first_cell, cell_of, bucket_of, trail_of, Free, Without, planted};
ghost use Rattle.stores.specs.Keys.{links_size, same_key, fields_at, key_in, key_at, find_key, seen_in, other_in, FreeIn, value_word, fields_for, wide_fields_for, put_at, Linked, is_shaped, EntryTested, StoreChecked, EntryPut};
ghost use Rattle.stores.specs.Search.{Cells, Searched};

use saiga::limits::{ENTRY_LIMIT, ENTRY_WIDTH, STORE_LIMIT};
use saiga::stops::{Refusal, Stop};
use saiga::{Fields, Value};
use values::Declared;

// An occurrence in numbers: its node, its attribute, and its parameter's four-byte form.
#[derive(Clone, Copy, PartialEq, Eq)]
pub struct Key {
    pub node: u16,
    pub attribute: u8,
    pub word: u32,
}

// The index: its buckets, and behind them eight cells for each entry that can be kept, one for each digit in base 8. A cell holds the number of
// an entry and one, or 0.
pub const BUCKETS: usize = 1024;

pub const FAN_OUT: usize = 8;

pub const LINKS_SIZE: usize = BUCKETS + FAN_OUT * ENTRY_LIMIT;

// The digits of a trail, which lead through the index.
pub const KEY_DIGITS: usize = 16;

pub const BASE: u64 = FAN_OUT as u64;

// How much an attribute and a parameter turn the buckets of the nodes round.
const ATTRIBUTE_TURN: u64 = 2246822519;

const WORD_TURN: u64 = 2654435769;

const TURN: u64 = 4194304;

// So much higher than the parameter the rest of a trail stands.
const TRAIL_STEP: u64 = 8589934592;

const BUCKETS_WIDE: u64 = BUCKETS as u64;

// What is seen at a cell of the index by one who looks for a key: nothing, an entry with the key, or one with another.
#[derive(Clone, Copy)]
pub enum Seen {
    Empty,
    Has(usize),
    Other(usize),
}

// The numbers of entry i. Whether it stands within the store hangs on i, so each function that reads one asks for it.
fn entry_at(store: &[u8], i: usize) -> Fields
    requires { entry_width * i + entry_width ≤ length store.now }
    ensures { result ≡ fields_at store.now i }
{
    let at = ENTRY_WIDTH * i;
    Fields {
        node: values::number_at::<2>(store, at) as u16,
        attribute: store[at + 2],
        code: store[at + 3],
        parameter: values::number_at::<4>(store, at + 4),
        value: values::number_at::<4>(store, at + 8),
    }
}

// The numbers of entry i are written.
fn put_entry(store: &mut [u8], i: usize, e: Fields)
    requires { entry_width * i + entry_width ≤ length store.old }
    ensures { store.new ≡ put_at store.old i (field_bytes e) }
{
    let at = ENTRY_WIDTH * i;
    values::put_number::<2>(store, at, u32::from(e.node));
    store[at + 2] = e.attribute;
    store[at + 3] = e.code;
    values::put_number::<4>(store, at + 4, e.parameter);
    values::put_number::<4>(store, at + 8, e.value);
}

// The key of an entry.
impl From<Fields> for Key {
    ghost from_gives = { λ e q. q ≡ key_in e };

    #[tactic(auto, unfolding(crate::specs::Keys::key_in))]
    fn from(e: Fields) -> Key {
        Key {
            node: e.node,
            attribute: e.attribute,
            word: e.parameter,
        }
    }
}

impl Key {
    // The numbers of the entry that keeps a value for the key.
    #[tactic(auto, unfolding(crate::specs::Keys::fields_for))]
    pub fn fields(self, value: Value) -> Fields
        ensures { result ≡ fields_for self value }
    {
        Fields {
            node: self.node,
            attribute: self.attribute,
            code: values::type_code(value),
            parameter: self.word,
            value: values::word_of(value),
        }
    }
}

// An occurrence in numbers that needn't have the widths of an entry's.
#[derive(Clone, Copy)]
pub struct WideKey {
    pub node: u32,
    pub attribute: u32,
    pub word: u32,
}

// The numbers of the entry that would keep a value for such an occurrence.
#[derive(Clone, Copy)]
pub struct WideFields {
    pub node: u32,
    pub attribute: u32,
    pub code: u8,
    pub parameter: u32,
    pub value: u32,
}

// What `Key::fields` is for a key. A caller who has not held an occurrence to the widths of an entry gets the numbers that its entry would have.
#[tactic(auto, unfolding(crate::specs::Keys::wide_fields_for))]
pub fn fields_for(key: WideKey, value: Value) -> WideFields
    ensures { result ≡ wide_fields_for key value }
{
    WideFields {
        node: key.node,
        attribute: key.attribute,
        code: values::type_code(value),
        parameter: key.word,
        value: values::word_of(value),
    }
}

// The bucket of a key.
#[tactic(auto, unfolding(crate::specs::Walks::bucket_of))]
pub fn bucket(key: Key) -> usize
    ensures { (result ≡ bucket_of key) × (result < bucket_count) }
{
    let turn = (u64::from(key.attribute) * ATTRIBUTE_TURN + u64::from(key.word) * WORD_TURN) / TURN;
    ((u64::from(key.node) + turn) % BUCKETS_WIDE) as usize
}

// The trail of a key: what its bucket does not tell.
#[tactic(auto, unfolding(crate::specs::Walks::trail_of))]
pub fn trail(key: Key) -> u64
    ensures { result ≡ trail_of key }
{
    let attribute = u64::from(key.attribute);
    let row = u64::from(key.node) / BUCKETS_WIDE;
    u64::from(key.word) + attribute + TRAIL_STEP * (attribute + 256 * row)
}

// Whether entry i has a key.
#[tactic(auto, unfolding(crate::specs::Keys::same_key))]
fn has_key(store: &[u8], i: usize, key: Key) -> bool
    requires { entry_width * i + entry_width ≤ length store.now }
    ensures { result ≡ same_key (key_at store.now i) key }
{
    Key::from(entry_at(store, i)) == key
}

// The first cell of entry j.
fn first_cell(j: usize) -> usize
    requires { j < entry_limit }
    ensures { result ≡ first_cell j }
{
    BUCKETS + FAN_OUT * j
}

// The cell of entry j for the lowest digit of what is left of a key.
pub fn cell_below(j: usize, rest: u64) -> usize
    requires { j < entry_limit }
    ensures { result ≡ cell_of j (rest % fan_out) }
{
    first_cell(j) + (rest % BASE) as usize
}

// What is seen at a cell of the index by one who looks for a key.
fn look(store: &[u8], index: &[u16], cell: usize, key: Key) -> Seen
    requires { (cell < length index.now) × (entry_width * get_or index.now cell 0 ≤ length store.now) }
    ensures { result ≡ seen_in (key_at store.now) key (get_or index.now cell 0) }
{
    match values::cell_at(index, cell) {
        0 => Seen::Empty,
        i if has_key(store, i - 1, key) => Seen::Has(i - 1),
        i => Seen::Other(i - 1),
    }
}

// What is seen there by one who looks for a key that no entry has.
fn other(index: &[u16], cell: usize) -> Seen
    requires { cell < length index.now }
    ensures { result ≡ other_in (get_or index.now cell 0) }
{
    match values::cell_at(index, cell) {
        0 => Seen::Empty,
        i => Seen::Other(i - 1),
    }
}

// The walk of a key through the cells of an index, of which `look` tells what is seen: to the entry with the key, or to the free cell where one
// would stand. Most walks end in the bucket, for which no trail is worked out. Below it the walk sees 16 entries at most, one for each digit
// of the trail.
#[inline]
pub fn search<F: Fn(usize) -> Seen>(key: Key, look: F) -> Result<usize, usize>
    requires { Cells key (F.pre look) (F.post look) }
    ensures { (c : Cells key (F.pre look) (F.post look)) → Searched c.keys c.count c.index key result }
{
    let b = bucket(key);
    let mut above = match look(b) {
        Seen::Empty => return Err(b),
        Seen::Has(j) => return Ok(j),
        Seen::Other(j) => j,
    };
    let mut rest = trail(key);
    for _ in 0..KEY_DIGITS {
        let cell = cell_below(above, rest);
        rest /= BASE;
        match look(cell) {
            Seen::Empty => return Err(cell),
            Seen::Has(j) => return Ok(j),
            Seen::Other(j) => above = j,
        }
    }
    // An entry that has the bucket and every digit of the key has the key.
    unreachable!()
}

// The entry with a key among the first `kept`, or the free cell for one.
pub fn find(store: &[u8], kept: usize, index: &[u16], key: Key) -> Result<usize, usize>
    requires { Linked store.now kept index.now }
    ensures found { result_ok result ≡ find_key store.now kept key }
    ensures free_in { FreeIn index.now key result }
{
    search(key, |cell| look(store, index, cell, key))
}

// The free cell for a key that no entry has: each entry on the way is another's, and none is looked at.
pub fn free_cell(index: &[u16], key: Key) -> usize
    requires { Without index.now key }
    ensures { Free index.now key result }
{
    search(key, |cell| other(index, cell)).unwrap_err()
}

// Entry `kept` is put into a free cell of the index, and its own cells are emptied.
fn plant(index: &mut [u16], cell: usize, kept: usize)
    requires { (length index.old ≡ links_size) × (kept < entry_limit) × (cell < links_size) }
    ensures { index.new ≡ planted index.old cell kept }
{
    values::clear(index, first_cell(kept), FAN_OUT);
    index[cell] = (kept + 1) as u16;
}

// Whether entry i is one of the sheet's, leaving aside whether its occurrence was kept before: declared node and attribute, the code of the
// attribute's result type, and a parameter and a value of their types.
fn is_entry(declared: Declared, store: &[u8], i: usize) -> bool
    requires { entry_width * i + entry_width ≤ length store.now }
    ensures { (s : Sheet) → s.attributes ≡ attributes_in declared.entry.sheet.now declared.entry.attributes → node_count s ≡ declared.entry.nodes
        → result ≡ is_entry s [] (take entry_width (drop (entry_width * i) store.now)) }
{
    let e = entry_at(store, i);
    let a = usize::from(e.attribute);
    if declared.nodes <= usize::from(e.node) || declared.attributes <= a {
        return false;
    }
    let result = declared.result_at(a);
    let parameter = declared.parameter_at(a);
    let code = values::base_of(result) as u8;
    if e.code != code {
        return false;
    }
    values::is_word(declared.nodes, parameter, e.parameter)
        && values::is_word(declared.nodes, result, e.value)
}

// The free cell for entry i, if it passes after the ones before it, which are in the index.
fn test(declared: Declared, store: &[u8], i: usize, index: &[u16]) -> Option<usize>
    requires { (entry_width * i + entry_width ≤ length store.now) × Linked store.now i index.now }
    ensures { EntryTested declared.entry.sheet.now declared.entry.attributes declared.entry.nodes store.now i index.now result }
{
    if !is_entry(declared, store, i) {
        return None;
    }
    find(store, i, index, Key::from(entry_at(store, i))).err()
}

// Whether a store has whole entries, no more bytes than it may, and room for the kept entries.
#[tactic(auto, unfolding(crate::specs::Keys::is_shaped))]
fn is_shaped(store: &[u8], kept: usize) -> bool
    ensures { result ≡ is_shaped store.now kept }
{
    store.len() % ENTRY_WIDTH == 0
        && store.len() <= STORE_LIMIT
        && kept <= store.len() / ENTRY_WIDTH
}

// Stops 9 and 10. The index of a store that passes has all its kept entries.
pub fn check(
    declared: Declared,
    store: &[u8],
    kept: usize,
    index: &mut [u16],
) -> Result<(), Refusal>
    requires { length index.old ≡ links_size }
    ensures { StoreChecked declared.entry.sheet.now declared.entry.attributes declared.entry.nodes store.now kept index.new result }
{
    if !is_shaped(store, kept) {
        return Err(Stop::StoreShape.at(0));
    }
    values::clear(index, 0, BUCKETS);
    for i in 0..kept {
        let Some(cell) = test(declared, store, i, index) else {
            return Err(Stop::BadEntry.at(i));
        };
        plant(index, cell, i);
    }
    Ok(())
}

// The four-byte form of the value of entry i.
pub fn value_word(store: &[u8], i: usize) -> u32
    requires { entry_width * i + entry_width ≤ length store.now }
    ensures { result ≡ value_word store.now i }
{
    entry_at(store, i).value
}

// Entry `kept` is written, and put into the index at the free cell of its key.
pub fn append(store: &mut [u8], kept: usize, index: &mut [u16], e: Fields, cell: usize)
    requires room { (kept < entry_limit) × (entry_width * kept + entry_width ≤ length store.old) × Linked store.old kept index.old }
    requires free { (find_key store.old kept (key_in e) ≡ none) × Free index.old (key_in e) cell }
    ensures { EntryPut store.old kept e store.new index.new }
{
    put_entry(store, kept, e);
    plant(index, cell, kept);
}
