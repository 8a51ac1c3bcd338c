// The open forms by the keys of their occurrences (F-9 of document 02): an index behind the forms in the memory of a run, with the buckets and the cells
// of the store's. It is never cleared, and a form that is closed is not taken out of it (specs/Opened.antt).
#![tactic(auto)]

ghost use Rattle.std.specs.Prelude.{◌≡◌, ◌≤◌, ◌<◌, length, get_or, is_ok};
ghost use Rattle.saiga.specs.Limits.{depth_limit};
ghost use Rattle.stores.specs.Keys.{same_key, seen_in};
ghost use Rattle.engine.specs.Decode.{open_cells, run_size, forms_in, opens_in};
ghost use Rattle.engine.specs.OpenKeys.{form_key, key_open};
ghost use Rattle.opens.specs.Opened.{counted_in, Opened, ClosedAt, Plants};

use engine::frames::ATTRIBUTES;
use engine::{OPEN_CELLS, OPENS_PLACE};
use stores::{Key, Seen};

// Behind the cells, for each form, the cell into which it was put.
const PLACES: usize = OPENS_PLACE + OPEN_CELLS;

// Whether form j has a key.
fn has_key(memory: &[u64], j: usize, key: Key) -> bool
    requires { (length memory.now ≡ run_size) × (j < depth_limit) }
    ensures { result ≡ same_key (form_key (forms_in memory.now) j) key }
{
    let f = engine::frames::form_place(j);
    let pair = memory[f];
    (pair / ATTRIBUTES, pair % ATTRIBUTES, memory[f + 1])
        == (
            u64::from(key.node),
            u64::from(key.attribute),
            u64::from(key.word),
        )
}

// What stands at a cell: a form counts if it is open and was put here.
fn look(memory: &[u64], forms: usize, cell: usize, key: Key) -> Seen
    requires { (length memory.now ≡ run_size) × (forms ≤ depth_limit) × (cell < open_cells) }
    ensures { result ≡ seen_in (form_key (forms_in memory.now)) key (get_or (counted_in (opens_in memory.now) forms) cell 0) }
{
    let j = memory[OPENS_PLACE + cell] as usize;
    if forms <= j || memory[PLACES + j] as usize != cell {
        return Seen::Empty;
    }
    if has_key(memory, j, key) {
        Seen::Has(j)
    } else {
        Seen::Other(j)
    }
}

// The form with a key among the first `forms`, which are open, or the free cell for one. Most searches end at the bucket, which counts for no form.
pub fn find(memory: &[u64], forms: usize, key: Key) -> Result<usize, usize>
    requires { Opened (forms_in memory.now) (opens_in memory.now) forms × (length memory.now ≡ run_size) }
    ensures found { is_ok result ≡ key_open (forms_in memory.now) forms key }
    ensures closed_at { ClosedAt (opens_in memory.now) forms key result }
{
    stores::search(key, |cell| look(memory, forms, cell, key))
}

// Form `forms` is put into a free cell.
pub fn plant(memory: &mut [u64], forms: usize, cell: usize)
    requires { (length memory.old ≡ run_size) × (forms < depth_limit) × (cell < open_cells) }
    ensures { Plants memory.old memory.new forms cell }
{
    memory[OPENS_PLACE + cell] = forms as u64;
    memory[PLACES + forms] = cell as u64;
}
