// The limits and sizes of document 01 for the code; specs/Limits.antt has them for the definitions, with the document's words.

// The sheet: its bytes, attributes and nodes, the last kind of a node, and the bytes of a rule's expression or a question.
pub const SHEET_LIMIT: usize = 65536;

pub const ATTRIBUTE_LIMIT: usize = 32;

pub const NODE_LIMIT: usize = 1024;

pub const LAST_KIND: usize = 15;

pub const EXPRESSION_LIMIT: usize = 256;

// The store: the bytes of an entry, its entries, and its bytes.
pub const ENTRY_WIDTH: usize = 12;

pub const ENTRY_LIMIT: usize = 1024;

pub const STORE_LIMIT: usize = 12288;

// The run: its counted steps, and the forms that are open around a step.
pub const BUDGET_LIMIT: usize = 1000000;

pub const DEPTH_LIMIT: usize = 64;

// The tally: its rows, one for each attribute number first; then that of the applications, and that of the conditions.
pub const TALLY_ROWS: usize = 34;

pub const APPLICATIONS_ROW: usize = 32;

pub const CONDITIONS_ROW: usize = 33;
