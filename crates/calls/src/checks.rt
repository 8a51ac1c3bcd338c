// The checks of a question call: stops 1 to 13 in their order (document 01, "Stops by origin").
ghost use Rattle.std.specs.Prelude.{◌≡◌};
ghost use Rattle.saiga.specs.Sheet.{Sheet};
ghost use Rattle.saiga.specs.Ask.{lent, asking};
ghost use Rattle.saiga.specs.Stops.{checked_of};
ghost use Rattle.calls.specs.Verdict.{SheetOf, from_budget, CallChecked};
ghost use Rattle.expressions.specs.Forms.{question_of};

use saiga::Base;
use saiga::limits::{BUDGET_LIMIT, SHEET_LIMIT};
use saiga::stops::{Refusal, Stop};
use sheets::lookup::INDEX_SIZE;
use stores::LINKS_SIZE;
use values::Declared;

// Stops 11 to 13, for a sheet that declares so much; or the base type of the question.
#[inline(always)]
pub fn check_question(declared: Declared, question: &[u8], budget: usize) -> Result<Base, Refusal>
    ensures { (s : Sheet) → SheetOf declared.entry.sheet.now declared.entry.attributes declared.entry.nodes s
        → checked_of result ≡ question_of s.attributes (from_budget s (asking question.now budget)) }
{
    if BUDGET_LIMIT < budget {
        return Err(Stop::BudgetTooHigh.at(0));
    }
    expressions::check_question(declared, question)
}

// The check of a call's arguments. It fills the two indexes and the notes.
pub fn check(
    sheet: &[u8],
    question: &[u8],
    store: &[u8],
    kept: usize,
    budget: usize,
    index: &mut [u16; INDEX_SIZE],
    notes: &mut [u8; SHEET_LIMIT],
    links: &mut [u16; LINKS_SIZE],
) -> Result<(), Refusal>
    ensures { CallChecked sheet.now (lent store.now kept) (asking question.now budget) index.new notes.new links.new result }
{
    // A slice, whose length a contract keeps over calls.
    let cells: &mut [u16] = links;
    let counts = sheets::check(sheet, index, notes)?;
    let declared = Declared {
        sheet,
        attributes: counts.attributes,
        nodes: counts.nodes,
    };
    stores::check(declared, store, kept, cells)?;
    check_question(declared, question, budget)?;
    Ok(())
}
