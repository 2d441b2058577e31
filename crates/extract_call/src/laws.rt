//! Laws of the definitions that the contracts cite.
ghost use Rattle.extract_call.specs.Below.{Below};
ghost use Rattle.extract_call.specs.Laws.{BulkLaw, OnePlan, PlainBulk, PlainLines, PlainRefusals, ReadingLaw, SomePlan, WordsLaw};

use css_parser::one_list_or_fault;
use css_translate::accepted_lists_keep_meaning;
use html_reader::one_page_reading;
use io_edges::pieces_add_up;
use page_records::{
    entries_run, one_entry_value, outcomes_have_forms, plain_entries, read_or_refused,
    reads_as_fields, selectors_are_texts,
};
use query_script::read_or_refused as fields_or_refused;

/// The laws of the crates below, from which those of this crate follow.
pub fn laws_below()
    ensures { Below }
{
    one_list_or_fault();
    accepted_lists_keep_meaning();
    read_or_refused();
    entries_run();
    selectors_are_texts();
    one_page_reading();
    one_entry_value();
    outcomes_have_forms();
    fields_or_refused();
    reads_as_fields();
    plain_entries();
    pieces_add_up();
}

/// Each text is one selector list or is refused for one reason, and both only where the XPath of
/// the list is too long.
pub fn one_reading()
    ensures { ReadingLaw }
{
    laws_below();
}

/// A command whose words are UTF-8 has exactly one plan, whichever tests are stored, so that its output is one list of lines.
pub fn the_plan()
    ensures one { OnePlan }
    ensures some { SomePlan }
{
    laws_below();
}

/// The words have the form of a command exactly where they are the words of that command.
#[tactic(auto, using(crate::proofs::Forms::words_read))]
pub fn words_of_commands()
    ensures { WordsLaw }
{}

/// The script of the bulk page is not refused: it reads as fields, and as entries that are these.
pub fn bulk_script_reads()
    ensures { BulkLaw }
{
    laws_below();
}

/// Where no `{` stands outside quotes in a script, so that it has no block, what is written is by its fields alone: a line for each
/// page with the value of each field, or the script's reason where it is refused as a whole. So it is for the script of the bulk page.
/// It holds whichever tests are stored, and where none are.
pub fn plain_scripts()
    ensures lines { PlainLines }
    ensures refusals { PlainRefusals }
    ensures bulk { PlainBulk }
{
    laws_below();
}
