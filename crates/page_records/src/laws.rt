//! Laws of the definitions that the contracts cite.
ghost use Rattle.page_records.specs.Laws.{HasOneFault, HasOneReading, HasReading, IsReadOrRefused, IsRefusedAsFields, ReadsAsFields};
ghost use Rattle.page_records.specs.Laws.{EntriesNamed, EntriesRun, EntriesStored, SelectorsAreTexts};
ghost use Rattle.page_records.specs.Laws.{AnEntryValue, OneEntryValue, OutcomeHasForm, PlainLine, PlainRefusal, PlainValue};

/// Where tests are stored, each text reads as one list of entries or is refused as a whole, for one
/// reason and not both.
#[tactic(auto, using(crate::proofs::OneReading::one_fault, crate::proofs::OneReading::read_or_refused))]
pub fn read_or_refused()
    ensures one_reading { HasOneReading }
    ensures one_fault { HasOneFault }
    ensures not_both { IsReadOrRefused }
    ensures some { HasReading }
{}

/// A text in which no `{` stands outside quotes reads as the fields that it is where no block may
/// stand, and is refused as there.
pub fn reads_as_fields()
    ensures fields { ReadsAsFields }
    ensures fault { IsRefusedAsFields }
{}

/// Each entry of a script that is UTF-8 can be run, the tests that it keeps items by are stored, and
/// the names of the fields of each block differ.
pub fn entries_run()
    ensures run { EntriesRun }
    ensures stored { EntriesStored }
    ensures named { EntriesNamed }
{}

/// The selectors of a script that is UTF-8 are UTF-8.
pub fn selectors_are_texts()
    ensures { SelectorsAreTexts }
{}

/// On a document an entry has at most one value where the same tests are stored, and one that can be
/// run has one.
pub fn one_entry_value()
    ensures one { OneEntryValue }
    ensures some { AnEntryValue }
{}

/// The value of an entry has its form: a line can be written of it.
pub fn outcomes_have_forms()
    ensures { OutcomeHasForm }
{}

/// Entries that are all fields have the values and the line of these fields, and the line holds a
/// refusal where that of the fields does.
pub fn plain_entries()
    ensures line { PlainLine }
    ensures refusal { PlainRefusal }
    ensures value { PlainValue }
{}
