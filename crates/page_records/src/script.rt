use query_script::{ChainStep, Field, FieldValue, Reason};
use text_base::{Seq, Txt};

/// What a text asks of each page.
#[derive(Debug, Drop)]
pub struct RecordScript {
    /// In the order of the text, at most 32.
    pub entries: Seq<Entry>,
}

/// A field, or a block that gives a record for each row that its steps give.
#[derive(Debug, Drop)]
pub enum Entry {
    Plain(Field),
    Each(Block),
}

/// A name, the steps that give the rows, and the fields of each row's record.
#[derive(Debug, Drop)]
pub struct Block {
    /// An ASCII letter or `_`, then letters, digits and `_`; empty where the reason is `Name`.
    pub name: Txt,
    /// Queries of which rows come; empty where the block is refused.
    pub steps: Seq<ChainStep>,
    /// From 1 to 32, with names that differ; empty where the block is refused.
    pub fields: Seq<Field>,
    /// Why the block is refused.
    pub refused: Option<Reason>,
}

/// What an entry gives of a page: the value of a field, a record for each row of a block, with a
/// value for each of its fields, or why the block has none.
#[derive(Debug, Drop)]
pub enum EntryValue {
    Plain(FieldValue),
    Each(Seq<Seq<FieldValue>>),
    Refused(Reason),
}
