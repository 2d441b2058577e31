use text_base::{Seq, Txt};

/// A page that lies in memory: its name and its bytes, as a file would have them.
#[derive(Drop)]
pub struct PageFile {
    /// What it is begun by.
    pub name: Txt,
    /// What reads give.
    pub bytes: Seq<u8>,
}
