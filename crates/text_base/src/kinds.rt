ghost use Rattle.std.specs.Prelude.{◌≡◌, ◌<◌, ◌≤◌, true, length, slice_index};
ghost use Rattle.text_base.specs.Names.{is_name_start, is_name_byte};
ghost use Rattle.text_base.specs.Text.{is_space4, is_space5, is_digit, is_letter, not_space4, run_end, IsPlace};

/// A kind of bytes. All bytes past ASCII are of the kind, or none is, so that a run of them ends
/// between characters.
pub trait ByteKind {
    ghost use Rattle.std.specs.Prelude.{ℕ, Bool, ◌⊎◌};
    ghost use Rattle.text_base.specs.Text.{IsWide, IsNarrow};

    ghost test: { Self → ℕ → Bool };

    /// Whether a byte is of the kind.
    fn has(&self, byte: u8) -> bool
        ensures { result ≡ test self.now byte };

    ghost keeps_characters: { (kind : Self) → IsWide (test kind) ⊎ IsNarrow (test kind) };
}

/// A space, a tab, a line feed, a carriage return or a form feed.
#[derive(Clone, Copy)]
pub struct Space5;

impl ByteKind for Space5 {
    ghost use Rattle.text_base.specs.Text.{is_space5};
    ghost use Rattle.text_base.specs.Kinds.{space5_narrow};

    ghost test = { λ _. is_space5 };

    fn has(&self, byte: u8) -> bool {
        is_white(byte)
    }

    ghost keeps_characters = { λ _. space5_narrow };
}

/// A space, a tab, a carriage return or a line feed.
#[derive(Clone, Copy)]
pub struct Space4;

impl ByteKind for Space4 {
    ghost use Rattle.text_base.specs.Text.{is_space4};
    ghost use Rattle.text_base.specs.Kinds.{space4_narrow};

    ghost test = { λ _. is_space4 };

    fn has(&self, byte: u8) -> bool {
        byte == b' ' || byte == b'\t' || byte == b'\n' || byte == b'\r'
    }

    ghost keeps_characters = { λ _. space4_narrow };
}

/// Any byte but a space, a tab, a carriage return or a line feed.
#[derive(Clone, Copy)]
pub struct NotSpace4;

impl ByteKind for NotSpace4 {
    ghost use Rattle.text_base.specs.Text.{not_space4};
    ghost use Rattle.text_base.specs.Kinds.{not_space4_wide};

    ghost test = { λ _. not_space4 };

    fn has(&self, byte: u8) -> bool {
        !Space4.has(byte)
    }

    ghost keeps_characters = { λ _. not_space4_wide };
}

/// Whether a byte is a space, a tab, a line feed, a carriage return or a form feed.
pub fn is_white(byte: u8) -> bool
    ensures { result ≡ is_space5 byte }
{
    byte == b' ' || byte == b'\t' || byte == b'\n' || byte == b'\r' || byte == 12
}

/// Whether a byte is an ASCII letter.
pub fn is_letter(byte: u8) -> bool
    ensures { result ≡ is_letter byte }
{
    (byte >= b'A' && byte <= b'Z') || (byte >= b'a' && byte <= b'z')
}

/// Whether a byte is an ASCII digit.
pub fn is_digit(byte: u8) -> bool
    ensures { result ≡ is_digit byte }
{
    byte >= b'0' && byte <= b'9'
}

/// Whether a name may begin with the byte: an ASCII letter, `_` or a byte of a character past ASCII.
pub fn is_name_start(byte: u8) -> bool
    ensures { result ≡ is_name_start byte }
{
    is_letter(byte) || byte == b'_' || byte >= 128
}

/// Whether the byte may stand in a name after its start: one with which a name may begin, a digit, `-` or `.`.
pub fn is_name_byte(byte: u8) -> bool
    ensures { result ≡ is_name_byte byte }
{
    is_name_start(byte) || is_digit(byte) || byte == b'-' || byte == b'.'
}

/// Where the run of bytes of a kind ends that begins at a place.
#[tactic(auto, using(crate::proofs::Runs::run_end_step, crate::proofs::Runs::run_end_stop, crate::proofs::Runs::run_end_end, crate::proofs::Boundaries::run_end_place, crate::proofs::Runs::run_end_moves))]
pub fn run_end<K: ByteKind>(text: &str, kind: &K, from: usize) -> usize
    requires { from ≤ length text.now }
    ensures end { result ≡ run_end (K.test kind.now) text.now from }
    ensures order { from ≤ result }
    ensures moves { from < length text.now → K.test kind.now (slice_index text.now from) ≡ true → from < result }
    ensures within { result ≤ length text.now }
    ensures boundary { IsPlace text.now from → IsPlace text.now result }
{
    let bytes = text.as_bytes();
    let mut at = from;
    while at < bytes.len() && kind.has(bytes[at]) {
        at += 1;
    }
    at
}
