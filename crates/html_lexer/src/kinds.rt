use text_base::{ByteKind, is_letter, is_white};

/// A byte of a tag's name: a letter, a digit, `-`, `_`, `:`, `.` or a byte of a character past ASCII.
#[derive(Clone, Copy)]
pub struct NameByte;

impl ByteKind for NameByte {
    ghost use Rattle.html_lexer.specs.Kinds.{is_name_byte, name_wide};

    ghost test = { λ _. is_name_byte };

    fn has(&self, byte: u8) -> bool {
        is_letter(byte)
            || (byte >= b'0' && byte <= b'9')
            || byte == b'-'
            || byte == b'_'
            || byte == b':'
            || byte == b'.'
            || byte >= 128
    }

    ghost keeps_characters = { λ _. name_wide };
}

/// White space or a slash.
#[derive(Clone, Copy)]
pub struct Gap;

impl ByteKind for Gap {
    ghost use Rattle.html_lexer.specs.Kinds.{is_gap, gap_narrow};

    ghost test = { λ _. is_gap };

    fn has(&self, byte: u8) -> bool {
        is_white(byte) || byte == b'/'
    }

    ghost keeps_characters = { λ _. gap_narrow };
}

/// A byte of an attribute's name: any but white space, `/`, `>`, `=`, `"`, `'` and `<`.
#[derive(Clone, Copy)]
pub struct AttrByte;

impl ByteKind for AttrByte {
    ghost use Rattle.html_lexer.specs.Kinds.{is_attr_byte, attr_wide};

    ghost test = { λ _. is_attr_byte };

    fn has(&self, byte: u8) -> bool {
        !(is_white(byte)
            || byte == b'/'
            || byte == b'>'
            || byte == b'='
            || byte == b'"'
            || byte == b'\''
            || byte == b'<')
    }

    ghost keeps_characters = { λ _. attr_wide };
}

/// A byte of a value without quotes: any but white space and `>`.
#[derive(Clone, Copy)]
pub struct BareByte;

impl ByteKind for BareByte {
    ghost use Rattle.html_lexer.specs.Kinds.{is_bare_byte, bare_wide};

    ghost test = { λ _. is_bare_byte };

    fn has(&self, byte: u8) -> bool {
        !(is_white(byte) || byte == b'>')
    }

    ghost keeps_characters = { λ _. bare_wide };
}
