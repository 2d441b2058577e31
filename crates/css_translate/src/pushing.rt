ghost use Rattle.std.specs.Prelude.{◌≡◌, ◌++◌, OnOk, string_bytes, flat_map};

use text_base::NoMemory;

/// Appends the text.
pub fn push(out: &mut String, text: &str) -> Result<(), NoMemory>
    ensures { OnOk result (string_bytes out.new ≡ string_bytes out.old ++ text.now) }
{
    match out.push_str(text) {
        Ok(()) => Ok(()),
        Err(_) => Err(NoMemory),
    }
}

/// Appends the texts, one after another.
pub fn push_all(out: &mut String, pieces: &[&str]) -> Result<(), NoMemory>
    ensures { OnOk result (string_bytes out.new ≡ string_bytes out.old ++ flat_map (λ x. x.now) pieces.now) }
{
    for piece in pieces {
        push(out, *piece)?;
    }
    Ok(())
}
