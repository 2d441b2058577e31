//! The words after a program's name.
use std::env;
use std::io::ErrorKind;
use text_base::NoMemory;

/// The words after the program's name. Where a word is not UTF-8, there are none.
pub fn words_of(rt: &HostRuntime) -> Result<Vec<String>, NoMemory> {
    let mut words = Vec::new(rt.alloc());
    match env::args(rt) {
        Ok(args) => {
            for word in args.skip(1) {
                if words.push(word).is_err() {
                    return Err(NoMemory);
                }
            }
        }
        Err(error) => {
            if error.kind() == ErrorKind::OutOfMemory {
                return Err(NoMemory);
            }
        }
    }
    Ok(words)
}
