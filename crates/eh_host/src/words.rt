// The words of the command line.
use std::env;
use std::io::ErrorKind;
use std::rt::Env;

/// The words behind the program's name; none where memory ran out. A word that is no UTF-8 is no command's, so there are no words then.
pub fn words_of<R: Env + AllocGlobal>(rt: &R) -> Option<Vec<String>> {
    let args = match env::args(rt) {
        Ok(args) => args,
        Err(e) if e.kind() == ErrorKind::InvalidData => return Some(Vec::new(rt.alloc())),
        Err(_) => return None,
    };
    let mut words = Vec::new(rt.alloc());
    for word in args.skip(1) {
        if words.push(word).is_err() {
            return None;
        }
    }
    Some(words)
}
