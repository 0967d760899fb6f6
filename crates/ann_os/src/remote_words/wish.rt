// What the words ask for. A host starts a remote without words.
ghost use Rattle.std.specs.Prelude.{◌≡◌, map, string_bytes};
ghost use Rattle.ann_os.specs.RemoteWords.Wishes.{wish_of, wish_of_one};

use std::env;
use std::io::ErrorKind;
use std::rt::Env;

/// What the words of a remote's program ask for.
#[derive(Clone, Copy)]
pub enum Wish {
    /// To serve a host: there are no words.
    Serve,
    /// `--help` alone.
    Help,
    /// `--version` alone.
    Version,
    /// Words that such a program doesn't know.
    Refused,
}

/// What these words ask for, without the program's own name.
pub fn wish_of(words: &[String]) -> Wish
    ensures { result ≡ wish_of (map string_bytes words.now) }
{
    match words {
        [] => Wish::Serve,
        [word] => wish_of_one(word.as_str()),
        _ => Wish::Refused,
    }
}

fn wish_of_one(word: &str) -> Wish
    ensures { result ≡ wish_of_one word.now }
{
    match word {
        "--help" => Wish::Help,
        "--version" => Wish::Version,
        _ => Wish::Refused,
    }
}

/// What the program's arguments ask for. Arguments that aren't UTF-8 are refused. `None`: out of memory.
pub fn read_wish<R: Env + AllocGlobal>(rt: &R) -> Option<Wish> {
    let args = match env::args(rt) {
        Ok(args) => args,
        Err(error) if error.kind() == ErrorKind::OutOfMemory => return None,
        Err(_) => return Some(Wish::Refused),
    };
    let mut words = Vec::new(rt.alloc());
    for word in args.skip(1) {
        if words.push(word).is_err() {
            return None;
        }
    }
    Some(wish_of(&words))
}
