// The words of the command line, as far as standard error speaks of them.

/// The name of an option that may have its value after a `=`.
pub(crate) fn name_of(word: &str) -> &str {
    match word.split_once('=') {
        Some((name, _)) => name,
        None => word,
    }
}

/// Whether an option of that name is among the words.
pub(crate) fn is_given(words: &[String], name: &str) -> bool {
    words.iter().any(|word| name_of(word.as_str()) == name)
}

/// The value of that option of `run`, if it is there.
pub(crate) fn value_of<'a>(words: &'a [String], name: &str) -> Option<&'a str> {
    for at in 0..words.len() {
        let word = words[at].as_str();
        match word.split_once('=') {
            Some((other, value)) if other == name => return Some(value),
            None if word == name && at + 1 < words.len() => return Some(words[at + 1].as_str()),
            _ => {}
        }
    }
    None
}

/// The program that the words name, of a command that starts one.
pub(crate) fn program_of(words: &[String]) -> Option<&str> {
    let [command, program, ..] = words else {
        return None;
    };
    match command.as_str() {
        "check" | "info" | "init" => Some(program.as_str()),
        "run" => value_of(words, "--program"),
        _ => None,
    }
}
