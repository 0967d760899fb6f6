/// A set register, lent: a config value by its name, the wanted expression, the state of a key, or a
/// URL that is present.
#[derive(Clone, Copy, Debug, PartialEq, Eq)]
pub enum RegLine<'a> {
    Config { name: &'a [u8], value: &'a [u8] },
    Wanted { value: &'a [u8] },
    State { key: &'a [u8], value: &'a [u8] },
    Url { key: &'a [u8], url: &'a [u8] },
}
