// The hash functions that backends name.
ghost use Rattle.std.specs.Prelude.{◌≡◌, ◌≢◌, ◌↔◌, Some, None, MatchOption, IsTrue, option_map, true};
ghost use Rattle.ann_digest.specs.declared.hash_kind.Naming.{Naming};
ghost use Rattle.ann_digest.specs.HashKinds.{kind_of, naming_backend, IsNamed, IsRest};

/// A hash function that a backend may name.
#[derive(Clone, Copy, Debug, PartialEq, Eq)]
pub enum HashKind {
    Md5,
    Sha1,
    Sha224,
    Sha256,
    Sha384,
    Sha512,
}

/// How a backend names a key.
#[derive(Clone, Copy, Debug, PartialEq, Eq)]
pub struct Naming {
    /// The hash function whose digest the name begins with.
    pub kind: HashKind,
    /// Whether the extension of a file may follow the digest.
    pub extended: bool,
}

fn kind_of(backend: &[u8]) -> Option<HashKind>
    ensures { result ≡ kind_of backend.now }
{
    match backend {
        b"MD5" => Some(HashKind::Md5),
        b"SHA1" => Some(HashKind::Sha1),
        b"SHA224" => Some(HashKind::Sha224),
        b"SHA256" => Some(HashKind::Sha256),
        b"SHA384" => Some(HashKind::Sha384),
        b"SHA512" => Some(HashKind::Sha512),
        _ => None,
    }
}

/// The way that the backend names a key; None where it names none by a digest.
pub fn naming_of(backend: &[u8]) -> Option<Naming>
    ensures { MatchOption result ((other : Naming) → backend.now ≢ naming_backend other) (λ naming. backend.now ≡ naming_backend naming) }
{
    match kind_of(backend) {
        Some(kind) => Some(Naming {
            kind,
            extended: false,
        }),
        None => match backend.strip_suffix(b"E") {
            Some(front) => extended_naming(front),
            None => None,
        },
    }
}

fn extended_naming(front: &[u8]) -> Option<Naming>
    ensures { result ≡ option_map (λ kind. record { kind = kind; extended = true }) (kind_of front.now) }
{
    kind_of(front).map(|kind| Naming {
        kind,
        extended: true,
    })
}

/// Whether the name is the text, or the text and after it what the naming allows.
pub fn is_named(name: &[u8], text: &[u8], extended: bool) -> bool
    ensures { IsTrue result ↔ IsNamed extended text.now name.now }
{
    match name.strip_prefix(text) {
        Some(rest) => is_rest(rest, extended),
        None => false,
    }
}

fn is_rest(rest: &[u8], extended: bool) -> bool
    ensures { IsTrue result ↔ IsRest extended rest.now }
{
    match rest {
        [] => true,
        [first, ..] => extended && *first == b'.',
    }
}
