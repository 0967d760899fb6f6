// Laws over the definitions, each the contract of a function with nothing to do.
ghost use Rattle.std.specs.Prelude.{◌≡◌, ℕ, Bool, ◌&&◌, List, [], ◌∷◌, IsTrue, bytes_eq, nat_eq, codes, true, false, if◌then◌else◌};
ghost use Rattle.std.specs.List.{list_all, list_any, starts_with};
ghost use Rattle.std.specs.List.Sorted.{IsStrictlySortedBy};
ghost use Rattle.registers.specs.Tables.{by_bytes};
ghost use Rattle.registers.specs.Links.{is_link};
ghost use Rattle.registers.specs.Registers.{RegisterFile, nothing_set, config_of, creds_of, state_of, urls_of, has_url, is_line, is_word, is_key_word, are_creds, set_at, IsKept};
ghost use Rattle.registers.specs.Registers.{with_config, with_creds, with_wanted, with_state, with_url};
ghost use Rattle.registers.specs.RegLines.{ConfigLine, WantedLine, lines_of, set_by_lines, is_fit};
ghost use Rattle.registers.specs.Rows.{configs_and_wanted, key, some_urls};

/// What was set is read until the next setting of that register, and each other one as before.
pub fn what_is_set_is_read()
    ensures config { (r : RegisterFile) (name value other : List ℕ) → config_of (with_config r name value) other ≡ set_at name value other (config_of r other) }
    ensures creds { (r : RegisterFile) (setting user password other : List ℕ) → creds_of (with_creds r setting user password) other ≡ set_at setting (user, password) other (creds_of r other) }
    ensures state { (r : RegisterFile) (key value other : List ℕ) → state_of (with_state r key value) other ≡ set_at key value other (state_of r other) }
    ensures url { (r : RegisterFile) (key url : List ℕ) (present : Bool) (k u : List ℕ) → has_url (with_url r key url present) k u ≡ (if is_link k u (key, url) then present else has_url r k u) }
{}

/// The URLs that are read are the present ones that begin with the prefix, each once, in rising
/// byte order.
pub fn urls_are_those_present()
    ensures present { (r : RegisterFile) (key prefix url : List ℕ) → list_any (bytes_eq url) (urls_of r key prefix) ≡ (has_url r key url && starts_with nat_eq url prefix) }
    ensures rising { (r : RegisterFile) (key prefix : List ℕ) → IsKept r → IsStrictlySortedBy by_bytes (urls_of r key prefix) }
{}

/// The lines, fed to the setters of empty registers, give the same registers, creds left out.
pub fn lines_give_the_registers()
    ensures { (r : RegisterFile) → IsKept r → set_by_lines nothing_set (lines_of r) ≡ record r { creds = [] } }
{}

/// Each setting keeps the order of the registers and which texts stand where.
pub fn settings_are_kept()
    ensures none { IsKept nothing_set }
    ensures config { (r : RegisterFile) (name value : List ℕ) → IsKept r → IsTrue (is_word name) → IsTrue (is_line value) → IsKept (with_config r name value) }
    ensures creds { (r : RegisterFile) (setting user password : List ℕ) → IsKept r → IsTrue (are_creds setting user password) → IsKept (with_creds r setting user password) }
    ensures wanted { (r : RegisterFile) (expression : List ℕ) → IsKept r → IsTrue (is_line expression) → IsKept (with_wanted r expression) }
    ensures state { (r : RegisterFile) (key value : List ℕ) → IsKept r → IsTrue (is_key_word key) → IsTrue (is_line value) → IsKept (with_state r key value) }
    ensures url { (r : RegisterFile) (key url : List ℕ) (present : Bool) → IsKept r → IsTrue (is_key_word key) → IsTrue (is_line url) → IsKept (with_url r key url present) }
{}

/// What is read holds no byte 10, and a user no space; each line's texts are of their classes.
pub fn what_is_read_is_kept()
    ensures config { (r : RegisterFile) (name : List ℕ) → IsKept r → IsTrue (is_line (config_of r name)) }
    ensures user { (r : RegisterFile) (setting : List ℕ) → IsKept r → let login = creds_of r setting in IsTrue (is_word login.0) }
    ensures password { (r : RegisterFile) (setting : List ℕ) → IsKept r → let login = creds_of r setting in IsTrue (is_line login.1) }
    ensures state { (r : RegisterFile) (key : List ℕ) → IsKept r → IsTrue (is_line (state_of r key)) }
    ensures urls { (r : RegisterFile) (key prefix : List ℕ) → IsKept r → IsTrue (list_all is_line (urls_of r key prefix)) }
    ensures lines { (r : RegisterFile) → IsKept r → IsTrue (list_all is_fit (lines_of r)) }
{}

/// Settings one after the other, and what is read then.
pub fn worked_settings()
    ensures urls { urls_of some_urls key (codes "http:") ≡ codes "http://a" ∷ [] }
    ensures other_key { urls_of (with_url nothing_set (codes "WORM--ab") (codes "u") true) (codes "WORM--a") [] ≡ [] }
    ensures empty_config { lines_of (with_config nothing_set (codes "a") []) ≡ ConfigLine (codes "a") [] ∷ [] }
    ensures empty_state { lines_of (with_state (with_state nothing_set (codes "WORM--a") (codes "x")) (codes "WORM--a") []) ≡ [] }
    ensures order { lines_of configs_and_wanted ≡ ConfigLine (codes "a") (codes "2") ∷ ConfigLine (codes "b") (codes "1") ∷ WantedLine (codes "w") ∷ [] }
{}
