// Values in a table, each by its name.

ghost use Rattle.std.specs.Prelude.{◌≡◌, map};
ghost use Rattle.gcl_core.specs.text.Names.{same_name, value_named};

fn is_same(name: &[u8], other: &[u8]) -> bool
    ensures { result ≡ same_name name.now other.now }
{
    name == other
}

/// The value beside a name in a table, at the first place at which the name stands; or none.
pub fn value_named<T: Copy>(mut table: &[(&str, T)], name: &[u8]) -> Option<T>
    ensures { result ≡ value_named (map (λ e. (e.0.now, e.1)) table.entry.now) name.now }
{
    while let [entry, rest @ ..] = table {
        if is_same(name, entry.0.as_bytes()) {
            return Some(entry.1);
        }
        table = rest;
    }
    None
}
