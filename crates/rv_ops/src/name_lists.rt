//! Lists of names, which are read in either letter case.
ghost use Rattle.std.specs.Prelude.{◌≡◌, map};
ghost use Rattle.std.specs.Str.{str_eq_ignore_ascii_case};
ghost use Rattle.rv_ops.specs.Names.{first_named};

/// Whether a text is the name, but for letter case.
pub fn is_name(text: &str, name: &[u8]) -> bool
    ensures { result ≡ str_eq_ignore_ascii_case text.now name.now }
{
    text.as_bytes().eq_ignore_ascii_case(name)
}

/// What stands beside the first of the texts that is the name, but for letter case.
pub fn first_named<T: Copy>(rows: &[(T, &str)], name: &[u8]) -> Option<T>
    ensures { result ≡ first_named (map (λ row. (row.0, row.1.now)) rows.entry.now) name.now }
{
    rows.iter()
        .find(|row| is_name(row.1, name))
        .map(|row| row.0)
}
