ghost use Rattle.std.specs.Prelude.{◌≡◌};
ghost use Rattle.std.specs.List.{list_all};
ghost use Rattle.mt_script.specs.Lines.{is_silent, is_blank as is_blank_byte};

/// Whether a line gets no reply: it has no bytes but spaces and tabs, or starts with `--`.
pub fn silent(line: &[u8]) -> bool
    ensures { result ≡ is_silent line.now }
{
    all_blank(line) || line.starts_with(b"--")
}

/// Whether there are no bytes but spaces and tabs.
fn all_blank(bytes: &[u8]) -> bool
    ensures { result ≡ list_all is_blank_byte bytes.now }
{
    bytes.iter().all(|byte| is_blank(*byte))
}

pub(crate) fn is_blank(byte: u8) -> bool
    ensures { result ≡ is_blank_byte byte }
{
    byte == b' ' || byte == b'\t'
}
