ghost use Rattle.std.specs.Prelude.{◌≡◌, ◌↔◌, ◌≤◌, IsTrue, length};
ghost use Rattle.mt_rowfile.specs.Layouts.{body_width};
ghost use Rattle.mt_rowfile.specs.Slots.{IsBody, IsNameField};

/// The most bytes that a name in the catalogue has.
const NAME_SIZE: usize = 30;

/// Whether a slot of the catalogue can be read, by its table and what stands behind its mark.
pub(crate) fn check_body(table: u8, body: &[u8]) -> bool
    requires { length body.now ≡ body_width table }
    ensures { IsTrue result ↔ IsBody table body.now }
{
    match table {
        8 => check_name(&body[9..]),
        9 => check_column(body),
        _ => true,
    }
}

/// Whether a column can be read: its flags and its name.
fn check_column(body: &[u8]) -> bool
    requires { length body.now ≡ 44 }
    ensures { IsTrue result ↔ IsBody 9 body.now }
{
    if body[11] > 1 || body[12] > 1 {
        return false;
    }
    check_name(&body[13..])
}

/// Whether a name behind its length can be read.
fn check_name(bytes: &[u8]) -> bool
    requires { 31 ≤ length bytes.now }
    ensures { IsTrue result ↔ IsNameField bytes.now }
{
    let count = usize::from(bytes[0]);
    if count == 0 || count > NAME_SIZE {
        return false;
    }
    bytes[1..1 + count].is_ascii()
}
