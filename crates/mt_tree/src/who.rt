/// Who sent a line: what its tag says.
#[derive(Clone, Copy, Debug, PartialEq, Eq)]
pub enum Who {
    Admin,
    Tenant(u32),
}
