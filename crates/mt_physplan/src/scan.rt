/// Asks for the slots in use of one physical table with these identifiers, whose Row is at least
/// `from` and below `upto`. For a conventional table the base table and the chunk are 0.
#[derive(Clone, Copy, Debug, PartialEq, Eq)]
pub struct Scan {
    pub table: u32,
    pub tenant: u32,
    pub base: u32,
    pub chunk: u32,
    pub from: u64,
    pub upto: u64,
}
