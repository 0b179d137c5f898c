use mt_list::List;
use mt_value::Str;

/// Names, in the order written.
pub type Names = List<Str>;

/// A column, perhaps with the name of its table reference in front.
#[derive(Debug, Drop)]
pub struct ColName {
    pub qualifier: Option<Str>,
    pub name: Str,
}
