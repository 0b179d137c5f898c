/// Why a line is refused: one variant for each refusal number, in the order of the numbers. Want of
/// memory (E90) is no refusal: `Reply::Memory` says it.
#[derive(Clone, Copy, Debug, PartialEq, Eq)]
pub enum Code {
    /// E01
    LineTooLong,
    /// E02
    LineNotReadable,
    /// E03
    UnknownTenant,
    /// E09
    NotServed,
    /// E10
    Syntax,
    /// E11
    UnknownTable,
    /// E12
    UnknownColumn,
    /// E13
    AmbiguousName,
    /// E14
    TypesDoNotFit,
    /// E15
    Grouping,
    /// E16
    NumberOutside64Bits,
    /// E20
    TextTooLong,
    /// E21
    NumberOutOfRange,
    /// E22
    NullNotAllowed,
    /// E23
    DuplicateKey,
    /// E30
    QuotaFull,
    /// E31
    RowNumbersUsedUp,
    /// E40
    NameExists,
    /// E41
    ColumnNameTaken,
    /// E42
    UnknownName,
    /// E43
    Limit,
    /// E44
    QuotaBelowRows,
    /// E45
    QuotasTooLarge,
    /// E60
    FoldNotValid,
    /// E61
    TableIsMoving,
    /// E62
    TableIsNotMoving,
    /// E63
    TooManyChunks,
    /// E65
    TransactionIsOpen,
    /// E70
    TransactionAlreadyOpen,
    /// E71
    NoTransaction,
}
