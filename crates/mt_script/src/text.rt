ghost use Rattle.std.specs.Prelude.{◌≡◌};
ghost use Rattle.mt_tree.specs.Replies.{refusal_text, reply_bytes};

use mt_tree::{Code, Reply};

/// The whole reply of a refusal, `error Enn text` with its line feed.
#[tactic(auto, unfolding(mt_tree::specs::Replies::refusal_text))]
pub fn code_text(code: Code) -> &'static str
    ensures { result.now ≡ refusal_text code }
{
    match code {
        Code::LineTooLong => "error E01 line too long\n",
        Code::LineNotReadable => "error E02 line not readable\n",
        Code::UnknownTenant => "error E03 unknown tenant\n",
        Code::NotServed => "error E09 not served here\n",
        Code::Syntax => "error E10 syntax\n",
        Code::UnknownTable => "error E11 unknown table\n",
        Code::UnknownColumn => "error E12 unknown column\n",
        Code::AmbiguousName => "error E13 ambiguous name\n",
        Code::TypesDoNotFit => "error E14 types do not fit\n",
        Code::Grouping => "error E15 grouping\n",
        Code::NumberOutside64Bits => "error E16 number outside 64 bits\n",
        Code::TextTooLong => "error E20 text too long\n",
        Code::NumberOutOfRange => "error E21 number out of range\n",
        Code::NullNotAllowed => "error E22 null not allowed\n",
        Code::DuplicateKey => "error E23 duplicate key\n",
        Code::QuotaFull => "error E30 quota full\n",
        Code::RowNumbersUsedUp => "error E31 row numbers used up\n",
        Code::NameExists => "error E40 name exists\n",
        Code::ColumnNameTaken => "error E41 column name taken\n",
        Code::UnknownName => "error E42 unknown name\n",
        Code::Limit => "error E43 limit\n",
        Code::QuotaBelowRows => "error E44 quota below rows kept\n",
        Code::QuotasTooLarge => "error E45 quotas too large\n",
        Code::FoldNotValid => "error E60 fold not valid\n",
        Code::TableIsMoving => "error E61 table is moving\n",
        Code::TableIsNotMoving => "error E62 table is not moving\n",
        Code::TooManyChunks => "error E63 too many chunks\n",
        Code::TransactionIsOpen => "error E65 transaction is open\n",
        Code::TransactionAlreadyOpen => "error E70 transaction already open\n",
        Code::NoTransaction => "error E71 no transaction\n",
    }
}

/// What a reply prints, its last line feed included.
pub fn reply_bytes(reply: &Reply) -> &[u8]
    ensures { result.now ≡ reply_bytes reply.now }
{
    match reply {
        Reply::Text(text) => text.as_bytes(),
        Reply::Refused(code) => code_text(*code).as_bytes(),
        Reply::Memory => b"error E90 no memory\n",
    }
}
