ghost use Rattle.std.specs.Prelude.{◌≡◌, [], ◌∷◌, ◌++◌, IfOk, OnOk, OnErr};
ghost use Rattle.std.specs.Fmt.{decimal, signed_decimal};
ghost use Rattle.mt_value.specs.Printed.{value_text, doubled};

use crate::Code;
use mt_value::{Value, split_quote};
use std::alloc::{AllocError, Global};
use std::marker::Model;

/// The bytes of a reply, collected in order.
#[derive(Debug, Drop)]
pub struct ReplyText {
    bytes: Vec<u8>,
}

impl Model for ReplyText {
    ghost use Rattle.std.specs.Prelude.{List, ℕ};

    ghost Value = { List ℕ };

    ghost view = { λ text. text.bytes.items };
}

impl ReplyText {
    /// A reply of no bytes. It takes no memory, and later growth takes it from `alloc`.
    pub fn new(alloc: Global) -> ReplyText
        ensures { result ≡ [] }
    {
        ReplyText {
            bytes: Vec::new(alloc),
        }
    }

    /// A reply of these bytes. `AllocError` is want of memory.
    pub fn from_bytes(alloc: Global, bytes: &[u8]) -> Result<ReplyText, AllocError>
        ensures { IfOk result (λ text. text ≡ bytes.now) }
    {
        Ok(ReplyText {
            bytes: Vec::from_slice(alloc, bytes)?,
        })
    }

    /// Adds bytes at the end. `AllocError` is want of memory, and leaves the reply as it was.
    pub fn push_bytes(&mut self, bytes: &[u8]) -> Result<(), AllocError>
        ensures ok { OnOk result (self.new ≡ self.old ++ bytes.now) }
        ensures err { OnErr result (self.new ≡ self.old) }
    {
        self.bytes.extend_from_slice(bytes)
    }

    /// Adds a value as it is printed: `NULL`, a decimal number, or a text in single quotes with its
    /// quotes doubled. `AllocError` is want of memory; a part of the value may then stand at the end.
    pub fn push_value(&mut self, value: &Value) -> Result<(), AllocError>
        ensures { OnOk result (self.new ≡ self.old ++ value_text value.now) }
    {
        match value {
            Value::Null => self.push_bytes(b"NULL"),
            Value::Int(number) => self.push_number(*number),
            Value::Text(text) => self.push_quoted(text.as_str()),
        }
    }

    /// Adds a count in decimal. `AllocError` is want of memory, and leaves the reply as it was.
    pub fn push_count(&mut self, count: u64) -> Result<(), AllocError>
        ensures ok { OnOk result (self.new ≡ self.old ++ decimal count) }
        ensures err { OnErr result (self.new ≡ self.old) }
    {
        let mut digits = itoa::Buffer::new();
        self.push_bytes(digits.format(count).as_bytes())
    }

    // Adds a number in decimal.
    fn push_number(&mut self, number: i64) -> Result<(), AllocError>
        ensures { OnOk result (self.new ≡ self.old ++ signed_decimal number) }
    {
        let mut digits = itoa::Buffer::new();
        self.push_bytes(digits.format(number).as_bytes())
    }

    // Adds a text in single quotes: the pieces between its quotes, with each quote twice.
    fn push_quoted(&mut self, text: &str) -> Result<(), AllocError>
        ensures { OnOk result (self.new ≡ self.old ++ 39 ∷ (doubled text.now ++ 39 ∷ [])) }
    {
        self.push_bytes(b"'")?;
        let mut rest = text;
        while let Some((front, behind)) = split_quote(rest) {
            self.push_bytes(front.as_bytes())?;
            self.push_bytes(b"''")?;
            rest = behind;
        }
        self.push_bytes(rest.as_bytes())?;
        self.push_bytes(b"'")
    }

    /// The bytes so far.
    pub fn as_bytes(&self) -> &[u8]
        ensures { result.now ≡ self.now }
    {
        self.bytes.as_slice()
    }
}

/// The answer to one line.
#[derive(Debug, Drop)]
pub enum Reply {
    /// What the line asked for, with the last line `ok` or `ok n`.
    Text(ReplyText),
    /// The line was refused, and changed nothing.
    Refused(Code),
    /// There was not memory enough, and the line changed nothing.
    Memory,
}
