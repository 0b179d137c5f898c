use crate::printer::Printer;
use mt_lexer::Symbol;
use mt_value::Str;
use std::test::Fail;

#[test]
fn prints_one_space_between(rt: HostRuntime) -> Result<(), Fail> {
    let alloc = rt.alloc();
    assert_eq!(rt; Printer::new(alloc).finish()?.as_str(), "");
    let mut printer = Printer::new(alloc);
    for word in ["select", "count", "Select", "selects", "aid_2"] {
        printer.word(word)?;
    }
    for symbol in [
        Symbol::Open,
        Symbol::NotEqual,
        Symbol::LessEqual,
        Symbol::Minus,
    ] {
        printer.symbol(symbol)?;
    }
    for text in ["", "it's", "''", "zoë, 'x'"] {
        printer.quoted(&Str::from_bytes(alloc, text.as_bytes())?)?;
    }
    printer.number(0)?;
    printer.number(18_446_744_073_709_551_615)?;
    assert_eq!(rt;
        printer.finish()?.as_str(),
        "SELECT COUNT Select selects aid_2 ( <> <= - '' 'it''s' '''''' 'zoë, ''x''' 0 18446744073709551615"
    );
    Ok(())
}
