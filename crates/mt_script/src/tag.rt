ghost use Rattle.std.specs.Prelude.{◌≡◌, ◌≤◌, ◌<◌, ◌^◌, ℕ, not, List, drop, length, decimal, IfSome, IfNone};
ghost use Rattle.std.specs.Str.{IsUtf8};
ghost use Rattle.std.specs.List.{prefix_len};
ghost use Rattle.mt_tree.specs.declared.who.Who.{Who};
ghost use Rattle.mt_script.specs.Lines.{is_blank as is_blank_byte};
ghost use Rattle.mt_script.specs.Tags.{HasTag, CanSend, tag_bytes};

use crate::blank::is_blank;
use crate::number::read_number;
use mt_tree::Who;
use std::str::from_utf8;

/// Who sent a line, and where the text behind the tag begins.
#[derive(Clone, Copy, Debug, PartialEq, Eq)]
pub struct Tagged {
    pub who: Who,
    pub from: usize,
}

/// Reads the tag in front of a line: `@admin`, or `@` and a tenant's number, up to a space, a tab or
/// the line's end. None exactly where the line is not UTF-8 or has no tag. It takes no memory.
pub fn split_tag(line: &[u8]) -> Option<Tagged>
    ensures found { IfSome result (λ tagged. (tagged.from ≤ length line.now) × HasTag line.now tagged.who (drop tagged.from line.now)) }
    ensures text { IfSome result (λ tagged. IsUtf8 (drop tagged.from line.now)) }
    ensures none { IfNone result ((who : Who) (text : List ℕ) → HasTag line.now who text → ⊥) }
{
    if from_utf8(line).is_err() {
        return None;
    }
    let from = tag_end(line);
    let who = sender(&line[..from])?;
    Some(Tagged { who, from })
}

/// A line has at most one tag, and one text behind it.
pub fn tags_are_determined()
    ensures { (line text other : List ℕ) (who someone : Who)
        → HasTag line who text → HasTag line someone other → (who ≡ someone) × (text ≡ other) }
{}

// How many bytes stand in front of the first space or tab.
fn tag_end(line: &[u8]) -> usize
    ensures { result ≡ prefix_len (λ byte. not (is_blank_byte byte)) line.now }
{
    line.iter().take_while(|byte| !is_blank(**byte)).count()
}

// Who has this tag.
fn sender(tag: &[u8]) -> Option<Who>
    ensures found { IfSome result (λ who. (tag.now ≡ tag_bytes who) × CanSend who) }
    ensures none { IfNone result ((who : Who) → CanSend who → tag.now ≡ tag_bytes who → ⊥) }
{
    if tag == b"@admin".as_slice() {
        return Some(Who::Admin);
    }
    let number = tenant(tag.strip_prefix(b"@")?)?;
    Some(Who::Tenant(number))
}

// The tenant of this number, which is from 1 to 4,294,967,295 and has no leading zero.
fn tenant(digits: &[u8]) -> Option<u32>
    ensures found { IfSome result (λ n. (digits.now ≡ decimal n) × (1 ≤ n)) }
    ensures none { IfNone result ((n : ℕ) → 1 ≤ n → n < 2 ^ 32 → digits.now ≡ decimal n → ⊥) }
{
    let number = read_number(digits)?;
    if number == 0 {
        return None;
    }
    u32::try_from(number).ok()
}
