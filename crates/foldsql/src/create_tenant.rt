ghost use Rattle.std.specs.Prelude.{◌≡◌, ℕ, ◌<◌, ◌≤◌, ◌^◌, ◌↔◌, IsTrue, ◌++◌, List, [], IfSome, IfNone, IsSomeAnd, decimal, take_while};
ghost use Rattle.std.specs.Char.{is_ascii_digit};
ghost use Rattle.std.specs.List.{prefix_len};
ghost use Rattle.mt_model.specs.FirstPath.{SpellsCreateTenant};

use mt_script::read_number;

// One more than the greatest name of a tenant.
const TENANT_END: u64 = 1 << 32;

// The greatest number of rows that a tenant may be given.
const QUOTA_MAX: u64 = 65_536;

// The tenant and the quota of the command that a line says, in the one form that `run` serves; None
// where it has not that form.
pub(crate) fn create_tenant(line: &[u8]) -> Option<(u64, u64)>
    ensures found { IfSome result (λ made. SpellsCreateTenant line.now made.0 made.1) }
    ensures none { IfNone result ((tenant quota : ℕ) → SpellsCreateTenant line.now tenant quota → ⊥) }
{
    let (tenant, behind) = number_after(line, b"@admin CREATE TENANT ")?;
    let (quota, rest) = number_after(behind, b" QUOTA ")?;
    if !is_allowed(tenant, quota) || !rest.is_empty() {
        return None;
    }
    Some((tenant, quota))
}

// Whether both numbers are inside their limits.
fn is_allowed(tenant: u64, quota: u64) -> bool
    ensures { IsTrue result ↔ ((1 ≤ tenant) × (tenant < 2 ^ 32) × (1 ≤ quota) × (quota ≤ 65536)) }
{
    1 <= tenant && tenant < TENANT_END && 1 <= quota && quota <= QUOTA_MAX
}

// The number behind these words, in decimal without a leading zero, and what stands behind its digits.
fn number_after<'a>(bytes: &'a [u8], words: &[u8]) -> Option<(u64, &'a [u8])>
    ensures found { IfSome result (λ r. bytes.now ≡ words.now ++ (decimal r.0 ++ r.1.now)) }
    ensures taken { (n : ℕ) (rest : List ℕ) → n < 2 ^ 32 → take_while is_ascii_digit rest ≡ [] → bytes.now ≡ words.now ++ (decimal n ++ rest) → IsSomeAnd result (λ r. (r.0 ≡ n) × (r.1.now ≡ rest)) }
{
    let behind = bytes.strip_prefix(words)?;
    let (digits, rest) = behind.split_at(digit_count(behind));
    let number = read_number(digits)?;
    Some((number, rest))
}

// How many digits stand at the front.
fn digit_count(bytes: &[u8]) -> usize
    ensures { result ≡ prefix_len is_ascii_digit bytes.now }
{
    bytes
        .iter()
        .take_while(|byte| byte.is_ascii_digit())
        .count()
}
