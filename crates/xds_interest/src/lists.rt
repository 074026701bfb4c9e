// The lists of a request, text by text.
ghost use Rattle.std.specs.Prelude.{◌≡◌, map, IfOk, IfErr};
ghost use Rattle.std.specs.String.{string_bytes};
ghost use Rattle.std.specs.List.{list_any};
ghost use Rattle.std.specs.List.Sorted.{IsStrictlySortedBy};
ghost use Rattle.std.specs.FinSet as set;
ghost use Rattle.xds_resource.specs.Writes.{text_cmp};
ghost use Rattle.xds_resource.specs.declared.refusal.Refusal.TheVariants.{OutOfMemory};
ghost use Rattle.xds_interest.specs.Interests.{star_text, is_star, has_name};

use std::alloc::Global;
use xds_resource::{Refusal, TypeName};

// rule: star-covers
// Whether a text in a request of the type is the star.
pub(crate) fn is_star(kind: TypeName, text: &str) -> bool
    ensures { result ≡ is_star kind text.now }
{
    kind.is_complete() && text == "*"
}

// Whether a list has a text.
pub(crate) fn has_text(texts: &[String], text: &str) -> bool
    ensures { result ≡ has_name (map string_bytes texts.now) text.now }
{
    for each in texts {
        if text == each.as_str() {
            return true;
        }
    }
    false
}

// Whether a list has the star's text.
pub(crate) fn has_star_text(texts: &[String]) -> bool
    ensures { result ≡ has_name (map string_bytes texts.now) star_text }
{
    has_text(texts, "*")
}

// rule: star-covers
// Whether a list in a request of the type has the star.
pub(crate) fn has_star(kind: TypeName, texts: &[String]) -> bool
    ensures { result ≡ list_any (is_star kind) (map string_bytes texts.now) }
{
    kind.is_complete() && has_star_text(texts)
}

// The texts of a list, as they stand there.
fn borrowed(alloc: Global, texts: &[String]) -> Result<Vec<&str>, Refusal>
    ensures ok { IfOk result (λ v. map (λ s. s.now) v.items ≡ map string_bytes texts.now) }
    ensures err { IfErr result (λ e. e ≡ OutOfMemory) }
{
    let mut all = Vec::with_capacity(alloc, texts.len())?;
    for text in texts {
        all.push(text.as_str())?;
    }
    Ok(all)
}

// rule: listed-names
/// The texts of a list in ascending byte order, each once, of which none is copied. Refused only by `OutOfMemory`.
pub fn in_order(alloc: Global, texts: &[String]) -> Result<Vec<&str>, Refusal>
    ensures texts { IfOk result (λ v. set.from_list {R = text_cmp} (map (λ s. s.now) v.items) ≡ set.from_list (map string_bytes texts.now)) }
    ensures ascending { IfOk result (λ v. IsStrictlySortedBy text_cmp (map (λ s. s.now) v.items)) }
    ensures err { IfErr result (λ e. e ≡ OutOfMemory) }
{
    let mut ordered = borrowed(alloc, texts)?;
    ordered.sort_unstable();
    ordered.dedup();
    Ok(ordered)
}
