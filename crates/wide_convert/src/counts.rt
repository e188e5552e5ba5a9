//! How many items units are.

ghost use Rattle.std.specs.Prelude.{◌≡◌, false, length};
ghost use Rattle.wide_forms.specs.EncodingForm.{Utf16};
ghost use Rattle.wide_forms.specs.Items.{IsWellFormed, items};

use wide_repair::char_count;
use wide_unit::split_first;

// Returns how many items the units are. The count is vectorized if the units are known to be well formed.
pub(crate) fn item_count(units: &[u16], may_be_ill_formed: bool) -> usize
    requires { may_be_ill_formed ≡ false → IsWellFormed Utf16 units.now }
    ensures { result ≡ length (items Utf16 units.now) }
{
    if !may_be_ill_formed {
        return char_count(units);
    }
    let mut rest = units;
    let mut count = 0;
    while let Some((_item, tail)) = split_first(rest) {
        rest = tail;
        count += 1;
    }
    count
}
