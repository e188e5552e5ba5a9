//! Converts a text between encoding schemes piece by piece. The caller keeps the state, which has a constant size.
ghost use Rattle.std.specs.Prelude.{◌≡◌, ◌≤◌, ◌-◌, ◌^◌, IfNone, IfSome, length, take};
ghost use Rattle.wide_convert.specs.Converting.{Converting, Pushes};
ghost use Rattle.widestring_c.specs.Bytes.{is_set};
ghost use Rattle.widestring_c.specs.Converters.{Holds, HoldsNone, IsPushed, IsStarted, conversion_named};

use crate::bytes::is_set;
use crate::state::{WideConverter, converter_in, scheme_named, state_of, strictness_named};
use wide_convert::{ConvertProgress, Converter, ProgressEnd};

// Gives a converter input, which is the last one or not.
fn push(
    converter: &mut Converter,
    input: &[u8],
    is_last: bool,
    output: &mut [u8],
) -> ConvertProgress
    ensures read { result.read ≤ length input.now }
    ensures written { result.written ≤ length output.new }
    ensures pushes { Pushes converter.old converter.new input.now is_last result.read (take result.written output.new) (length output.new - result.written) result.end }
{
    if is_last {
        converter.push_last(input, output)
    } else {
        converter.push(input, output)
    }
}

/// Begins the conversion of a text from one encoding scheme (Unicode Standard, D95 to D101) or WTF-8 to another. The
/// numbers of schemes and policies are defined in `widestring.h`. If `bom` is not 0, a BOM is written first (section
/// 23.8). Returns 1. If a number is invalid, it returns 0 and leaves the state unchanged.
#[unsafe(no_mangle)]
pub extern "C" fn wide_convert_start(
    state: &mut WideConverter,
    from: u32,
    to: u32,
    policy: u32,
    bom: u32,
) -> u32
    ensures started { IfSome (conversion_named from to policy) (λ by. IsStarted by.0 by.1.0 by.1.1 (is_set bom) state.new) }
    ensures valid { IfSome (conversion_named from to policy) (λ by. result ≡ 1) }
    ensures invalid { IfNone (conversion_named from to policy) (result ≡ 0) }
    ensures unchanged { IfNone (conversion_named from to policy) (state.new ≡ state.old) }
{
    let (Some(from), Some(to)) = (scheme_named(from), scheme_named(to)) else {
        return 0;
    };
    let Some(policy) = strictness_named(policy) else {
        return 0;
    };
    let converter = Converter::new(from, to, policy, is_set(bom));
    *state = state_of(converter, 0, ProgressEnd::NeedsInput);
    1
}

/// Converts the next bytes of a text, and writes the text of the characters that these complete at the start of
/// `output`. If `is_last` is not 0, no bytes follow them. It stops at the end of the input, where fewer than eight bytes
/// of the output are left, and under no policy at each fault. Returns how many bytes were written. The new state says
/// how many bytes were read, and why the conversion stopped. Bytes of the output after those written may be
/// overwritten.
///
/// If the state holds no converter, it returns `usize::MAX` and leaves state and output unchanged.
#[unsafe(no_mangle)]
pub extern "C" fn wide_convert_push(
    state: &mut WideConverter,
    input: &[u8],
    is_last: u32,
    output: &mut [u8],
) -> usize
    ensures pushed { (c : Converting) → Holds state.old c → IsPushed c state.new input.now (is_set is_last) result output.new }
    ensures none { HoldsNone state.old → result ≡ 2 ^ 64 - 1 }
    ensures unchanged { HoldsNone state.old → state.new ≡ state.old }
    ensures no_output { HoldsNone state.old → output.new ≡ output.old }
{
    let Some(mut converter) = converter_in(state) else {
        return usize::MAX;
    };
    let progress = push(&mut converter, input, is_set(is_last), output);
    *state = state_of(converter, progress.read, progress.end);
    progress.written
}
