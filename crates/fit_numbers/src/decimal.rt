//! Numbers with a fixed number of decimals, as text.
ghost use Rattle.std.specs.Prelude.{◌≡◌, ◌≤◌, ◌++◌, ◌/◌, ◌%◌, ◌^◌, ℤ, Some, IfSome, OnErr, OnOk, decimal};
ghost use Rattle.arrayvec.specs.ArrayString.{array_string_len};
ghost use Rattle.fit_numbers.specs.FixedText.{StillBegins, fixed_text, fraction, sign, IsIn128};

use crate::digits::{is_below, power, push_fraction, size_of, with_sign};
use crate::put::put_fixed;
use arrayvec::ArrayString;
use itoa::Buffer;
use std::alloc::AllocError;

type Text = ArrayString<48>;

/// The number `value / 10^decimals`.
#[derive(Clone, Copy, PartialEq, Eq, Debug)]
pub struct Fixed {
    pub value: i128,
    pub decimals: u8,
}

/// A text with the sign of a number.
fn signed(value: i128) -> Text
    ensures bytes { result.bytes ≡ sign value }
    ensures short { array_string_len result ≤ 1 }
{
    let mut text = Text::new();
    if value < 0 {
        text.push('-');
    }
    text
}

/// The digits of a number of 64 bits, with a point before its decimals.
fn push_small(text: &mut Text, size: u64, decimals: u8)
    requires few { decimals ≤ 8 }
    requires room { array_string_len text.old ≤ 1 }
    ensures { text.new.bytes ≡ text.old.bytes ++ decimal (size / 10 ^ decimals)
        ++ fraction decimals (size % 10 ^ decimals) }
{
    let unit = power(decimals);
    text.push_str(Buffer::new().format(size / unit));
    push_fraction(text, size % unit, decimals);
}

/// The digits of a number of 128 bits, with a point before its decimals.
fn push_large(text: &mut Text, size: u128, decimals: u8)
    requires few { decimals ≤ 8 }
    requires room { array_string_len text.old ≤ 1 }
    ensures { text.new.bytes ≡ text.old.bytes ++ decimal (size / 10 ^ decimals)
        ++ fraction decimals (size % 10 ^ decimals) }
{
    let unit = power(decimals) as u128;
    text.push_str(Buffer::new().format(size / unit));
    push_fraction(text, (size % unit) as u64, decimals);
}

impl Fixed {
    /// The text of the number: `-` below zero, the whole units without leading zeros, and where there are
    /// decimals a point and all of them. Zero has no sign.
    pub fn print(&self) -> ArrayString<48>
        requires { self.now.decimals ≤ 8 }
        ensures { result.bytes ≡ fixed_text self.now.value self.now.decimals }
    {
        let mut text = signed(self.value);
        let size = self.value.unsigned_abs();
        match u64::try_from(size) {
            Ok(size) => push_small(&mut text, size, self.decimals),
            Err(_) => push_large(&mut text, size, self.decimals),
        }
        text
    }

    /// Puts the text of the number after another text. Out of memory, that text is still the beginning.
    #[tactic(auto, using(crate::proofs::KeptTexts::none_put))]
    pub fn put(&self, text: &mut Vec<u8>) -> Result<(), AllocError>
        requires { self.now.decimals ≤ 8 }
        ensures ok { OnOk result (text.new.items ≡ text.old.items
            ++ fixed_text self.now.value self.now.decimals) }
        ensures kept { OnErr result (StillBegins text.old.items text.new.items) }
    {
        match i64::try_from(self.value) {
            Ok(value) => put_fixed(text, value, self.decimals),
            Err(_) => text.extend_from_slice(self.print().as_str().as_bytes()),
        }
    }

    /// Reads a text that `print` writes with this many decimals. For any other text the result may be any number, or None.
    pub fn read(text: &str, decimals: u8) -> Option<Fixed>
        ensures { (v : ℤ) → IsIn128 v → text.now ≡ fixed_text v decimals
            → result ≡ Some (record { value = v; decimals = decimals }) }
    {
        read_back(text, decimals)
    }

    /// The number that `print` writes as this text with this many decimals; None for any other text.
    pub fn scan(text: &str, decimals: u8) -> Option<Fixed>
        requires { decimals ≤ 8 }
        ensures some { IfSome result (λ f. (f.decimals ≡ decimals)
            × (text.now ≡ fixed_text f.value decimals)) }
        ensures every { (v : ℤ) → IsIn128 v → text.now ≡ fixed_text v decimals
            → result ≡ Some (record { value = v; decimals = decimals }) }
    {
        let fixed = read_back(text, decimals)?;
        if fixed.print().as_str() == text {
            Some(fixed)
        } else {
            None
        }
    }
}

/// The number with this many decimals that `print` writes as this text. For any other text the result may be any such number, or
/// None.
fn read_back(text: &str, decimals: u8) -> Option<Fixed>
    ensures every { (v : ℤ) → IsIn128 v → text.now ≡ fixed_text v decimals
        → result ≡ Some (record { value = v; decimals = decimals }) }
    ensures alike { IfSome result (λ f. f.decimals ≡ decimals) }
{
    let size = size_of(text.as_bytes())?;
    let value = with_sign(is_below(text.as_bytes()), size)?;
    Some(Fixed { value, decimals })
}
