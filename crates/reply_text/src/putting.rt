ghost use Rattle.std.specs.Prelude.{◌≡◌, ◌<◌, ◌+◌, ◌++◌, ◌∷◌, [], OnOk};
ghost use Rattle.std.specs.Fmt.{decimal};
ghost use Rattle.reply_text.specs.Text.{hex_digit, hex_text, spaced};

use cal_base::{Blob, Oom};

/// Puts bytes behind a text.
pub fn put_bytes(text: &mut Vec<u8>, bytes: &[u8]) -> Result<(), Oom>
    ensures { OnOk result (text.new.items ≡ text.old.items ++ bytes.now) }
{
    text.extend_from_slice(bytes)?;
    Ok(())
}

/// Puts words behind a text.
pub fn put(text: &mut Vec<u8>, words: &str) -> Result<(), Oom>
    ensures { OnOk result (text.new.items ≡ text.old.items ++ words.now) }
{
    put_bytes(text, words.as_bytes())
}

/// Puts a digit behind a text.
fn put_digit(text: &mut Vec<u8>, digit: u64) -> Result<(), Oom>
    requires { digit < 10 }
    ensures { OnOk result (text.new.items ≡ text.old.items ++ (48 + digit) ∷ []) }
{
    text.push(48 + digit as u8)?;
    Ok(())
}

/// Puts a number behind a text, in decimal, digit by digit.
#[tactic(auto, using(std::proofs::lemmas::Fmt::decimal_digit))]
pub fn put_number(text: &mut Vec<u8>, number: u64) -> Result<(), Oom>
    ensures { OnOk result (text.new.items ≡ text.old.items ++ decimal number) }
{
    if number < 10 {
        return put_digit(text, number);
    }
    put_number(text, number / 10)?;
    put_digit(text, number % 10)?;
    Ok(())
}

/// Puts words and a number behind a text.
pub fn put_field(text: &mut Vec<u8>, words: &str, number: u64) -> Result<(), Oom>
    ensures { OnOk result (text.new.items ≡ text.old.items ++ words.now ++ decimal number) }
{
    put(text, words)?;
    put_number(text, number)
}

/// Puts each word behind a space.
pub fn put_spaced(text: &mut Vec<u8>, words: &[Blob]) -> Result<(), Oom>
    ensures { OnOk result (text.new.items ≡ text.old.items ++ spaced words.now) }
{
    for word in words {
        put(text, " ")?;
        put_bytes(text, word.as_slice())?;
    }
    Ok(())
}

/// A hexadecimal digit.
fn hex_digit(nibble: u8) -> u8
    requires { nibble < 16 }
    ensures { result ≡ hex_digit nibble }
{
    if nibble < 10 {
        48 + nibble
    } else {
        87 + nibble
    }
}

/// Puts bytes in hexadecimal, two digits each.
pub fn put_hex(text: &mut Vec<u8>, bytes: &[u8]) -> Result<(), Oom>
    ensures { OnOk result (text.new.items ≡ text.old.items ++ hex_text bytes.now) }
{
    text.reserve(bytes.len() + bytes.len())?;
    for byte in bytes {
        text.push(hex_digit(*byte / 16))?;
        text.push(hex_digit(*byte % 16))?;
    }
    Ok(())
}
