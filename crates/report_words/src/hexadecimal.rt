ghost use Rattle.std.specs.Prelude.{◌≡◌, ◌++◌, ◌<◌, ◌*◌, length, slice_index, OnOk};
ghost use Rattle.hex.specs.Hex.{encode_lower, lower_digits};

use ft_base::NoMemory;

#[inline(always)]
fn digit(value: u8) -> u8
    requires { value < 16 }
    ensures { result ≡ slice_index lower_digits value }
{
    if value < 10 {
        value + b'0'
    } else {
        value - 10 + b'a'
    }
}

// Fills the text with the digits. A table of the digits would be read one by one; with none, many are made at once.
fn fill(text: &mut [u8], octets: &[u8])
    requires { length text.old ≡ 2 * length octets.now }
    ensures { text.new ≡ encode_lower octets.now }
{
    'octets: for i in 0..octets.len() {
        let octet = octets[i];
        text[2 * i] = digit(octet / 16);
        text[2 * i + 1] = digit(octet % 16);
    }
}

/// Writes two digits for each octet, directly behind the text.
pub fn push_hexadecimal(text: &mut Vec<u8>, octets: &[u8]) -> Result<(), NoMemory>
    ensures { OnOk result (text.new.items ≡ text.old.items ++ encode_lower octets.now) }
{
    let before = text.len();
    let Some(after) = before.checked_add(2 * octets.len()) else {
        return Err(NoMemory);
    };
    text.resize(after, 0)?;
    fill(&mut text[before..], octets);
    Ok(())
}
