ghost use Rattle.std.specs.Prelude.{◌≡◌, ◌<◌, ◌≤◌, ◌^◌, true, length, IfSome};
ghost use Rattle.std.specs.List.{list_all};
ghost use Rattle.std.specs.Char.{digit_value, is_ascii_digit};
ghost use Rattle.std.specs.Str.Parse.{digits_value};
ghost use Rattle.decimal_numbers.specs.Numbers.{is_number, number};

/// The most digits that a number has.
const DIGITS_LIMIT: usize = 20;

fn all_digits(word: &[u8]) -> bool
    ensures { result ≡ list_all is_ascii_digit word.now }
{
    word.iter().all(|byte| byte.is_ascii_digit())
}

/// Whether a text is a number.
pub fn is_number(word: &[u8]) -> bool
    ensures { result ≡ is_number word.now }
{
    !word.is_empty() && word.len() <= DIGITS_LIMIT && all_digits(word)
}

fn digit_value(byte: u8) -> u8
    requires { is_ascii_digit byte ≡ true }
    ensures value { result ≡ digit_value byte }
    ensures small { result < 10 }
{
    byte - b'0'
}

#[tactic(auto, using(crate::proofs::NumberLemmas::one_digit_more, crate::proofs::NumberLemmas::short_power, std::proofs::lemmas::Int::Digits::digits_value_more))]
fn digits_value(word: &[u8]) -> u128
    requires short { length word.now ≤ DIGITS_LIMIT }
    requires digits { list_all is_ascii_digit word.now ≡ true }
    ensures value { result ≡ digits_value 10 word.now }
    ensures small { result < 10 ^ 20 }
{
    let mut value = 0u128;
    for byte in word {
        value = value * 10 + u128::from(digit_value(*byte));
    }
    value
}

/// The number that a text is, if it is one.
pub fn read_number(word: &[u8]) -> Option<u128>
    ensures value { result ≡ number word.now }
    ensures small { IfSome result (λ value. value < 10 ^ 20) }
{
    if is_number(word) {
        Some(digits_value(word))
    } else {
        None
    }
}
