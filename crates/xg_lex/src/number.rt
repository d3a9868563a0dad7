//! Numbers.

ghost use Rattle.std.specs.Prelude.{◌≡◌, ◌≤◌};
ghost use Rattle.xg_lex.specs.Bytes.{is_in_number};
ghost use Rattle.xg_lex.specs.Grammar.{AllOf};
ghost use Rattle.xg_lex.specs.Steps.{numeral, number_of};

fn numeral(digits: &str, radix: u32) -> Option<u64>
    requires low { 2 ≤ radix }
    requires high { radix ≤ 16 }
    requires digits { AllOf is_in_number digits.now }
    ensures { result ≡ numeral radix digits.now }
{
    u64::from_str_radix(digits, radix).ok()
}

/// The number that a word of letters and digits is: decimal, octal with a leading 0, or
/// hexadecimal with `0x`.
#[tactic(auto, unfolding(crate::specs::Steps::number_of))]
pub fn number_of(word: &str) -> Option<u64>
    requires { AllOf is_in_number word.now }
    ensures { result ≡ number_of word.now }
{
    let bytes = word.as_bytes();
    if bytes.is_empty() || bytes[0] != b'0' {
        return numeral(word, 10);
    }
    if bytes.len() == 1 || bytes[1] != b'x' {
        return numeral(word, 8);
    }
    numeral(&word[2..], 16)
}
