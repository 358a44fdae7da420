ghost use Rattle.std.specs.Prelude.{◌≡◌, ◌<◌};
ghost use Rattle.base16.specs.Hexadecimal.{hex_digit};
ghost use Rattle.base16.specs.Hexadecimal as spec;

fn digit(value: u16) -> u8
    requires { value < 16 }
    ensures { result ≡ hex_digit value }
{
    if value < 10 {
        b'0' + value as u8
    } else {
        b'a' - 10 + value as u8
    }
}

/// The four hexadecimal digits of a word, letters in lower case.
pub fn hex4(word: u16) -> [u8; 4]
    ensures { result ≡ spec.hex4 word }
{
    [
        digit(word / 4096),
        digit(word / 256 % 16),
        digit(word / 16 % 16),
        digit(word % 16),
    ]
}

#[cfg(test)]
mod tests {
    use super::*;

    #[test]
    fn words_have_four_digits(rt: HostRuntime) {
        for (word, text) in [
            (0, b"0000"),
            (0x8004, b"8004"),
            (0x12b0, b"12b0"),
            (0xffff, b"ffff"),
        ] {
            assert_eq!(rt; hex4(word), *text, "digits of {word}");
        }
    }
}
