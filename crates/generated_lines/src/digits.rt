//! Digits, from the first one on.
ghost use Rattle.std.specs.Prelude.{◌≡◌, ◌+◌, ◌%◌};
ghost use Rattle.generated_lines.specs.Generator.{digits};

/// The last two digits of a number.
pub(crate) fn two_digits(n: u32) -> [u8; 2]
    ensures { result ≡ digits 2 n }
{
    [digit(n / 10), digit(n)]
}

/// The last six digits of a number.
pub(crate) fn six_digits(n: u32) -> [u8; 6]
    ensures { result ≡ digits 6 n }
{
    let tens = n / 10;
    let hundreds = tens / 10;
    let thousands = hundreds / 10;
    let upper = thousands / 10;
    [
        digit(upper / 10),
        digit(upper),
        digit(thousands),
        digit(hundreds),
        digit(tens),
        digit(n),
    ]
}

// The last digit of a number.
fn digit(n: u32) -> u8
    ensures { result ≡ 48 + n % 10 }
{
    b'0' + (n % 10) as u8
}
