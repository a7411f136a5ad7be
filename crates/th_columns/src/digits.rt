//! Numbers in a fixed count of digits.
ghost use Rattle.std.specs.Prelude.{◌≡◌, true};
ghost use Rattle.std.specs.List.{list_all};
ghost use Rattle.gsi_word.specs.Bytes.{is_data};
ghost use Rattle.th_units.specs.Metres.{last_digits};

/// The last `N` digits of a number, with zeros before a shorter number.
pub fn last_digits<const N: usize>(number: u64) -> [u8; N]
    ensures value { result ≡ last_digits N number }
    ensures data { list_all is_data result ≡ true }
{
    let mut digits = [b'0'; N];
    let mut rest = number;
    for count in 0..N {
        digits[N - 1 - count] = b'0' + (rest % 10) as u8;
        rest /= 10;
    }
    digits
}
