//! Numbers in decimal digits, put at the end of a buffer.
ghost use Rattle.std.specs.Prelude.{◌≡◌, ◌+◌, ◌-◌, ◌/◌, ◌%◌, ◌<◌, ◌≤◌, ◌∷◌, ◌++◌, length, drop};
ghost use Rattle.std.specs.Fmt.{decimal};

/// The two digits of each number below 100.
static PAIRS: [u8; 200] = *b"0001020304050607080910111213141516171819\
    2021222324252627282930313233343536373839\
    4041424344454647484950515253545556575859\
    6061626364656667686970717273747576777879\
    8081828384858687888990919293949596979899";

/// Puts two digits so that they end at `end`.
#[inline(always)]
fn put_pair(pair: u8, line: &mut [u8], end: usize)
    requires two { pair < 100 }
    requires room { 2 ≤ end }
    requires within { end ≤ length line.old }
    ensures len { length line.new ≡ length line.old }
    ensures written { drop (end - 2) line.new ≡ (48 + pair / 10) ∷ (48 + pair % 10) ∷ drop end line.old }
{
    let tens = usize::from(pair) * 2;
    line[end - 1] = PAIRS[tens + 1];
    line[end - 2] = PAIRS[tens];
}

/// Puts a number of one or two digits so that it ends at `end`, and returns where it begins.
#[inline(always)]
fn put_one_or_two(number: u8, line: &mut [u8], end: usize) -> usize
    requires two { number < 100 }
    requires room { length (decimal number) ≤ end }
    requires within { end ≤ length line.old }
    ensures start { result + length (decimal number) ≡ end }
    ensures written { drop result line.new ≡ decimal number ++ drop end line.old }
{
    if number >= 10 {
        put_pair(number, line, end);
        return end - 2;
    }
    line[end - 1] = b'0' + number;
    end - 1
}

/// Puts a number of at most four digits so that it ends at `end`, and returns where it begins.
#[inline(always)]
fn put_few(number: u16, line: &mut [u8], end: usize) -> usize
    requires four { number < 10000 }
    requires room { length (decimal number) ≤ end }
    requires within { end ≤ length line.old }
    ensures start { result + length (decimal number) ≡ end }
    ensures written { drop result line.new ≡ decimal number ++ drop end line.old }
{
    if number < 100 {
        return put_one_or_two(number as u8, line, end);
    }
    put_pair((number % 100) as u8, line, end);
    put_one_or_two((number / 100) as u8, line, end - 2)
}

/// Puts a number in decimal digits so that it ends at `end`, and returns where it begins.
#[inline]
pub fn put_decimal(number: u64, line: &mut [u8], end: usize) -> usize
    requires room { length (decimal number) ≤ end }
    requires within { end ≤ length line.old }
    ensures start { result + length (decimal number) ≡ end }
    ensures written { drop result line.new ≡ decimal number ++ drop end line.old }
{
    let mut remaining = number;
    let mut start = end;
    while remaining >= 10_000 {
        let four = (remaining % 10_000) as u16;
        remaining /= 10_000;
        put_pair((four % 100) as u8, line, start);
        put_pair((four / 100) as u8, line, start - 2);
        start -= 4;
    }
    put_few(remaining as u16, line, start)
}
