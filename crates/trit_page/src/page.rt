// The page of trits, worked out by division.
ghost use Rattle.std.specs.Prelude.{◌≡◌, ◌+◌, ◌%◌, length};
ghost use Rattle.distr.specs.Packed.{digits};
ghost use Rattle.trit_page.specs.Page.{line_of, page_text};

// The lowest digit of a number in base 3, as a character.
fn digit(x: usize) -> u8
    ensures { result ≡ 48 + x % 3 }
{
    b'0' + (x % 3) as u8
}

// Writes the line of a byte: each division by 3 leaves the digits above the one that is written.
fn write_line(line: &mut [u8], byte: usize)
    requires { length line.old ≡ 10 }
    ensures { line.new ≡ line_of (digits 3 5 byte) }
{
    line[0] = digit(byte);
    line[1] = b' ';
    line[2] = digit(byte / 3);
    line[3] = b' ';
    line[4] = digit(byte / 3 / 3);
    line[5] = b' ';
    line[6] = digit(byte / 3 / 3 / 3);
    line[7] = b' ';
    line[8] = digit(byte / 3 / 3 / 3 / 3);
    line[9] = b'\n';
}

// Writes the lines of all bytes one after the other, ten characters each.
fn write_page(page: &mut [u8])
    requires { length page.old ≡ 2430 }
    ensures { page.new ≡ page_text }
{
    for byte in 0..243 {
        write_line(&mut page[10 * byte..10 * byte + 10], byte);
    }
}

// The whole page.
pub(crate) fn page() -> [u8; 2430]
    ensures { result ≡ page_text }
{
    let mut page = [0; 2430];
    write_page(&mut page);
    page
}
