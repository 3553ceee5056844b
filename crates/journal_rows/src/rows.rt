//! Rows: nine digits and LF, numbered from 1.
const DIGITS: usize = 9;

/// The bytes of a row.
pub(crate) const ROW: usize = DIGITS + 1;

/// The row of a number.
pub(crate) fn row_of(number: u64) -> [u8; ROW] {
    let mut row = *b"000000000\n";
    let mut rest = number;
    for place in (0..DIGITS).rev() {
        row[place] = b'0' + (rest % 10) as u8;
        rest /= 10;
    }
    row
}

/// How many rows a text has, if it is the rows from 1 on and nothing else.
pub(crate) fn count_rows(text: &[u8]) -> Option<u64> {
    let mut count = 0u64;
    for row in text.chunks(ROW) {
        count = count.wrapping_add(1);
        if row != row_of(count).as_slice() {
            return None;
        }
    }
    Some(count)
}
