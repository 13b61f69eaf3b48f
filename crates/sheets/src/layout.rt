// The layout of a coupling sheet: records of 16 bytes, of which record 0 is the head, with little-endian numbers.
ghost use Rattle.std.specs.Prelude.{◌≡◌, ◌+◌, ◌*◌, ◌≤◌, ◌<◌, length, get_or};
ghost use Rattle.sheets.specs.Kind.{kind_of};
ghost use Rattle.sheets.specs.Layout.{u16_at, u32_at, blank, record_of, framed};
ghost use Rattle.sheets.specs.Chain.{position_of};
ghost use Rattle.sheets.specs.Sheet.{bytes_of};

use crate::amount::Kind;

// A record of a cell. `wear`, its last four bytes, is a wear class or a wear amount, by the kind of the sheet.
#[derive(Clone, Copy)]
pub struct Record {
    pub next: u16,
    pub row: u8,
    pub column: u8,
    pub lower: u32,
    pub upper: u32,
    pub wear: u32,
}

impl Record {
    // The position of its cell, by rows, in a matrix with this many columns.
    pub fn position(self, columns: usize) -> usize
        requires { columns ≤ 32 }
        ensures { result ≡ position_of columns self }
    {
        usize::from(self.row) * columns + usize::from(self.column)
    }

    // Its 16 bytes: by name, as `record_at` reads them.
    pub fn bytes(self) -> [u8; 16]
        ensures { result ≡ bytes_of self }
    {
        let [n0, n1] = self.next.to_le_bytes();
        let [l0, l1, l2, l3] = self.lower.to_le_bytes();
        let [u0, u1, u2, u3] = self.upper.to_le_bytes();
        let [w0, w1, w2, w3] = self.wear.to_le_bytes();
        let Record { row, column, .. } = self;
        [
            n0, n1, row, column, l0, l1, l2, l3, u0, u1, u2, u3, w0, w1, w2, w3,
        ]
    }
}

// The two-byte number at byte p. Two functions: one for both widths would take a trait, longer than these two lines.
#[tactic(auto, unfolding(crate::specs::Layout::u16_at))]
pub fn u16_at(s: &[u8], p: usize) -> u16
    requires { p + 1 < length s.now }
    ensures { result ≡ u16_at s.now p }
{
    u16::from_le_bytes([s[p], s[p + 1]])
}

// The four-byte number at byte p.
#[tactic(auto, unfolding(crate::specs::Layout::u32_at))]
pub fn u32_at(s: &[u8], p: usize) -> u32
    requires { p + 3 < length s.now }
    ensures { result ≡ u32_at s.now p }
{
    u32::from_le_bytes([s[p], s[p + 1], s[p + 2], s[p + 3]])
}

// Whether the n bytes from p on are zero.
#[tactic(auto, using(crate::proofs::Bytes::blank_listed))]
fn is_blank(s: &[u8], p: usize, n: usize) -> bool
    requires { p + n ≤ length s.now }
    ensures { result ≡ blank s.now p n }
{
    s[p..p + n].iter().all(|b| *b == 0)
}

// Record i.
#[tactic(auto, unfolding(crate::specs::Layout::record_of))]
pub fn record_at(s: &[u8], i: usize) -> Record
    requires { 16 * i + 16 ≤ length s.now }
    ensures { result ≡ record_of s.now i }
{
    let at = 16 * i;
    Record {
        next: u16_at(s, at),
        row: s[at + 2],
        column: s[at + 3],
        lower: u32_at(s, at + 4),
        upper: u32_at(s, at + 8),
        wear: u32_at(s, at + 12),
    }
}

// The kind of a sheet, by byte 6 of its head. No TryFrom: another byte than 0 and 1 is refused with the rest of the head, by `is_framed`.
pub fn kind(s: &[u8]) -> Kind
    requires { 6 < length s.now }
    ensures { result ≡ kind_of s.now }
{
    match s[6] {
        0 => Kind::Classes,
        _ => Kind::Amounts,
    }
}

// Whether length and head pass the check for refusal 6.
#[tactic(auto, unfolding(crate::specs::Layout::framed, crate::specs::Layout::whole))]
pub fn is_framed(s: &[u8]) -> bool
    ensures { result ≡ framed s.now }
{
    let n = s.len();
    n % 16 == 0
        && n >= 16
        && n <= 16400
        && 16 * usize::from(u16_at(s, 4)) == n
        && s[6] == kind(s).byte()
        && is_blank(s, 7, 9)
}
