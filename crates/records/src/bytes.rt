// Records of 18 bytes, and numbers in them, the high byte first. (Functions of a slice and a place, as indexing is: a struct
// around the slice would be taken off again where the slice is cut.)
ghost use Rattle.std.specs.Prelude.{◌≡◌, slice_index};
ghost use Rattle.records.specs.Records.{record_count, record_at, word, long};

// How many whole records stand in a sheet.
pub fn record_count(sheet: &[u8]) -> usize
    ensures { result ≡ record_count sheet.now }
{
    sheet.len() / 18
}

// The record with an index: as much of it as there is.
pub fn record_at(sheet: &[u8], index: u8) -> &[u8]
    ensures { result.now ≡ record_at sheet.now index }
{
    let rest = sheet.get(18 * usize::from(index)..).unwrap_or(&[]);
    rest.get(..18).unwrap_or(rest)
}

// A byte; past the end, zero, as the definitions have it: what is asked before leaves no record cut short.
pub fn byte_at(bytes: &[u8], at: usize) -> u8
    ensures { result ≡ slice_index bytes.now at }
{
    bytes.get(at).copied().unwrap_or(0)
}

// Two bytes.
pub fn word_at(bytes: &[u8], at: u8) -> u16
    ensures { result ≡ word bytes.now at }
{
    let at = usize::from(at);
    u16::from_be_bytes([byte_at(bytes, at), byte_at(bytes, at + 1)])
}

// Four bytes. (One function for numbers of any size would be longer than the two.)
pub fn long_at(bytes: &[u8], at: u8) -> u32
    ensures { result ≡ long bytes.now at }
{
    let at = usize::from(at);
    u32::from_be_bytes([
        byte_at(bytes, at),
        byte_at(bytes, at + 1),
        byte_at(bytes, at + 2),
        byte_at(bytes, at + 3),
    ])
}
