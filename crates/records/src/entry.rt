// What a node keeps of an accepted sheet.
use crate::window::Window;

// The numbers of the head, the windows, and the origins that its rows call. A node has fixed memory: a sheet has at most eight
// windows, and there are fewer than 32 other routines to call.
#[derive(Clone, Copy)]
pub struct Entry {
    // One by one, as the head and the definitions have them: a struct of the seven would only stand before each use.
    pub origin: u16,
    pub length: u16,
    pub arguments: u8,
    pub results: u8,
    pub peak: u8,
    pub returns: u8,
    pub worst: u32,
    // Arrays of options: a vector of fixed memory can't be copied, as an entry can.
    pub windows: [Option<Window>; 8],
    pub called: [Option<u16>; 32],
}
