// What a sheet is judged against.
use crate::entry::Entry;
use crate::head::Head;
use board::Board;
use machine::Settings;

// A code and its sheet, whose head has been read.
#[derive(Clone, Copy)]
pub struct Candidate<'a> {
    pub code: &'a [u8],
    pub sheet: &'a [u8],
    pub head: Head,
}

// The node's settings, its board and what is fitted, and the candidate.
#[derive(Drop)]
pub struct Scene<'a, B: Board> {
    pub settings: &'a Settings,
    pub board: &'a B,
    pub fitted: &'a [Entry],
    pub candidate: Candidate<'a>,
}
