// What a question asks, in words.
use refusal::Question;
use std::fmt;

#[derive(Clone, Copy)]
pub struct Words(pub Question);

impl fmt::Display for Words {
    fn fmt<W: fmt::Write>(&self, f: &mut fmt::Formatter<W>) -> fmt::Result {
        let words = in_words(self.0);
        write!(f, "{words}")
    }
}

fn in_words(question: Question) -> &'static str {
    match question {
        Question::BasePage => "is the first address of the base page at most 65,280?",
        Question::CodeArea =>
            "has the code area 1 to 8,192 bytes, and is it clear of the base page?",
        Question::StackLimits => "is the data limit 1 to 255, and the return limit 2 to 255?",
        Question::BoardShape =>
            "are its addresses not too many, none past h'FFFF, and no output named twice?",
        Question::SheetSize => "is the sheet 2 to 256 whole records?",
        Question::CodeSize => "has the code 1 to 1,024 bytes, as many as the head says?",
        Question::ParameterBytes =>
            "are arguments and results each at most 64, and at most the data peak?",
        Question::OutsideArea => "does all of the routine lie in the code area?",
        Question::Overlap => "is it clear of every fitted routine?",
        Question::TooMany => "are fewer than 32 routines fitted?",
        Question::WindowIndex => "is the index of the next window below the number of records?",
        Question::WindowShape =>
            "is its first address at most its last and above the window before, and its right 1 to 3?",
        Question::WindowCount => "is it among the first 8 windows?",
        Question::WindowReserved => "is it clear of the base page and of the code area?",
        Question::WindowDenied => "does the board give this right at all of its addresses?",
        Question::RowIndex =>
            "is there a first row, and is the index of the next row below the number of records?",
        Question::RowOffset =>
            "is its offset 0 where it is the first row, and else at or past the end of the row before?",
        Question::RowInstruction => "does an instruction stand there, all of it inside the code?",
        Question::RowBounds => "are its depths within the peaks, and its marks at most 15?",
        Question::FirstRow =>
            "does the first row claim the arguments, no return byte, no pointer, and cycles within the worst?",
        Question::RowShort => "do its depths cover what the instruction needs?",
        Question::OutsideWindows =>
            "do the addresses that it reads or writes lie in one window with that right?",
        Question::CalleeMissing => "is the target of the call the origin of a fitted routine?",
        Question::CalleeMisfit =>
            "do the arguments, the peaks and the windows of the called routine fit here?",
        Question::ReturnMisfit =>
            "does the return leave exactly the results, and no byte on the return stack?",
        Question::FollowerMissing => "is every address at which control may go on that of a row?",
        Question::FollowerDepths => "does each following row claim the depths that are left here?",
        Question::FollowerCycles => "do its cycles cover the instruction and each way on?",
        Question::FollowerPointers =>
            "is each pointer that a following row marks known here afterwards, with that value?",
        Question::NoInstruction =>
            "does an instruction stand there, with all its bytes in the code?",
        Question::DataShort => "does the data stack hold the bytes needed?",
        Question::ReturnShort =>
            "does the return stack hold the bytes needed, a return address among them?",
        Question::DataFull => "does the data stack stay within its limit?",
        Question::ReturnFull => "does the return stack stay within its limit?",
        Question::AccessDenied => "does the board accept the access?",
    }
}
