// Fits one routine after another, and prints what each is answered. A line of the script is blank, a comment that begins with
// `#` and is printed again, `node` where all that was fitted is forgotten, or `fit` with a code and a sheet in hexadecimal.
#![tactic(auto)]

mod script;

use board::Cells;
use fitting::{Verdict, cells, settings};
use machine::Settings;
use records::Entry;
use script::Command;
use sheet::examine;
use std::alloc::Global;
use std::io;
use std::io::Read;

// The planner's node, and what is fitted there.
#[derive(Drop)]
struct Node {
    settings: Settings,
    board: Cells,
    fitted: Vec<Entry>,
}

impl Node {
    fn new(heap: Global) -> Node {
        Node {
            settings: settings(),
            board: cells(),
            fitted: Vec::new(heap),
        }
    }

    // Examines a sheet against what is fitted, keeps the entry of an accepted one, and prints the verdict.
    fn fit(&mut self, rt: &impl Print, code: &[u8], sheet: &[u8]) -> io::Result<()> {
        let examined = examine(
            &self.settings,
            self.fitted.as_slice(),
            &self.board,
            code,
            sheet,
        );
        if let Ok(entry) = examined {
            self.fitted.push(entry)?;
        }
        let verdict = Verdict(examined);
        println!(rt; "  {verdict}")
    }
}

fn main(rt: HostRuntime) -> io::Result<()> {
    let heap = rt.alloc();
    let mut text = String::new(heap);
    rt.stdin().read_to_string(&mut text)?;
    let mut node = Node::new(heap);
    for line in text.lines() {
        match script::read(heap, line)? {
            Some(Command::Blank) => (),
            Some(Command::Comment) => println!(rt; "{line}")?,
            Some(Command::Node) => node.fitted.clear(),
            Some(Command::Fit(code, sheet)) => {
                node.fit(&rt, code.as_slice(), sheet.as_slice())?;
            }
            None => println!(rt; "  not understood")?,
        }
    }
    Ok(())
}
