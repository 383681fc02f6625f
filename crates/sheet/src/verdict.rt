// The public call.
ghost use Rattle.std.specs.Prelude.{◌≡◌, ◌<◌, true, length, IfOk};
ghost use Rattle.refusal.specs.Questions.{verdict_of, first_no};
ghost use Rattle.records.specs.Routine.{routine, routine_of, digest, digest_of, digests_of};
ghost use Rattle.records.specs.Ground.{ground, may};
ghost use Rattle.records.specs.Heads.{sized_as};
ghost use Rattle.sheet.specs.Questions.{rows_asked, questions};
ghost use Rattle.sheet.specs.Kept.{entry_of};
ghost use Rattle.sheet.specs.Laws.{KeepsCalls, PrimedByTheRowBefore};

use crate::layout::Layout;
use board::Board;
use machine::Settings;
use records::{Candidate, Entry, Head, Record, Row, Scene, Window, is_whole, read_record, walk};
use refusal::{Question, Refusal, ask};

// Asks of the rows, and then of each with what follows it.
#[tactic(auto, using(crate::proofs::Accepted::in_order), unfolding(crate::specs::Questions::rows_asked))]
fn judge_rows<'a, B: Board>(scene: &Scene<'a, B>) -> Result<Entry, Refusal>
    requires { (sized_as (routine scene.now.candidate) ≡ true) × (length (digests_of scene.now.fitted.now) < 32) }
    ensures verdict { verdict_of result ≡ first_no (rows_asked (ground B.Board.meaning scene.now) scene.now.candidate.head scene.now.candidate.sheet.now) }
    ensures kept { IfOk result (λ e. e ≡ entry_of (routine scene.now.candidate)) }
    ensures called { IfOk result (λ e. KeepsCalls (routine scene.now.candidate) e) }
    ensures primed { IfOk result (λ e. PrimedByTheRowBefore (routine scene.now.candidate)) }
{
    let candidate = scene.candidate;
    let head = candidate.head;
    // Zero where there is no row, as the format of sheets has it.
    ask(Question::RowIndex, 0, head.rows != 0)?;
    walk::<B, Row>(scene, head.rows)?;
    let first = read_record::<Row>(candidate.sheet, head.rows);
    let starts = candidate.starts_well(first);
    ask(Question::FirstRow, usize::from(head.rows), starts)?;
    let layout = Layout::new(candidate);
    layout.judge_rows(scene.fitted)?;
    Ok(layout.entry())
}

// Whether a sheet is fitted: the entry to keep, or the first question that is answered no. (Five parameters, as a node holds them
// apart; inside they are one scene.)
#[tactic(auto, using(crate::proofs::Accepted::in_order), unfolding(crate::specs::Questions::windows_asked))]
pub fn examine<'a, B: Board>(
    settings: &'a Settings,
    fitted: &'a [Entry],
    board: &'a B,
    code: &'a [u8],
    sheet: &'a [u8],
) -> Result<Entry, Refusal>
    ensures verdict { verdict_of result ≡ first_no (questions settings.now (may B.Board.meaning board.now) (digests_of fitted.now) code.now sheet.now) }
    ensures kept { IfOk result (λ e. e ≡ entry_of (routine_of code.now sheet.now)) }
    ensures told { IfOk result (λ e. digest_of e ≡ digest (routine_of code.now sheet.now)) }
    ensures called { IfOk result (λ e. KeepsCalls (routine_of code.now sheet.now) e) }
    ensures primed { IfOk result (λ e. PrimedByTheRowBefore (routine_of code.now sheet.now)) }
{
    ask(Question::SheetSize, 0, is_whole(sheet))?;
    let head = Head::read(sheet);
    let candidate = Candidate { code, sheet, head };
    let scene = Scene {
        settings,
        board,
        fitted,
        candidate,
    };
    scene.judge_head()?;
    walk::<B, Window>(&scene, head.windows)?;
    judge_rows(&scene)
}
