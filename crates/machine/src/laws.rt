// What holds of every instruction of the table.
ghost use Rattle.machine.specs.Law.{DepthLaw, FrameLaw};

// The row says how deep the instruction leaves both stacks.
#[tactic(auto, using(crate::proofs::Frames::depths))]
pub fn depth_law()
    ensures { DepthLaw }
{}

// The row says what the instruction may touch.
#[tactic(auto, using(crate::proofs::Frames::frames))]
pub fn frame_law()
    ensures { FrameLaw }
{}
