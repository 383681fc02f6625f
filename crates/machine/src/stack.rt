ghost use Rattle.std.specs.Prelude.{◌≤◌};

mod methods;

// A stack of at most 255 bytes. The top byte stands last in `cells`.
// An array and a length, as the device has no heap and a machine is `Copy`, which `ArrayVec` is not.
#[derive(Clone, Copy)]
pub struct Stack {
    cells: [u8; 255],
    depth: usize,
    ghost within: { depth ≤ 255 },
}
