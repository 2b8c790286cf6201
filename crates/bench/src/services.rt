ghost use Rattle.std.specs.Prelude.{◌≡◌, length};

// The services of the sixteen places: for each none, or the bits with which one is open.
#[derive(Clone, Copy)]
pub struct Services {
    pub(crate) each: [Option<u32>; 16],
    ghost sixteen: { length each ≡ 16 },
}
